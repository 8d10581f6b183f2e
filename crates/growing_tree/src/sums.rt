//! Sums of counts and bytes.
ghost use Rattle.std.specs.Prelude.{◌≡◌, ◌+◌, IfOk};

use std::alloc::AllocError;

/// A sum of counts or of bytes; one of more than 64 bits counts as want of memory.
pub(crate) fn sum(a: u64, b: u64) -> Result<u64, AllocError>
    ensures { IfOk result (λ s. s ≡ a + b) }
{
    a.checked_add(b).ok_or(AllocError)
}
