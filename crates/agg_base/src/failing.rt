//! The calls that a source or a sink in memory is told to fail in.
ghost use Rattle.std.specs.Prelude.{◌≡◌, ℕ, IsSorted};
ghost use Rattle.std.specs.Ordering.{nat_cmp};
ghost use Rattle.agg_base.specs.Memory.{is_failing};

use agg_model::List as Numbers;

/// The numbers in ascending order.
pub(crate) fn ascending(numbers: Numbers<u64>) -> Vec<u64>
    ensures sorted { IsSorted nat_cmp result.items }
    ensures same { (call : ℕ) → is_failing result.items call ≡ is_failing numbers call }
{
    let mut numbers = numbers.into_vec();
    numbers.as_mut_slice().sort_unstable();
    numbers
}

/// Whether the call of this number is among those that fail.
pub(crate) fn is_among(failing: &[u64], call: u64) -> bool
    requires { IsSorted nat_cmp failing.now }
    ensures { result ≡ is_failing failing.now call }
{
    failing.binary_search(&call).is_ok()
}
