ghost use Rattle.std.specs.Prelude.{◌≡◌, ◌≤◌, ◌<◌, ℕ, List, Option, length, take, IfOk, OnErr};
ghost use Rattle.std.specs.Io.KnownBytes.{prepend_known, IsAtEnd};
ghost use Rattle.agg_base.specs.Outside.{Rose};

/// A read or a write failed. It says no more, and anybody can make one.
#[derive(Clone, Copy, Debug, PartialEq, Eq)]
pub struct Failed;

/// Where bytes come from.
pub trait Source {
    /// The bytes that are left, where the source tells.
    ghost left: { Self → Option (List ℕ) };

    /// How many reads failed. At its last value, 2 ^ 64 - 1, it stands still.
    ghost faults: { Self → ℕ };

    /// Puts bytes at the front of `buf` and answers their number, 0 exactly at the end of input. After `Failed` nothing
    /// was given.
    fn read(&mut self, buf: &mut [u8]) -> Result<usize, Failed>
        requires { 0 < length buf.old }
        ensures within { IfOk result (λ n. n ≤ length buf.old) }
        ensures given { IfOk result (λ n. left self.old ≡ prepend_known (take n buf.new) (left self.new)) }
        ensures end { IfOk result (λ n. n ≡ 0 → IsAtEnd (left self.old)) }
        ensures same { OnErr result (left self.new ≡ left self.old) }
        ensures never_falls { faults self.old ≤ faults self.new }
        ensures fault { OnErr result (Rose (faults self.old) (faults self.new)) };
}
