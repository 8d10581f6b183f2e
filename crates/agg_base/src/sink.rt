ghost use Rattle.std.specs.Prelude.{◌≡◌, ◌≤◌, ◌<◌, ℕ, List, Option, length, take, IfOk, OnOk, OnErr};
ghost use Rattle.std.specs.Io.KnownBytes.{append_known};
ghost use Rattle.agg_base.specs.Outside.{Rose};

use crate::source::Failed;

/// Where bytes go.
pub trait Sink {
    /// The bytes that were written, where the sink tells.
    ghost written: { Self → Option (List ℕ) };

    /// How many writes failed. At its last value, 2 ^ 64 - 1, it stands still.
    ghost faults: { Self → ℕ };

    /// Takes bytes from the front of `buf` and answers their number. After `Failed` nothing was taken.
    fn write(&mut self, buf: &[u8]) -> Result<usize, Failed>
        requires { 0 < length buf.now }
        ensures some { IfOk result (λ n. 1 ≤ n) }
        ensures within { IfOk result (λ n. n ≤ length buf.now) }
        ensures taken { IfOk result (λ n. written self.new ≡ append_known (written self.old) (take n buf.now)) }
        ensures same { OnErr result (written self.new ≡ written self.old) }
        ensures never_falls { faults self.old ≤ faults self.new }
        ensures fault { OnErr result (Rose (faults self.old) (faults self.new)) };
}

/// Writes all of `bytes`, in as many calls as it takes. After `Failed` a front of them was written.
pub fn write_all<K: Sink>(sink: &mut K, bytes: &[u8]) -> Result<(), Failed>
    ensures all { OnOk result (K.written sink.new ≡ append_known (K.written sink.old) bytes.now) }
    ensures front { OnErr result ((n : ℕ) × (n < length bytes.now) × (K.written sink.new ≡ append_known (K.written sink.old) (take n bytes.now))) }
    ensures never_falls { K.faults sink.old ≤ K.faults sink.new }
    ensures fault { OnErr result (Rose (K.faults sink.old) (K.faults sink.new)) }
{
    let mut rest = bytes;
    while !rest.is_empty() {
        let taken = sink.write(rest)?;
        rest = &rest[taken..];
    }
    Ok(())
}
