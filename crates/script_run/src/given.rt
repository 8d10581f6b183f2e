//! A source over bytes that are all there.
ghost use Rattle.std.specs.Prelude.{◌≡◌, ◌≤◌, ◌<◌, ℕ, List, Option, Some, length, take, IfOk, OnErr};
ghost use Rattle.std.specs.Io.KnownBytes.{prepend_known, IsAtEnd};
ghost use Rattle.agg_base.specs.Outside.{Rose};

use agg_base::{Failed, Source};
use agg_model::Bytes;
use std::marker::Model;

/// A source over bytes in memory, none of whose reads fails.
#[derive(Drop)]
pub(crate) struct Given {
    bytes: Vec<u8>,
    // How many bytes were given.
    given: usize,
}

impl Model for Given {
    ghost use Rattle.std.specs.Prelude.{◌≤◌, ℕ, List, length, drop};

    ghost Value = { List ℕ };

    ghost view = { λ s. drop s.given s.bytes.items };

    ghost invariant = { λ s. s.given ≤ length s.bytes.items };
}

impl Given {
    /// A source that gives these bytes.
    pub(crate) fn new(bytes: Bytes) -> Given
        ensures { result ≡ bytes }
    {
        Given {
            bytes: bytes.into_vec(),
            given: 0,
        }
    }
}

/// Copies the first `count` bytes.
fn copy_front(from: &[u8], to: &mut [u8], count: usize)
    requires from { count ≤ length from.now }
    requires to { count ≤ length to.old }
    ensures { take count to.new ≡ take count from.now }
{
    to[..count].copy_from_slice(&from[..count]);
}

impl Source for Given {
    ghost left = { λ s. Some s };

    ghost faults = { λ _. 0 };

    fn read(&mut self, buf: &mut [u8]) -> Result<usize, Failed>
        requires { 0 < length buf.old }
        ensures within { IfOk result (λ n. n ≤ length buf.old) }
        ensures given { IfOk result (λ n. Some self.old ≡ prepend_known (take n buf.new) (Some self.new)) }
        ensures end { IfOk result (λ n. n ≡ 0 → IsAtEnd (Some self.old)) }
        ensures same { OnErr result (Some self.new ≡ Some self.old) }
        ensures never_falls { 0 ≤ 0 }
        ensures fault { OnErr result (Rose 0 0) }
    {
        let rest = &self.bytes.as_slice()[self.given..];
        let given = buf.len().min(rest.len());
        copy_front(rest, buf, given);
        self.given += given;
        Ok(given)
    }
}
