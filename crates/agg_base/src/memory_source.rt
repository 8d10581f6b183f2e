ghost use Rattle.std.specs.Prelude.{◌≡◌, ◌≤◌, ◌<◌, ◌↔◌, ℕ, List, Option, Some, None, length, take, IfOk, OnErr, if◌then◌else◌};
ghost use Rattle.std.specs.Result.{result_ok};
ghost use Rattle.std.specs.Io.KnownBytes.{prepend_known, IsAtEnd};
ghost use Rattle.agg_base.specs.Outside.{Rose};
ghost use Rattle.agg_base.specs.Memory.{Feed, feed_fails, fed, after_read, is_failing};

use crate::failing::{ascending, is_among};
use crate::source::{Failed, Source};
use agg_model::{Bytes, List as Numbers};
use std::marker::Model;

/// A source over bytes in memory, which can be told to give them in pieces and to fail.
#[derive(Drop)]
pub struct MemorySource {
    bytes: Vec<u8>,
    // How many bytes were given.
    given: usize,
    piece: usize,
    // The numbers of the calls that fail, in ascending order.
    failing: Vec<u64>,
    calls: u64,
    faults: u64,
}

impl Model for MemorySource {
    ghost use Rattle.std.specs.Prelude.{◌≤◌, ◌<◌, length, drop, IsSorted};
    ghost use Rattle.std.specs.Ordering.{nat_cmp};
    ghost use Rattle.agg_base.specs.Memory.{Feed};

    ghost Value = { Feed };

    ghost view = { λ s. record { rest = drop s.given s.bytes.items; piece = s.piece; failing = s.failing.items; calls = s.calls; faults = s.faults } };

    ghost invariant = { λ s. (s.given ≤ length s.bytes.items) × (0 < s.piece) × IsSorted nat_cmp s.failing.items };
}

impl MemorySource {
    /// A source that gives `bytes`, at most `piece` of them in a call, and fails in the calls whose number, from 0, is
    /// in `failing`.
    pub fn new(bytes: Bytes, piece: usize, failing: Numbers<u64>) -> MemorySource
        requires { 1 ≤ piece }
        ensures rest { result.rest ≡ bytes }
        ensures piece { result.piece ≡ piece }
        ensures failing { (call : ℕ) → is_failing result.failing call ≡ is_failing failing call }
        ensures calls { result.calls ≡ 0 }
        ensures faults { result.faults ≡ 0 }
    {
        MemorySource {
            bytes: bytes.into_vec(),
            given: 0,
            piece,
            failing: ascending(failing),
            calls: 0,
            faults: 0,
        }
    }
}

/// Copies the first `count` bytes.
fn copy_front(from: &[u8], to: &mut [u8], count: usize)
    requires from { count ≤ length from.now }
    requires to { count ≤ length to.old }
    ensures { take count to.new ≡ take count from.now }
{
    to[..count].copy_from_slice(&from[..count]);
}

impl Source for MemorySource {
    ghost left = { λ s. Some s.rest };

    ghost faults = { λ s. s.faults };

    fn read(&mut self, buf: &mut [u8]) -> Result<usize, Failed>
        requires { 0 < length buf.old }
        ensures answer { result_ok result ≡ (if feed_fails self.old then None else Some (fed self.old (length buf.old))) }
        ensures after { self.new ≡ after_read self.old (length buf.old) }
        ensures within { IfOk result (λ n. n ≤ length buf.old) }
        ensures given { IfOk result (λ n. Some self.old.rest ≡ prepend_known (take n buf.new) (Some self.new.rest)) }
        ensures end { IfOk result (λ n. n ≡ 0 → IsAtEnd (Some self.old.rest)) }
        ensures same { OnErr result (Some self.new.rest ≡ Some self.old.rest) }
        ensures never_falls { self.old.faults ≤ self.new.faults }
        ensures fault { OnErr result (Rose self.old.faults self.new.faults) }
    {
        let is_failing = is_among(self.failing.as_slice(), self.calls);
        self.calls = self.calls.saturating_add(1);
        if is_failing {
            self.faults = self.faults.saturating_add(1);
            return Err(Failed);
        }
        let rest = &self.bytes.as_slice()[self.given..];
        let given = buf.len().min(self.piece).min(rest.len());
        copy_front(rest, buf, given);
        self.given += given;
        Ok(given)
    }
}
