ghost use Rattle.std.specs.Prelude.{◌≡◌, ◌≤◌, ◌<◌, ◌↔◌, ℕ, List, [], Option, Some, None, length, take, IfOk, OnErr, if◌then◌else◌};
ghost use Rattle.std.specs.Result.{result_ok};
ghost use Rattle.std.specs.Io.KnownBytes.{append_known};
ghost use Rattle.agg_base.specs.Outside.{Rose};
ghost use Rattle.agg_base.specs.Memory.{Store, store_fails, stored, after_write, is_failing};

use crate::failing::{ascending, is_among};
use crate::sink::Sink;
use crate::source::Failed;
use agg_model::List as Numbers;
use std::alloc::{AllocError, Global};
use std::marker::Model;

/// A sink into memory that was reserved when it was made, which can be told to take pieces and to fail.
#[derive(Drop)]
pub struct MemorySink {
    written: Vec<u8>,
    // How many bytes may still be written.
    room: usize,
    piece: usize,
    // The numbers of the calls that fail, in ascending order.
    failing: Vec<u64>,
    calls: u64,
    faults: u64,
}

impl Model for MemorySink {
    ghost use Rattle.std.specs.Prelude.{◌≤◌, ◌<◌, ◌+◌, length, IsSorted, vec_len, vec_capacity};
    ghost use Rattle.std.specs.Ordering.{nat_cmp};
    ghost use Rattle.agg_base.specs.Memory.{Store};

    ghost Value = { Store };

    ghost view = { λ s. record { written = s.written.items; room = s.room; piece = s.piece; failing = s.failing.items; calls = s.calls; faults = s.faults } };

    ghost invariant = { λ s. (vec_len s.written + s.room ≤ vec_capacity s.written) × (0 < s.piece) × IsSorted nat_cmp s.failing.items };
}

impl MemorySink {
    /// A sink with room for `room` bytes, which it reserves here. A call takes at most `piece` bytes, and those fail
    /// whose number, from 0, is in `failing`, or that find no room left.
    pub fn new(
        alloc: Global,
        room: usize,
        piece: usize,
        failing: Numbers<u64>,
    ) -> Result<MemorySink, AllocError>
        requires { 1 ≤ piece }
        ensures written { IfOk result (λ s. s.written ≡ []) }
        ensures room { IfOk result (λ s. s.room ≡ room) }
        ensures piece { IfOk result (λ s. s.piece ≡ piece) }
        ensures failing { IfOk result (λ s. (call : ℕ) → is_failing s.failing call ≡ is_failing failing call) }
        ensures calls { IfOk result (λ s. s.calls ≡ 0) }
        ensures faults { IfOk result (λ s. s.faults ≡ 0) }
    {
        let written = Vec::with_capacity(alloc, room)?;
        Ok(MemorySink {
            written,
            room,
            piece,
            failing: ascending(failing),
            calls: 0,
            faults: 0,
        })
    }

    /// What was written.
    pub fn written(&self) -> &[u8]
        ensures { result.now ≡ self.now.written }
    {
        self.written.as_slice()
    }
}

impl Sink for MemorySink {
    ghost written = { λ s. Some s.written };

    ghost faults = { λ s. s.faults };

    fn write(&mut self, buf: &[u8]) -> Result<usize, Failed>
        requires { 0 < length buf.now }
        ensures answer { result_ok result ≡ (if store_fails self.old then None else Some (stored self.old (length buf.now))) }
        ensures after { self.new ≡ after_write self.old buf.now }
        ensures some { IfOk result (λ n. 1 ≤ n) }
        ensures within { IfOk result (λ n. n ≤ length buf.now) }
        ensures taken { IfOk result (λ n. Some self.new.written ≡ append_known (Some self.old.written) (take n buf.now)) }
        ensures same { OnErr result (Some self.new.written ≡ Some self.old.written) }
        ensures never_falls { self.old.faults ≤ self.new.faults }
        ensures fault { OnErr result (Rose self.old.faults self.new.faults) }
    {
        let is_failing = self.room == 0 || is_among(self.failing.as_slice(), self.calls);
        self.calls = self.calls.saturating_add(1);
        if is_failing {
            self.faults = self.faults.saturating_add(1);
            return Err(Failed);
        }
        let taken = buf.len().min(self.piece).min(self.room);
        let Ok(()) = self.written.extend_from_slice(&buf[..taken]) else {
            unreachable!("the room was reserved")
        };
        self.room -= taken;
        Ok(taken)
    }
}
