ghost use Rattle.std.specs.Prelude.{◌≡◌, ◌≤◌, ◌<◌, ◌↔◌, [], length, take, min, Some, IsTrue, IfOk, OnErr};
ghost use Rattle.sl_io.specs.Counts.{Rose};
ghost use Rattle.sl_io.specs.FaultPlan.{is_failing, after_call};
ghost use Rattle.sl_io.specs.Gains.{Gains};
ghost use Rattle.sl_io.specs.SinkFault.{OnSinkFailed, OnSinkMemory};

use crate::fault_plan::FaultPlan;
use crate::{Sink, SinkFault};
use std::alloc::Global;
use std::marker::Model;

/// A stream into memory, which takes a bounded number of bytes at a call, with a plan of the
/// calls that fail.
#[derive(Debug, Drop)]
pub struct MemSink {
    bytes: Vec<u8>,
    most: u32,
    plan: FaultPlan,
}

impl Model for MemSink {
    ghost use Rattle.std.specs.Prelude.{◌≤◌};
    ghost use Rattle.sl_io.specs.Gathered.{Gathered};

    ghost Value = { Gathered };

    ghost view = { λ s. record { bytes = s.bytes.items; most = s.most; plan = s.plan } };

    ghost invariant = { λ s. 1 ≤ s.most };
}

impl MemSink {
    /// An empty stream that takes at most `most` bytes at a call. The listed calls, numbered
    /// from 1, fail.
    pub fn new(alloc: Global, most: u32, failing: Vec<u32>) -> MemSink
        requires { 1 ≤ most }
        ensures contents { ⟦<MemSink as Sink>⟧.contents result ≡ Some [] }
        ensures faults { ⟦<MemSink as Sink>⟧.faults result ≡ 0 }
        ensures state { result ≡ record {
          bytes = [];
          most = most;
          plan = record { failing = failing.items; calls = 0; faults = 0 };
        } }
    {
        MemSink {
            bytes: Vec::new(alloc),
            most,
            plan: FaultPlan::new(failing),
        }
    }

    /// The bytes that it took.
    pub fn bytes(&self) -> &[u8]
        ensures value { result.now ≡ self.now.bytes }
        ensures contents { ⟦<MemSink as Sink>⟧.contents self.now ≡ Some result.now }
    {
        self.bytes.as_slice()
    }

    /// How many calls of `write` came; it stands still at 2^32 - 1.
    pub fn calls(&self) -> u32
        ensures { result ≡ self.now.plan.calls }
    {
        self.plan.calls()
    }
}

impl Sink for MemSink {
    ghost use Rattle.std.specs.Prelude.{Some};

    ghost contents = { λ s. Some s.bytes };

    ghost faults = { λ s. s.plan.faults };

    fn write(&mut self, piece: &[u8]) -> Result<usize, SinkFault>
        ensures bound { IfOk result (λ taken. taken ≤ length piece.now) }
        ensures gains { IfOk result (λ taken.
            Gains (Some self.old.bytes) (take taken piece.now) (Some self.new.bytes)) }
        ensures kept { OnErr result (Some self.new.bytes ≡ Some self.old.bytes) }
        ensures failed { OnSinkFailed result (Rose self.old.plan.faults self.new.plan.faults) }
        ensures stuck { IfOk result (λ taken. taken ≡ 0 → 0 < length piece.now →
            Rose self.old.plan.faults self.new.plan.faults) }
        ensures counts { self.old.plan.faults ≤ self.new.plan.faults }
        ensures quiet { IfOk result (λ taken. 0 < taken → self.new.plan.faults ≡ self.old.plan.faults) }
        ensures memory { OnSinkMemory result (self.new.plan.faults ≡ self.old.plan.faults) }
        ensures takes { IfOk result (λ taken. taken ≡ min (length piece.now) self.old.most) }
        ensures fails { (result ≡ Err SinkFault.Failed) ↔ IsTrue (is_failing self.old.plan) }
        ensures plan { self.new.plan ≡ after_call self.old.plan }
        ensures most { self.new.most ≡ self.old.most }
    {
        if self.plan.fails_next() {
            return Err(SinkFault::Failed);
        }
        let taken = piece.len().min(self.most as usize);
        match self.bytes.extend_from_slice(&piece[..taken]) {
            Ok(()) => Ok(taken),
            Err(_) => Err(SinkFault::Memory),
        }
    }
}
