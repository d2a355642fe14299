//! A sink in memory, for tests and for trying what follows a fault.
ghost use Rattle.std.specs.Prelude.{◌≡◌, [], length, IsTrue, IsErr, IfOk, OnOk, OnErr};
ghost use Rattle.io_base.specs.Calls.{FailsNext, CountsCall, PlansFault, IsUncalled};
ghost use Rattle.io_base.specs.Causes.{CountsFault};
ghost use Rattle.io_base.specs.Sink.{SinkGoesOn, AddsFront};

use crate::call_plan::CallPlan;
use crate::{Failed, OutOfMemory, Sink};
use std::alloc::Global;
use std::marker::Model;

/// Bytes in memory, and the writes that are to fail. It tells its bytes.
///
/// A growth that is refused counts as a fault.
#[derive(Drop)]
pub struct MemSink {
    bytes: Vec<u8>,
    faults: u64,
    writes: CallPlan,
}

impl Model for MemSink {
    ghost use Rattle.std.specs.Prelude.{true};
    ghost use Rattle.io_base.specs.MemSink.{MemSinkState};

    ghost Value = { MemSinkState };

    ghost view = { λ s. record {
      sink = record { faults = s.faults; tells = true; bytes = s.bytes.items };
      writes = s.writes;
    } };
}

impl MemSink {
    /// No bytes, and no writes that are to fail.
    pub fn new(alloc: Global) -> Self
        ensures told { IsTrue result.sink.tells }
        ensures bytes { result.sink.bytes ≡ [] }
        ensures faults { result.sink.faults ≡ 0 }
        ensures writes { IsUncalled result.writes }
    {
        MemSink {
            bytes: Vec::new(alloc),
            faults: 0,
            writes: CallPlan::new(alloc),
        }
    }

    /// The bytes written.
    pub fn bytes(&self) -> &[u8]
        ensures { result.now ≡ self.now.sink.bytes }
    {
        &self.bytes
    }

    /// Adds a write to those that are to fail. The first write has number 1.
    pub fn fail(&mut self, number: u32) -> Result<(), OutOfMemory>
        ensures sink { self.new.sink ≡ self.old.sink }
        ensures ok { OnOk result (PlansFault self.old.writes self.new.writes number) }
        ensures err { OnErr result (self.new.writes ≡ self.old.writes) }
    {
        self.writes.add(number)
    }
}

impl Sink for MemSink {
    ghost state = { λ s. s.sink };

    /// Writes the piece whole. Fails where this write is to fail, and where memory is refused.
    fn write(&mut self, piece: &[u8]) -> Result<usize, Failed>
        ensures ok { IfOk result (λ n. n ≡ length piece.now) }
        ensures told { AddsFront self.old.sink self.new.sink piece.now result }
        ensures goes_on { SinkGoesOn self.old.sink self.new.sink }
        ensures faults { CountsFault self.old.sink.faults self.new.sink.faults result }
        ensures fails { FailsNext self.old.writes → IsErr result }
        ensures calls { CountsCall self.old.writes self.new.writes }
    {
        if self.writes.count_call() || self.bytes.extend_from_slice(piece).is_err() {
            self.faults = self.faults.saturating_add(1);
            return Err(Failed);
        }
        Ok(piece.len())
    }
}
