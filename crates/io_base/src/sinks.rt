//! A sink of bytes: what the program asks of its output.
ghost use Rattle.std.specs.Prelude.{◌≡◌, ◌≤◌, ◌<◌, length, IfOk, OnOk, OnErr};
ghost use Rattle.io_base.specs.Causes.{Rose};
ghost use Rattle.io_base.specs.Sink.{SinkState, SinkGoesOn, Adds, AddsPrefix, AddsFront};

use crate::Failed;

/// A stream of bytes that is written from front to end. It may keep what was written to itself.
pub trait Sink {
    /// What the sink means.
    ghost state: { Self → SinkState };

    /// Writes bytes from the front of the piece, and answers how many. After `Failed` nothing was added. The count of faults
    /// rises in a call that fails, and in no other.
    fn write(&mut self, piece: &[u8]) -> Result<usize, Failed>
        ensures bound { IfOk result (λ n. n ≤ length piece.now) }
        ensures some { 0 < length piece.now → IfOk result (λ n. 0 < n) }
        ensures told { AddsFront (state self.old) (state self.new) piece.now result }
        ensures goes_on { SinkGoesOn (state self.old) (state self.new) }
        ensures cause { OnErr result (Rose (state self.old).faults (state self.new).faults) }
        ensures calm { OnOk result ((state self.new).faults ≡ (state self.old).faults) };
}

/// Writes the piece whole. After `Failed` a prefix of it was added. No write that failed is tried again. It takes no memory.
pub fn put_all<K: Sink>(sink: &mut K, piece: &[u8]) -> Result<(), Failed>
    ensures ok { OnOk result (Adds (K.state sink.old) (K.state sink.new) piece.now) }
    ensures err { OnErr result (AddsPrefix (K.state sink.old) (K.state sink.new) piece.now) }
    ensures goes_on { SinkGoesOn (K.state sink.old) (K.state sink.new) }
    ensures cause { OnErr result (Rose (K.state sink.old).faults (K.state sink.new).faults) }
    ensures calm { OnOk result ((K.state sink.new).faults ≡ (K.state sink.old).faults) }
{
    let mut rest = piece;
    'pieces: while !rest.is_empty() {
        match sink.write(rest) {
            Ok(count) => rest = &rest[count..],
            Err(Failed) => return Err(Failed),
        }
    }
    Ok(())
}
