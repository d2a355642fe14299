//! Standard output, as a sink. Trusted to do what the system's call is said to do.
ghost use Rattle.std.specs.Prelude.{◌≡◌};

use crate::{Failed, Sink};
use std::marker::Model;

/// Standard output. It does not tell what was written.
#[derive(Drop)]
pub struct StdSink<P> {
    out: P,
    faults: u64,
}

impl<P> Model for StdSink<P> {
    ghost use Rattle.std.specs.Prelude.{false, []};
    ghost use Rattle.io_base.specs.Sink.{SinkState};

    ghost Value = { SinkState };

    ghost view = { λ s. record { faults = s.faults; tells = false; bytes = [] } };
}

impl<P: Print> StdSink<P> {
    /// The standard output of the runtime, with no faults.
    pub fn new(out: P) -> Self
        ensures { result.faults ≡ 0 }
    {
        StdSink { out, faults: 0 }
    }
}

impl<P: Print> Sink for StdSink<P> {
    ghost state = { λ s. s };

    /// A write of 0 bytes of a piece that is not empty is a fault.
    fn write(&mut self, piece: &[u8]) -> Result<usize, Failed> {
        match self.out.write_some(piece) {
            Ok(count) if count > 0 || piece.is_empty() => Ok(count),
            _ => {
                self.faults = self.faults.saturating_add(1);
                Err(Failed)
            }
        }
    }
}
