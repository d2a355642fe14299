//! The last thing that a command does: to write its text and end with its status.
ghost use Rattle.io_base.specs.Sink.{SinkGoesOn};
ghost use Rattle.replies.specs.Texts.{no_memory};
ghost use Rattle.replies.specs.Ending.{Says, SaysStop, SaysEnd};
ghost use Rattle.replies.specs.declared.status.Status.TheVariants as statuses;

use crate::reply::{Reply, Stop};
use crate::status::Status;
use io_base::{Failed, Sink, put_all};

/// Writes a text, and ends with its status, or with that of a sink that fails.
pub fn say<K: Sink>(out: &mut K, status: Status, text: &[u8]) -> Status
    ensures says { Says status text.now (K.state out.old) (K.state out.new) result }
    ensures sink_goes_on { SinkGoesOn (K.state out.old) (K.state out.new) }
{
    match put_all(out, text) {
        Ok(()) => status,
        Err(Failed) => Status::SinkFault,
    }
}

/// Writes that memory was refused.
pub fn say_no_memory<K: Sink>(out: &mut K) -> Status
    ensures says { Says statuses.NoMemory no_memory (K.state out.old) (K.state out.new) result }
    ensures sink_goes_on { SinkGoesOn (K.state out.old) (K.state out.new) }
{
    say(out, Status::NoMemory, b"no memory\n")
}

/// Writes the reply that stopped a command, or that memory was refused.
pub fn say_stop<K: Sink>(out: &mut K, stop: Stop) -> Status
    ensures says { SaysStop stop (K.state out.old) (K.state out.new) result }
    ensures sink_goes_on { SinkGoesOn (K.state out.old) (K.state out.new) }
{
    match stop {
        Stop::Reply(Reply { status, text }) => say(out, status, &text),
        Stop::OutOfMemory => say_no_memory(out),
    }
}

/// Writes what a command came to, and ends with its status, or with that of a sink that fails.
pub fn say_end<K: Sink>(out: &mut K, end: Result<Reply, Stop>) -> Status
    ensures says { SaysEnd end (K.state out.old) (K.state out.new) result }
    ensures sink_goes_on { SinkGoesOn (K.state out.old) (K.state out.new) }
{
    match end {
        Ok(Reply { status, text }) => say(out, status, &text),
        Err(stop) => say_stop(out, stop),
    }
}
