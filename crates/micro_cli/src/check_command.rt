//! The command `check SRC REF`: whether a file refutes that a source has a legal placement.
ghost use Rattle.std.specs.Prelude.{◌≡◌, ◌≤◌, length};
ghost use Rattle.io_base.specs.Shelf.{GoesOn, CountsNoChange};
ghost use Rattle.io_base.specs.Sink.{SinkGoesOn};
ghost use Rattle.flow_graph.specs.Graph.{graph_of};
ghost use Rattle.replies.specs.Ending.{Ends, ComesTo, OrNoMemory};
ghost use Rattle.micro_cli.specs.Checking.{RefutationReply, CheckReply};

use crate::checker_texts::{answer_status, answer_text};
use flow_graph::Program;
use io_base::{NAME_LIMIT, OutOfMemory, Shelf, Sink};
use refute_check::{CheckFault, check_ref};
use replies::{Reply, Status, Stop, load_source, refuse, say_end, tell_unread};
use std::alloc::Global;

// The reply to a program and what stands under the name of the refutation.
fn refutation_reply<S: Shelf>(
    alloc: Global,
    program: &Program,
    shelf: &mut S,
    name: &str,
) -> Result<Reply, Stop>
    requires { length name.now ≤ NAME_LIMIT }
    ensures reply { ComesTo (RefutationReply name.now (graph_of program.now) (S.state shelf.old) (S.state shelf.new)) result }
    ensures same { (S.state shelf.new).file ≡ (S.state shelf.old).file }
    ensures no_change { CountsNoChange (S.state shelf.old) (S.state shelf.new) }
    ensures goes_on { GoesOn (S.state shelf.old) (S.state shelf.new) }
{
    match check_ref(alloc, program, shelf, name) {
        Ok(answer) => match answer_text(alloc, answer) {
            Ok(text) => Ok(Reply {
                status: answer_status(answer),
                text,
            }),
            Err(OutOfMemory) => Err(Stop::OutOfMemory),
        },
        Err(CheckFault::Failed) => Err(tell_unread(alloc, name)),
        Err(CheckFault::NoFile) => Err(refuse(alloc, name, b"NoFile")),
        Err(CheckFault::TooLong) => Err(refuse(alloc, name, b"TooLong")),
        Err(CheckFault::OutOfMemory) => Err(Stop::OutOfMemory),
    }
}

// The reply to what stands under the names of the source and of the refutation.
fn check_reply<S: Shelf>(
    alloc: Global,
    shelf: &mut S,
    src: &str,
    refutation: &str,
) -> Result<Reply, Stop>
    requires src_short { length src.now ≤ NAME_LIMIT }
    requires refutation_short { length refutation.now ≤ NAME_LIMIT }
    ensures reply { ComesTo (CheckReply src.now refutation.now (S.state shelf.old) (S.state shelf.new)) result }
    ensures same { (S.state shelf.new).file ≡ (S.state shelf.old).file }
    ensures no_change { CountsNoChange (S.state shelf.old) (S.state shelf.new) }
    ensures goes_on { GoesOn (S.state shelf.old) (S.state shelf.new) }
{
    let program = load_source(alloc, shelf, src)?;
    let reply = refutation_reply(alloc, &program, shelf, refutation)?;
    Ok(reply)
}

/// Answers `check SRC REF`. No file changes.
pub fn check_command<S: Shelf, K: Sink>(
    alloc: Global,
    shelf: &mut S,
    out: &mut K,
    src: &str,
    refutation: &str,
) -> Status
    requires src_short { length src.now ≤ NAME_LIMIT }
    requires refutation_short { length refutation.now ≤ NAME_LIMIT }
    ensures ends { Ends (OrNoMemory (CheckReply src.now refutation.now (S.state shelf.old) (S.state shelf.new)))
        (K.state out.old) (K.state out.new) result }
    ensures same { (S.state shelf.new).file ≡ (S.state shelf.old).file }
    ensures no_change { CountsNoChange (S.state shelf.old) (S.state shelf.new) }
    ensures goes_on { GoesOn (S.state shelf.old) (S.state shelf.new) }
    ensures sink_goes_on { SinkGoesOn (K.state out.old) (K.state out.new) }
{
    let end = check_reply(alloc, shelf, src, refutation);
    say_end(out, end)
}

#[cfg(test)]
mod tests;
