//! The command `map SRC`: the map of a source at the cells of its pins.
ghost use Rattle.std.specs.Prelude.{◌≡◌, ◌≤◌, length, codes};
ghost use Rattle.io_base.specs.Shelf.{GoesOn, CountsNoChange};
ghost use Rattle.io_base.specs.Sink.{SinkGoesOn};
ghost use Rattle.flow_graph.specs.Graph.{graph_of};
ghost use Rattle.replies.specs.Ending.{Ends, ComesTo, OrNoMemory};
ghost use Rattle.micro_cli.specs.Mapping.{MapReply, ProgramReply, map_kind_name};

use flow_graph::Program;
use io_base::{NAME_LIMIT, OutOfMemory, Shelf, Sink};
use place_model::{MapFault, MapKind, map_text, pinned};
use replies::{Reply, Status, Stop, load_source, refuse_line, say_end};
use std::alloc::Global;

// The name of what is wrong with the pinned cells.
fn map_kind_name(kind: MapKind) -> &'static [u8]
    ensures { result.now ≡ map_kind_name kind }
{
    match kind {
        MapKind::Unpinned => b"Unpinned",
        MapKind::SameCell => b"SameCell",
        MapKind::RowBound => b"RowBound",
        MapKind::StartCell => b"StartCell",
        MapKind::NoJump => b"NoJump",
    }
}

// The reply to a program.
fn program_reply(alloc: Global, src: &str, program: &Program) -> Result<Reply, Stop>
    ensures { ComesTo (ProgramReply src.now (graph_of program.now)) result }
{
    match pinned(alloc, program) {
        Ok(placement) => match map_text(alloc, program, &placement) {
            Ok(text) => Ok(Reply {
                status: Status::Done,
                text,
            }),
            Err(OutOfMemory) => Err(Stop::OutOfMemory),
        },
        Err(MapFault::At { line, kind }) => Err(refuse_line(alloc, src, line, map_kind_name(kind))),
        Err(MapFault::OutOfMemory) => Err(Stop::OutOfMemory),
    }
}

// The reply to what stands under the name of the source.
fn map_reply<S: Shelf>(alloc: Global, shelf: &mut S, src: &str) -> Result<Reply, Stop>
    requires { length src.now ≤ NAME_LIMIT }
    ensures reply { ComesTo (MapReply src.now (S.state shelf.old) (S.state shelf.new)) result }
    ensures same { (S.state shelf.new).file ≡ (S.state shelf.old).file }
    ensures no_change { CountsNoChange (S.state shelf.old) (S.state shelf.new) }
    ensures goes_on { GoesOn (S.state shelf.old) (S.state shelf.new) }
{
    let program = load_source(alloc, shelf, src)?;
    let reply = program_reply(alloc, src, &program)?;
    Ok(reply)
}

/// Answers `map SRC`. No file changes.
pub fn map_command<S: Shelf, K: Sink>(
    alloc: Global,
    shelf: &mut S,
    out: &mut K,
    src: &str,
) -> Status
    requires { length src.now ≤ NAME_LIMIT }
    ensures ends { Ends (OrNoMemory (MapReply src.now (S.state shelf.old) (S.state shelf.new)))
        (K.state out.old) (K.state out.new) result }
    ensures same { (S.state shelf.new).file ≡ (S.state shelf.old).file }
    ensures no_change { CountsNoChange (S.state shelf.old) (S.state shelf.new) }
    ensures goes_on { GoesOn (S.state shelf.old) (S.state shelf.new) }
    ensures sink_goes_on { SinkGoesOn (K.state out.old) (K.state out.new) }
{
    let end = map_reply(alloc, shelf, src);
    say_end(out, end)
}
