//! The step that reads a source.
ghost use Rattle.std.specs.Prelude.{◌≡◌, ◌≤◌, MatchResult, length};
ghost use Rattle.io_base.specs.Shelf.{GoesOn, CountsNoChange};
ghost use Rattle.flow_graph.specs.Graph.{graph_of};
ghost use Rattle.replies.specs.Ending.{StopsBy};
ghost use Rattle.replies.specs.SourceStep.{HasSource, SourceReply};

use crate::file_step::load_file;
use crate::kind_texts::refuse_asm;
use crate::reply::Stop;
use flow_graph::Program;
use io_base::{NAME_LIMIT, Shelf};
use micro_asm::{AsmFault, assemble};
use std::alloc::Global;

/// The most bytes of a source: 1 MiB.
pub const SOURCE_LIMIT: u64 = 1_048_576;

/// Loads and assembles a source of at most `SOURCE_LIMIT` bytes, or stops with the reply that refuses it.
pub fn load_source<S: Shelf>(alloc: Global, shelf: &mut S, src: &str) -> Result<Program, Stop>
    requires { length src.now ≤ NAME_LIMIT }
    ensures step { MatchResult result
        (λ program. HasSource src.now (S.state shelf.old) (S.state shelf.new) (graph_of program))
        (StopsBy (SourceReply src.now (S.state shelf.old) (S.state shelf.new))) }
    ensures same { (S.state shelf.new).file ≡ (S.state shelf.old).file }
    ensures no_change { CountsNoChange (S.state shelf.old) (S.state shelf.new) }
    ensures goes_on { GoesOn (S.state shelf.old) (S.state shelf.new) }
{
    match load_file(alloc, shelf, src, SOURCE_LIMIT) {
        Ok(bytes) => match assemble(alloc, &bytes) {
            Ok(program) => Ok(program),
            Err(AsmFault::At { line, kind }) => Err(refuse_asm(alloc, src, line, kind)),
            Err(AsmFault::OutOfMemory) => Err(Stop::OutOfMemory),
        },
        Err(stop) => Err(stop),
    }
}
