//! The command `make SRC SCRIPT OUT clocks=N conflicts=B`: a placement is taken from the pins or searched, and what
//! comes of it is saved.
ghost use Rattle.std.specs.Prelude.{◌≡◌, ◌≤◌, ◌<◌, ◌^◌, MatchResult, IfOk, length};
ghost use Rattle.io_base.specs.Shelf.{GoesOn, CountsNoChange};
ghost use Rattle.io_base.specs.Sink.{SinkGoesOn};
ghost use Rattle.flow_graph.specs.Graph.{graph_of};
ghost use Rattle.micro_cli.specs.Keeping.{KeepsAllButAnswers};
ghost use Rattle.replies.specs.Ending.{Ends, StopsBy};
ghost use Rattle.micro_cli.specs.Inputs.{InputsReply};
ghost use Rattle.replies.specs.ScriptStep.{ScriptReply};
ghost use Rattle.micro_cli.specs.Making.{MakeAnswer, ReadsScript, StartsFrom};

use crate::command_words::CONFLICT_LIMIT;
use crate::searches::place_and_save;
use bench_answers::PlacedRun;
use flow_graph::Program;
use io_base::{GIVEN_NAME_LIMIT, NAME_LIMIT, Shelf, Sink};
use replies::{SCRIPT_LIMIT, Status, Stop, load_file, load_source, say_stop, script_from};
use std::alloc::Global;

/// A program, and the bytes of a script for its array.
#[derive(Drop)]
struct MakeInputs {
    program: Program,
    script: Vec<u8>,
}

// Loads a script for an array of so many slices and keeps its bytes, or stops with the reply that refuses it.
fn load_script_bytes<S: Shelf>(
    alloc: Global,
    shelf: &mut S,
    name: &str,
    slices: u8,
) -> Result<Vec<u8>, Stop>
    requires short { length name.now ≤ NAME_LIMIT }
    requires some { 1 ≤ slices }
    requires most { slices ≤ 16 }
    ensures step { MatchResult result
        (λ bytes. ReadsScript name.now slices (S.state shelf.old) (S.state shelf.new) bytes.items)
        (StopsBy (ScriptReply name.now slices (S.state shelf.old) (S.state shelf.new))) }
    ensures small { IfOk result (λ bytes. length bytes.items < 2 ^ 32) }
    ensures same { (S.state shelf.new).file ≡ (S.state shelf.old).file }
    ensures no_change { CountsNoChange (S.state shelf.old) (S.state shelf.new) }
    ensures goes_on { GoesOn (S.state shelf.old) (S.state shelf.new) }
{
    let bytes = load_file(alloc, shelf, name, SCRIPT_LIMIT)?;
    match script_from(alloc, name, &bytes, slices) {
        Ok(_) => Ok(bytes),
        Err(stop) => Err(stop),
    }
}

// Loads a source and a script, or stops with the reply that refuses the first that is not had.
fn load_make_inputs<S: Shelf>(
    alloc: Global,
    shelf: &mut S,
    src: &str,
    script: &str,
) -> Result<MakeInputs, Stop>
    requires src_short { length src.now ≤ NAME_LIMIT }
    requires script_short { length script.now ≤ NAME_LIMIT }
    ensures step { MatchResult result
        (λ inputs. StartsFrom src.now script.now (S.state shelf.old) (S.state shelf.new) (graph_of inputs.program) inputs.script.items)
        (StopsBy (InputsReply src.now script.now (S.state shelf.old) (S.state shelf.new))) }
    ensures small { IfOk result (λ inputs. length inputs.script.items < 2 ^ 32) }
    ensures same { (S.state shelf.new).file ≡ (S.state shelf.old).file }
    ensures no_change { CountsNoChange (S.state shelf.old) (S.state shelf.new) }
    ensures goes_on { GoesOn (S.state shelf.old) (S.state shelf.new) }
{
    let program = load_source(alloc, shelf, src)?;
    match load_script_bytes(alloc, shelf, script, program.decl().slices) {
        Ok(script) => Ok(MakeInputs { program, script }),
        Err(stop) => Err(stop),
    }
}

/// Answers `make SRC SCRIPT OUT clocks=N conflicts=B`. Only files change whose names the answers of `make` have.
pub fn make_command<S: Shelf, K: Sink>(
    alloc: Global,
    shelf: &mut S,
    out: &mut K,
    src: &str,
    asked: PlacedRun<'_>,
    conflicts: u32,
) -> Status
    requires src_short { length src.now ≤ NAME_LIMIT }
    requires script_short { length asked.script.now ≤ NAME_LIMIT }
    requires out_short { length asked.out.now ≤ GIVEN_NAME_LIMIT }
    requires few { conflicts ≤ CONFLICT_LIMIT }
    ensures ends { Ends (MakeAnswer src.now asked.entry.script.now asked.entry.out.now asked.entry.clocks conflicts (S.state shelf.old) (S.state shelf.new))
        (K.state out.old) (K.state out.new) result }
    ensures others { KeepsAllButAnswers asked.entry.out.now (S.state shelf.old) (S.state shelf.new) }
    ensures goes_on { GoesOn (S.state shelf.old) (S.state shelf.new) }
    ensures sink_goes_on { SinkGoesOn (K.state out.old) (K.state out.new) }
{
    match load_make_inputs(alloc, shelf, src, asked.script) {
        Ok(inputs) => place_and_save(
            alloc,
            shelf,
            out,
            asked,
            &inputs.program,
            &inputs.script,
            conflicts,
        ),
        Err(stop) => say_stop(out, stop),
    }
}
