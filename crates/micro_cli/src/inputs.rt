//! The first steps of a command that takes a source and a script.
ghost use Rattle.std.specs.Prelude.{◌≡◌, ◌≤◌, MatchResult, IfOk, length};
ghost use Rattle.io_base.specs.Shelf.{GoesOn, CountsNoChange};
ghost use Rattle.flow_graph.specs.Graph.{graph_of};
ghost use Rattle.bus_script.specs.ScriptFits.{IsScriptFor};
ghost use Rattle.replies.specs.Ending.{StopsBy};
ghost use Rattle.micro_cli.specs.Inputs.{HasInputs, InputsReply};

use bus_script::Script;
use flow_graph::Program;
use io_base::{NAME_LIMIT, Shelf};
use replies::{Stop, load_script, load_source};
use std::alloc::Global;

/// A program, and a script for its array.
#[derive(Drop)]
pub struct Inputs {
    /// What the source means.
    pub program: Program,
    /// What the script says, for the program's array.
    pub script: Script,
}

/// Loads a source and a script, or stops with the reply that refuses the first that is not had.
pub fn load_inputs<S: Shelf>(
    alloc: Global,
    shelf: &mut S,
    src: &str,
    script: &str,
) -> Result<Inputs, Stop>
    requires src_short { length src.now ≤ NAME_LIMIT }
    requires script_short { length script.now ≤ NAME_LIMIT }
    ensures step { MatchResult result
        (λ inputs. HasInputs src.now script.now (S.state shelf.old) (S.state shelf.new) (graph_of inputs.program) inputs.script)
        (StopsBy (InputsReply src.now script.now (S.state shelf.old) (S.state shelf.new))) }
    ensures fits { IfOk result (λ inputs. IsScriptFor (graph_of inputs.program).decl.slices inputs.script) }
    ensures same { (S.state shelf.new).file ≡ (S.state shelf.old).file }
    ensures no_change { CountsNoChange (S.state shelf.old) (S.state shelf.new) }
    ensures goes_on { GoesOn (S.state shelf.old) (S.state shelf.new) }
{
    let program = load_source(alloc, shelf, src)?;
    match load_script(alloc, shelf, script, program.decl().slices) {
        Ok(script) => Ok(Inputs { program, script }),
        Err(stop) => Err(stop),
    }
}
