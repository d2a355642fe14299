//! The command `flow SRC SCRIPT clocks=N`: the trace of the symbolic flow of a source.
ghost use Rattle.std.specs.Prelude.{◌≡◌, ◌≤◌, length};
ghost use Rattle.io_base.specs.Shelf.{GoesOn, CountsNoChange};
ghost use Rattle.io_base.specs.Sink.{SinkGoesOn};
ghost use Rattle.flow_graph.specs.Graph.{graph_of};
ghost use Rattle.bus_script.specs.ScriptFits.{IsScriptFor};
ghost use Rattle.replies.specs.Ending.{Ends, OrNoMemory};
ghost use Rattle.micro_cli.specs.Flowing.{FlowReply, IsFlow};

use crate::inputs::load_inputs;
use bus_script::Script;
use flow_graph::Program;
use flow_sim::{RunFault, flow_run};
use io_base::{NAME_LIMIT, Shelf, Sink};
use replies::{Status, say_no_memory, say_stop};
use std::alloc::Global;

// Writes the trace of a program's flow.
fn write_flow<K: Sink>(
    alloc: Global,
    program: &Program,
    script: &Script,
    clocks: u32,
    out: &mut K,
) -> Status
    requires { IsScriptFor (graph_of program.now).decl.slices script.now }
    ensures ends { Ends (OrNoMemory (IsFlow (graph_of program.now) script.now clocks)) (K.state out.old) (K.state out.new) result }
    ensures sink_goes_on { SinkGoesOn (K.state out.old) (K.state out.new) }
{
    match flow_run(alloc, program, script, clocks, out) {
        Ok(()) => Status::Done,
        Err(RunFault::Failed) => Status::SinkFault,
        Err(RunFault::OutOfMemory) => say_no_memory(out),
        // Each instruction of a program has a mask that its function takes.
        Err(RunFault::ShiftMask(_)) => unreachable!(),
    }
}

/// Answers `flow SRC SCRIPT clocks=N`. No file changes.
pub fn flow_command<S: Shelf, K: Sink>(
    alloc: Global,
    shelf: &mut S,
    out: &mut K,
    src: &str,
    script: &str,
    clocks: u32,
) -> Status
    requires src_short { length src.now ≤ NAME_LIMIT }
    requires script_short { length script.now ≤ NAME_LIMIT }
    ensures ends { Ends (OrNoMemory (FlowReply src.now script.now clocks (S.state shelf.old) (S.state shelf.new)))
        (K.state out.old) (K.state out.new) result }
    ensures same { (S.state shelf.new).file ≡ (S.state shelf.old).file }
    ensures no_change { CountsNoChange (S.state shelf.old) (S.state shelf.new) }
    ensures goes_on { GoesOn (S.state shelf.old) (S.state shelf.new) }
    ensures sink_goes_on { SinkGoesOn (K.state out.old) (K.state out.new) }
{
    match load_inputs(alloc, shelf, src, script) {
        Ok(inputs) => write_flow(alloc, &inputs.program, &inputs.script, clocks, out),
        Err(stop) => say_stop(out, stop),
    }
}
