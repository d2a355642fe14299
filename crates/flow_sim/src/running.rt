//! The trace of a program's symbolic flow, written line by line.

ghost use Rattle.std.specs.Prelude.{◌≡◌, ◌+◌, ◌^◌, ◌<◌, ◌≤◌, length, IfErr, IfSome, OnOk, OnErr};
ghost use Rattle.io_base.specs.Causes.{Rose};
ghost use Rattle.io_base.specs.Sink.{SinkGoesOn, Adds, AddsPrefix};
ghost use Rattle.flow_graph.specs.Graph.{graph_of};
ghost use Rattle.bus_script.specs.ScriptFits.{IsScriptFor};
ghost use Rattle.flow_sim.specs.Flow.{IsStateOf, buses_for, flow_step, flow_start};
ghost use Rattle.flow_sim.specs.Runs.{IsCause, NoCell};
ghost use Rattle.flow_sim.specs.TraceText.{place_name, clock_line, flow_text};

use crate::flow_state::FlowState;
use crate::run_fault::RunFault;
use crate::stepping::flow_step;
use arrayvec::ArrayVec;
use bus_script::{Script, at, view_line};
use flow_graph::Program;
use io_base::{Failed, OutOfMemory, Sink, put_all};
use std::alloc::Global;

// The name of a label, or `-` for the trap.
fn place_name(program: &Program, place: Option<u16>) -> &[u8]
    requires { IfSome place (λ label. label < length (graph_of program.now).instrs) }
    ensures name { result.now ≡ place_name (graph_of program.now) place }
    ensures len { length result.now ≤ 32 }
{
    match place {
        Some(label) => program.instr(label).name.as_slice(),
        None => b"-",
    }
}

// Does one clock, and makes its line.
#[tactic(auto, unfolding(crate::specs::TraceText::clock_line, crate::specs::Flow::flow_view, crate::specs::Machine::view_of))]
fn next_trace_line(
    program: &Program,
    script: &Script,
    state: &mut FlowState,
    line: &mut ArrayVec<u8, 2048>,
)
    requires script { IsScriptFor (graph_of program.now).decl.slices script.now }
    requires state { IsStateOf (graph_of program.now) state.old }
    requires early { state.old.machine.clock + 1 < 2 ^ 32 }
    ensures line { line.new.items ≡ clock_line (graph_of program.now) script.now state.old }
    ensures state { state.new ≡ flow_step (graph_of program.now) state.old (buses_for script.now state.old) }
    ensures fits { IsStateOf (graph_of program.now) state.new }
{
    let place = state.place;
    let buses = at(script, state.machine.clock);
    let view = flow_step(program, state, &buses);
    view_line(
        place_name(program, place),
        &view,
        program.decl().slices,
        line,
    );
}

// Writes the lines of the first so many clocks.
fn write_clocks<K: Sink>(
    program: &Program,
    script: &Script,
    clocks: u32,
    state: &mut FlowState,
    sink: &mut K,
) -> Result<(), Failed>
    requires script { IsScriptFor (graph_of program.now).decl.slices script.now }
    requires start { state.old ≡ flow_start (graph_of program.now) script.now }
    requires fits { IsStateOf (graph_of program.now) state.old }
    ensures ok { OnOk result (Adds (K.state sink.old) (K.state sink.new) (flow_text (graph_of program.now) script.now clocks)) }
    ensures err { OnErr result (AddsPrefix (K.state sink.old) (K.state sink.new) (flow_text (graph_of program.now) script.now clocks)) }
    ensures goes_on { SinkGoesOn (K.state sink.old) (K.state sink.new) }
    ensures cause { OnErr result (Rose (K.state sink.old).faults (K.state sink.new).faults) }
{
    let mut line = ArrayVec::new();
    for _clock in 0..clocks {
        next_trace_line(program, script, state, &mut line);
        match put_all(sink, line.as_slice()) {
            Ok(()) => {}
            Err(Failed) => return Err(Failed),
        }
    }
    Ok(())
}

/// Writes the trace of so many clocks of a program from its start: a line for each clock, with the name of its label,
/// or `-` in the trap.
///
/// After `Failed` a prefix of the text was written. Memory is taken before the first byte is written.
pub fn flow_run<K: Sink>(
    alloc: Global,
    program: &Program,
    script: &Script,
    clocks: u32,
    sink: &mut K,
) -> Result<(), RunFault>
    requires script { IsScriptFor (graph_of program.now).decl.slices script.now }
    ensures ok { OnOk result (Adds (K.state sink.old) (K.state sink.new) (flow_text (graph_of program.now) script.now clocks)) }
    ensures err { OnErr result (AddsPrefix (K.state sink.old) (K.state sink.new) (flow_text (graph_of program.now) script.now clocks)) }
    ensures goes_on { SinkGoesOn (K.state sink.old) (K.state sink.new) }
    ensures cause { IfErr result (IsCause NoCell (K.state sink.old) (K.state sink.new)) }
{
    let mut state = match FlowState::start(alloc, program, script) {
        Ok(state) => state,
        Err(OutOfMemory) => return Err(RunFault::OutOfMemory),
    };
    match write_clocks(program, script, clocks, &mut state, sink) {
        Ok(()) => Ok(()),
        Err(Failed) => Err(RunFault::Failed),
    }
}
