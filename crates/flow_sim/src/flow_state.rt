//! Where the symbolic flow stands between two clocks.

ghost use Rattle.std.specs.Prelude.{◌≡◌, IfOk};
ghost use Rattle.flow_graph.specs.Graph.{graph_of};
ghost use Rattle.bus_script.specs.ScriptFits.{IsScriptFor};
ghost use Rattle.flow_sim.specs.Flow.{IsStateOf, flow_start};

use crate::machine::Machine;
use bus_script::Script;
use flow_graph::Program;
use io_base::OutOfMemory;
use std::alloc::Global;
use std::marker::Model;

/// The state of the symbolic flow: a place, and the machine.
#[derive(Drop)]
pub struct FlowState {
    /// A label, or none in the trap.
    pub(crate) place: Option<u16>,
    /// Registers, flags and memory.
    pub(crate) machine: Machine,
}

impl Model for FlowState {
    ghost use Rattle.flow_sim.specs.Flow.{FlowState};

    ghost Value = { FlowState };

    ghost view = { λ state. record { place = state.place; machine = state.machine } };
}

impl FlowState {
    /// The state of a program before the first clock: at its start label, with the memory that the script names, and
    /// all else 0. It fails only for want of memory.
    #[tactic(auto, unfolding(crate::specs::Flow::flow_start))]
    pub fn start(
        alloc: Global,
        program: &Program,
        script: &Script,
    ) -> Result<FlowState, OutOfMemory>
        requires script { IsScriptFor (graph_of program.now).decl.slices script.now }
        ensures start { IfOk result (λ state. state ≡ flow_start (graph_of program.now) script.now) }
        ensures fits { IfOk result (IsStateOf (graph_of program.now)) }
    {
        let machine = Machine::start(alloc, script)?;
        Ok(FlowState {
            place: Some(program.start()),
            machine,
        })
    }
}
