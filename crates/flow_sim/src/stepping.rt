//! One clock of the symbolic flow.

ghost use Rattle.std.specs.Prelude.{◌≡◌, ℕ, ◌+◌, ◌^◌, ◌<◌, IfSome};
ghost use Rattle.std.specs.Option.{option_copied};
ghost use Rattle.field_decl.specs.Decls.{declaration_of};
ghost use Rattle.flow_graph.specs.Graph.{graph_of};
ghost use Rattle.flow_graph.specs.Microwords.{FitsDeclaration};
ghost use Rattle.flow_graph.specs.Targets.{AreTargets};
ghost use Rattle.flow_graph.specs.Order.{order_of, values_of};
ghost use Rattle.bus_script.specs.ScriptFits.{AreBusesFor};
ghost use Rattle.flow_sim.specs.Flow.{IsStateOf, flow_step, flow_view, place_after, latch_after, strobes, shows};
ghost use Rattle.flow_sim.specs.Machine.{IsMachineFor, fi_of, readings_of, after, view_of};

use crate::answering::array_answer;
use crate::field_values::values_of;
use crate::flow_state::FlowState;
use crate::instruction::{instr_at, latch_after, place_after, shows, strobes};
use crate::machine::Machine;
use crate::order_of::order_of;
use bus_script::{Buses, ClockView};
use field_decl::Decl;
use flow_graph::{Instr, Program};

// One clock of the machine under an instruction, or where there is none the free cell's: the next place, and what is
// seen.
#[tactic(auto, unfolding(crate::specs::Machine::after, crate::specs::Machine::view_of))]
fn clock_of(
    decl: &Decl,
    instr: Option<&Instr>,
    machine: &mut Machine,
    buses: &Buses,
) -> (Option<u16>, ClockView)
    requires instr { IfSome (option_copied instr) (FitsDeclaration (declaration_of decl.now)) }
    requires machine { IsMachineFor decl.now.slices machine.old }
    requires early { machine.old.clock + 1 < 2 ^ 32 }
    requires buses { AreBusesFor decl.now.slices buses.now }
    ensures machine { machine.new ≡ after decl.now.slices (order_of (declaration_of decl.now) (option_copied instr.entry)) buses.now (latch_after (option_copied instr.entry) machine.old.pr buses.now.sx) machine.old }
    ensures place { result.0 ≡ place_after (option_copied instr.entry) (readings_of machine.old (fi_of decl.now.slices (order_of (declaration_of decl.now) (option_copied instr.entry)) buses.now machine.old) buses.now.px) }
    ensures in_range { (count : ℕ) → IfSome (option_copied instr.entry) (λ x. AreTargets count x.targets) → IfSome result.0 (λ label. label < count) }
    ensures view { result.1 ≡ view_of decl.now.slices (order_of (declaration_of decl.now) (option_copied instr.entry)) buses.now (strobes (option_copied instr.entry)) (shows (option_copied instr.entry) machine.old.pr) (values_of (declaration_of decl.now) (option_copied instr.entry)) machine.old }
    ensures fits { IsMachineFor decl.now.slices machine.new }
{
    let order = order_of(decl, instr);
    let answer = array_answer(decl.slices, machine, &order, buses);
    let pr = machine.pr;
    let view = machine.view(
        strobes(instr),
        shows(instr, pr),
        values_of(decl, instr),
        answer.links,
    );
    let place = place_after(instr, machine.tests(answer.fi, buses.px));
    machine.end_clock(&order, &answer, latch_after(instr, pr, buses.sx));
    (place, view)
}

/// One clock of the symbolic flow, and what is seen of it.
#[tactic(auto, unfolding(crate::specs::Flow::flow_step, crate::specs::Flow::flow_view))]
pub fn flow_step(program: &Program, state: &mut FlowState, buses: &Buses) -> ClockView
    requires state { IsStateOf (graph_of program.now) state.old }
    requires early { state.old.machine.clock + 1 < 2 ^ 32 }
    requires buses { AreBusesFor (graph_of program.now).decl.slices buses.now }
    ensures state { state.new ≡ flow_step (graph_of program.now) state.old buses.now }
    ensures view { result ≡ flow_view (graph_of program.now) state.old buses.now }
    ensures fits { IsStateOf (graph_of program.now) state.new }
{
    let instr = instr_at(program, state.place);
    let (place, view) = clock_of(program.decl(), instr, &mut state.machine, buses);
    state.place = place;
    view
}
