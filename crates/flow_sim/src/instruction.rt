//! Where an instruction leads, and what it does to the PR latch, the strobe and the PR outputs. None is the trap.

ghost use Rattle.std.specs.Prelude.{◌≡◌, ℕ, ◌<◌, length, slice_get, IfSome};
ghost use Rattle.std.specs.Option.{option_copied};
ghost use Rattle.flow_graph.specs.Graph.{graph_of};
ghost use Rattle.flow_graph.specs.Microwords.{FitsDeclaration};
ghost use Rattle.flow_graph.specs.Targets.{AreTargets};
ghost use Rattle.flow_graph.specs.Order.{instr_at};
ghost use Rattle.flow_sim.specs.Flow.{latch_after, strobes, shows, or_trap, place_after};

use crate::statement::{is_strobe, latch_by, outcome_of, shown_by};
use flow_graph::{Instr, Program};
use mcu_jumps::Tests;

/// The instruction at a place: a label, or none in the trap.
pub(crate) fn instr_at(program: &Program, place: Option<u16>) -> Option<&Instr>
    requires { IfSome place (λ label. label < length (graph_of program.now).instrs) }
    ensures instr { option_copied result ≡ instr_at (graph_of program.now) place }
    ensures microword { IfSome (option_copied result) (FitsDeclaration (graph_of program.now).decl) }
    ensures targets { IfSome (option_copied result) (λ instr. AreTargets (length (graph_of program.now).instrs) instr.targets) }
{
    match place {
        Some(label) => Some(program.instr(label)),
        None => None,
    }
}

/// The PR latch after an instruction.
pub(crate) fn latch_after(instr: Option<&Instr>, pr: u8, sx: u8) -> u8
    ensures { result ≡ latch_after (option_copied instr.entry) pr sx }
{
    match instr {
        Some(instr) => latch_by(instr.kind, pr, sx),
        None => pr,
    }
}

/// Whether an instruction gives the interrupt strobe.
pub(crate) fn strobes(instr: Option<&Instr>) -> bool
    ensures { result ≡ strobes (option_copied instr.entry) }
{
    match instr {
        Some(instr) => is_strobe(instr.kind),
        None => false,
    }
}

/// What an instruction shows on the PR outputs, where it enables them.
pub(crate) fn shows(instr: Option<&Instr>, pr: u8) -> Option<u8>
    ensures { result ≡ shows (option_copied instr.entry) pr }
{
    match instr {
        Some(instr) => shown_by(instr.kind, pr),
        None => None,
    }
}

/// The place after an instruction. The trap leads to the trap.
pub(crate) fn place_after(instr: Option<&Instr>, tests: Tests) -> Option<u16>
    ensures place { result ≡ place_after (option_copied instr.entry) tests }
    ensures in_range { (count : ℕ) → IfSome (option_copied instr.entry) (λ x. AreTargets count x.targets) → IfSome result (λ label. label < count) }
{
    match instr {
        Some(instr) => target(instr.targets.as_slice(), outcome_of(instr.kind, tests)),
        None => None,
    }
}

// The target of an outcome, or the trap where there is none.
fn target(targets: &[Option<u16>], outcome: u8) -> Option<u16>
    ensures target { result ≡ or_trap (slice_get targets.now outcome) }
    ensures in_range { (count : ℕ) → AreTargets count targets.now → IfSome result (λ label. label < count) }
{
    match targets.get(outcome as usize) {
        Some(target) => *target,
        None => None,
    }
}
