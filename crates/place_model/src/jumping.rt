//! Which jump an instruction becomes under a placement.
ghost use Rattle.std.specs.Prelude.{◌≡◌, ◌<◌, ◌≤◌, ◌↔◌, length, IfNone, IfSome, IsTrue};
ghost use Rattle.mcu_jumps.specs.JumpWord.{JumpWord, ac_of};
ghost use Rattle.mcu_jumps.specs.NextAddress.{outcome_count};
ghost use Rattle.mcu_jumps.specs.Landing.{outcomes_of, Serves};
ghost use Rattle.flow_graph.specs.Valid.{IsInstr};
ghost use Rattle.flow_graph.specs.Graph.{graph_of};
ghost use Rattle.place_model.specs.Cells.{LandsTrapsFree, cells_of, cell_of};
ghost use Rattle.place_model.specs.Legal.{HasNoJump, IsJumpOf, IsJumpAt, IsLegal};

use crate::Placement;
use flow_graph::{Instr, Program};
use mcu_jumps::{Cell, Jump, landing, one_jump_to_a_label, reach};

// The cell of a target, none for the trap.
fn target_cell(placement: &Placement, target: Option<u16>) -> Option<Cell>
    ensures { result ≡ cell_of placement.now target }
{
    match target {
        Some(label) => placement.as_slice().get(label as usize).copied(),
        None => None,
    }
}

// The jump of least AC value that lands on the cells of all targets with a label.
fn jump_to_labels(placement: &Placement, instr: &Instr, from: Cell) -> Option<Jump>
    requires { length instr.now.targets ≡ outcomes_of instr.now.kind }
    ensures serves { IfSome result (Serves from instr.now.kind (cells_of placement.now instr.now.targets)) }
    ensures least { IfSome result (λ jump. (other : JumpWord) → Serves from instr.now.kind (cells_of placement.now instr.now.targets) other → ac_of jump ≤ ac_of other) }
    ensures none { IfNone result ((other : JumpWord) → Serves from instr.now.kind (cells_of placement.now instr.now.targets) other → ⊥) }
{
    let targets = instr.targets.as_slice();
    let mut cells: [Option<Cell>; 16] = [None; 16];
    for outcome in 0..targets.len() {
        cells[outcome] = target_cell(placement, targets[outcome]);
    }
    reach(from, instr.kind, &cells[..targets.len()])
}

// Whether each outcome that leads to the trap lands on a cell that no label has.
fn lands_traps_free(placement: &Placement, targets: &[Option<u16>], from: Cell, jump: Jump) -> bool
    requires outcomes { length targets.now ≤ outcome_count jump.code }
    requires labels { length placement.now ≤ 512 }
    ensures { IsTrue result ↔ LandsTrapsFree placement.now targets.now from jump }
{
    let count = placement.as_slice().len() as u16;
    for (outcome, target) in targets.iter().enumerate() {
        if target.is_none() && placement.is_taken_below(count, landing(from, jump, outcome as u8)) {
            return false;
        }
    }
    true
}

/// The jump of least AC value that an instruction may become at a cell, or none. Where a statement
/// has more than one outcome, the cell of its first label leaves one jump at most, so the traps need
/// only be tested for the jump that reaches the labels.
pub(crate) fn least_jump(placement: &Placement, instr: &Instr, from: Cell) -> Option<Jump>
    requires instr { IsInstr (length placement.now) instr.now }
    requires labels { length placement.now ≤ 512 }
    ensures some { IfSome result (IsJumpOf placement.now instr.now from) }
    ensures none { IfNone result (HasNoJump placement.now instr.now from) }
{
    one_jump_to_a_label();
    match jump_to_labels(placement, instr, from) {
        Some(jump) => {
            if lands_traps_free(placement, instr.targets.as_slice(), from, jump) {
                Some(jump)
            } else {
                None
            }
        }
        None => None,
    }
}

/// The jump that the instruction at a label becomes in a legal placement: the one of least AC value.
pub fn jump_of(program: &Program, placement: &Placement, label: u16) -> Jump
    requires legal { IsLegal (graph_of program.now) placement.now }
    requires label { label < length (graph_of program.now).instrs }
    ensures { IsJumpAt (graph_of program.now) placement.now label result }
{
    match least_jump(placement, program.instr(label), placement.cell(label)) {
        Some(jump) => jump,
        None => unreachable!(),
    }
}
