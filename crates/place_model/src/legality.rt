//! When a placement is legal.
ghost use Rattle.std.specs.Prelude.{◌≡◌, ◌<◌, ◌↔◌, length, IfNone, IfSome, IsTrue};
ghost use Rattle.flow_graph.specs.Graph.{graph_of};
ghost use Rattle.place_model.specs.Legal.{IsLegal, KeepsPins};
ghost use Rattle.place_model.specs.Faults.{IsFaultAt, IsFirstFault, IsFaultless, IsFaultlessBelow};

use crate::jumping::least_jump;
use crate::{MapKind, Placement};
use flow_graph::Program;

// Whether each pinned label has its cell.
fn keeps_pins(program: &Program, placement: &Placement) -> bool
    requires { length placement.now ≡ length (graph_of program.now).instrs }
    ensures { IsTrue result ↔ KeepsPins (graph_of program.now).pins placement.now }
{
    for pin in program.pins().as_slice() {
        if placement.cell(pin.label) != pin.cell {
            return false;
        }
    }
    true
}

// The first thing that is wrong at a label.
fn fault_at(program: &Program, placement: &Placement, label: u16) -> Option<MapKind>
    requires cells { length placement.now ≡ length (graph_of program.now).instrs }
    requires label { label < length placement.now }
    ensures some { IfSome result (IsFaultAt (graph_of program.now) placement.now label) }
    ensures none { IfNone result (IsFaultless (graph_of program.now) placement.now label) }
{
    let instr = program.instr(label);
    let cell = placement.cell(label);
    let (row, col) = (cell.row(), cell.col());
    if placement.is_taken_below(label, cell) {
        Some(MapKind::SameCell)
    } else if row >= program.rows() {
        Some(MapKind::RowBound)
    } else if label == program.start() && (row != 0 || col != 0) {
        Some(MapKind::StartCell)
    } else if least_jump(placement, instr, cell).is_none() {
        Some(MapKind::NoJump)
    } else {
        None
    }
}

/// The line of the first instruction where something is wrong, and the first thing wrong there.
pub(crate) fn first_fault(program: &Program, placement: &Placement) -> Option<(u32, MapKind)>
    requires { length placement.now ≡ length (graph_of program.now).instrs }
    ensures some { IfSome result (λ fault. IsFirstFault (graph_of program.now) placement.now fault.0 fault.1) }
    ensures none { IfNone result (IsFaultlessBelow (graph_of program.now) placement.now (length placement.now)) }
{
    for label in 0..program.len() {
        if let Some(kind) = fault_at(program, placement, label) {
            return Some((program.instr(label).line, kind));
        }
    }
    None
}

/// Whether a placement is legal: the cells differ, pinned labels have their cells, the start is at
/// row 0, column 0, the rows are below the bound, and each instruction has a jump that lands as its
/// targets ask: on the cell of each label, and for the trap on a cell that no label has. What is legal
/// is this project's own choice, over the 3001's jump table.
pub fn legal(program: &Program, placement: &Placement) -> bool
    requires { length placement.now ≡ length (graph_of program.now).instrs }
    ensures { IsTrue result ↔ IsLegal (graph_of program.now) placement.now }
{
    match first_fault(program, placement) {
        Some(_) => false,
        None => keeps_pins(program, placement),
    }
}
