//! The placement that truth values stand for.
ghost use Rattle.std.specs.Prelude.{◌≡◌, ◌<◌, ◌≤◌, ◌+◌, ◌^◌, true, length, IfOk};
ghost use Rattle.flow_graph.specs.Graph.{graph_of};
ghost use Rattle.place_model.specs.Legal.{IsLegal};
ghost use Rattle.clause_base.specs.TruthValues.{AllHold, truth_in};
ghost use Rattle.placement_clauses.specs.Number.{var_count_of};
ghost use Rattle.placement_clauses.specs.Shape.{one, any_of};
ghost use Rattle.placement_clauses.specs.Clauses.{clauses_of};
ghost use Rattle.placement_clauses.specs.Meaning.{HaveTrueCells};
ghost use Rattle.placement_clauses.specs.PinCells.{HavePinCells};

use crate::variable_numbers::{col_var, row_var};
use clause_base::Truths;
use flow_graph::{Pin, Program};
use io_base::OutOfMemory;
use mcu_jumps::Cell;
use place_model::Placement;
use std::alloc::Global;

/// The cell of each pin is one of the matrix, as the type of a cell says of each.
pub(crate) fn pin_cells(pins: &[Pin])
    ensures { HavePinCells pins.now }
{
    for pin in pins {
        // A proof learns here that this cell is one of the matrix.
        let _cell = (pin.cell.row(), pin.cell.col());
    }
}

// The first variable of a run that is true.
fn first_true(model: &[bool], count: u32, first: u32) -> u32
    requires above { 0 < first }
    requires room { first + count ≤ length model.now + 1 }
    requires few { first + count < 2 ^ 31 }
    requires some { AllHold (truth_in model.now) (one (any_of count first)) }
    ensures within { result < count }
    ensures holds { truth_in model.now (first + result) ≡ true }
{
    for k in 0..count {
        if model[(first + k - 1) as usize] {
            return k;
        }
    }
    unreachable!()
}

// The cell of each label.
fn read_cells(alloc: Global, program: &Program, model: &[bool]) -> Result<Vec<Cell>, OutOfMemory>
    requires count { length model.now ≡ var_count_of (length (graph_of program.now).instrs) }
    requires holds { AllHold (truth_in model.now) (clauses_of (graph_of program.now)) }
    ensures legal { IfOk result (λ cells. IsLegal (graph_of program.now) cells.items) }
    ensures decodes { IfOk result (λ cells. HaveTrueCells (truth_in model.now) cells.items) }
{
    pin_cells(program.pins().as_slice());
    let labels = u32::from(program.len());
    let mut cells = Vec::new(alloc);
    for label in 0..labels {
        let row = first_true(model, 32, row_var(label, 0));
        let col = first_true(model, 16, col_var(label, 0));
        cells.push(Cell::at(row as u8, col as u8))?;
    }
    Ok(cells)
}

/// The legal placement that truth values stand for which make every clause of the program true: each label
/// has the row and the column whose variables are true. It fails only for want of memory.
pub fn place_of(alloc: Global, program: &Program, model: &Truths) -> Result<Placement, OutOfMemory>
    requires count { length model.now ≡ var_count_of (length (graph_of program.now).instrs) }
    requires holds { AllHold (truth_in model.now) (clauses_of (graph_of program.now)) }
    ensures legal { IfOk result (IsLegal (graph_of program.now)) }
    ensures decodes { IfOk result (HaveTrueCells (truth_in model.now)) }
{
    let cells = read_cells(alloc, program, model.as_slice())?;
    Ok(Placement::new(cells))
}
