//! The placement that the pins of a source give.
ghost use Rattle.std.specs.Prelude.{IfErr, IfNone, IfOk, IfSome};
ghost use Rattle.flow_graph.specs.Graph.{graph_of};
ghost use Rattle.place_model.specs.Legal.{IsLegal};
ghost use Rattle.place_model.specs.Pinned.{IsPinnedTo, IsUnpinned, ArePinnedCells, IsRefusal};

use crate::legality::first_fault;
use crate::{MapFault, MapKind, Placement};
use flow_graph::{Pin, Program};
use mcu_jumps::Cell;
use std::alloc::Global;

// The cell that a label is pinned to.
fn pinned_cell(pins: &[Pin], label: u16) -> Option<Cell>
    ensures some { IfSome result (IsPinnedTo pins.now label) }
    ensures none { IfNone result (IsUnpinned pins.now label) }
{
    for pin in pins {
        if pin.label == label {
            return Some(pin.cell);
        }
    }
    None
}

// The cell of each label's pin, or the first instruction whose label has none.
fn pinned_cells(alloc: Global, program: &Program) -> Result<Placement, MapFault>
    ensures ok { IfOk result (ArePinnedCells (graph_of program.now)) }
    ensures err { IfErr result (IsRefusal (graph_of program.now)) }
{
    let mut cells = Vec::new(alloc);
    for label in 0..program.len() {
        match pinned_cell(program.pins().as_slice(), label) {
            Some(cell) => cells.push(cell).map_err(|_| MapFault::OutOfMemory)?,
            None => {
                return Err(MapFault::At {
                    line: program.instr(label).line,
                    kind: MapKind::Unpinned,
                });
            }
        }
    }
    Ok(Placement::new(cells))
}

/// The placement that gives each label the cell of its pin, where each label has one and that
/// placement is legal. Otherwise the first fault: a label with no pin anywhere comes before all else.
pub fn pinned(alloc: Global, program: &Program) -> Result<Placement, MapFault>
    ensures pinned { IfOk result (ArePinnedCells (graph_of program.now)) }
    ensures legal { IfOk result (IsLegal (graph_of program.now)) }
    ensures refused { IfErr result (IsRefusal (graph_of program.now)) }
{
    let placement = pinned_cells(alloc, program)?;
    match first_fault(program, &placement) {
        Some((line, kind)) => Err(MapFault::At { line, kind }),
        None => Ok(placement),
    }
}
