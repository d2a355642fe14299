//! A placement: a cell for each label.
ghost use Rattle.std.specs.Prelude.{◌≡◌, ◌<◌, ◌≤◌, length, Some, slice_get, MatchBool};
ghost use Rattle.place_model.specs.Cells.{IsTakenBelow, IsFreeBelow};

use mcu_jumps::Cell;
use std::marker::Model;

/// A cell for each label, in the labels' order.
#[derive(Drop)]
pub struct Placement {
    cells: Vec<Cell>,
}

impl Model for Placement {
    ghost use Rattle.std.specs.Prelude.{List};
    ghost use Rattle.mcu_jumps.specs.Position.{Position};

    ghost Value = { List Position };

    ghost view = { λ placement. placement.cells.items };
}

impl Placement {
    /// The placement of these cells, the first of which is that of label 0.
    pub fn new(cells: Vec<Cell>) -> Placement
        ensures { result ≡ cells.items }
    {
        Placement { cells }
    }

    /// The cells in the labels' order.
    pub fn as_slice(&self) -> &[Cell]
        ensures { result.now ≡ self.now }
    {
        &self.cells
    }

    /// The cell of a label.
    pub fn cell(&self, label: u16) -> Cell
        requires { label < length self.now }
        ensures { slice_get self.now label ≡ Some result }
    {
        self.cells[label as usize]
    }

    /// Whether one of the first `count` labels has this cell.
    pub(crate) fn is_taken_below(&self, count: u16, cell: Cell) -> bool
        requires { count ≤ length self.now }
        ensures { MatchBool result (IsTakenBelow self.now count cell) (IsFreeBelow self.now count cell) }
    {
        for label in 0..count {
            if self.cell(label) == cell {
                return true;
            }
        }
        false
    }
}
