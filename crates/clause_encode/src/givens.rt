//! The third class: the cells of the pins and of the start label, and the row bound.
ghost use Rattle.std.specs.Prelude.{◌<◌, ◌≤◌, ◌-◌};
ghost use Rattle.placement_clauses.specs.Clauses.{at_clauses, bound_clauses};
ghost use Rattle.clause_encode.specs.Shapes.{IsAt};

use crate::clause_shape::ClauseShape;
use crate::variable_numbers::{col_var, negative, positive, row_var};

/// Of the two clauses by which a label has a cell, the one at a place: its row, its column.
pub(crate) fn at_clause(label: u32, row: u32, col: u32, place: u32) -> ClauseShape
    requires label { label < 512 }
    requires row { row < 32 }
    requires col { col < 16 }
    requires place { place < 2 }
    ensures { IsAt (at_clauses label row col) place result }
{
    if place == 0 {
        ClauseShape::One(positive(row_var(label, row)))
    } else {
        ClauseShape::One(positive(col_var(label, col)))
    }
}

/// Of the clauses by which a label has no row from the bound on, one for each such row, the one at a place.
pub(crate) fn bound_clause(rows: u32, label: u32, place: u32) -> ClauseShape
    requires rows { rows ≤ 32 }
    requires label { label < 512 }
    requires place { place < 32 - rows }
    ensures { IsAt (bound_clauses rows label) place result }
{
    ClauseShape::One(negative(row_var(label, rows + place)))
}
