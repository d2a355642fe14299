//! The first two classes: each label has one cell, and the cells of two labels differ.
ghost use Rattle.std.specs.Prelude.{◌<◌, ◌≤◌, ◌^◌, ◌+◌, ◌*◌};
ghost use Rattle.placement_clauses.specs.Number.{pairs_below};
ghost use Rattle.placement_clauses.specs.Shape.{no_two};
ghost use Rattle.placement_clauses.specs.Clauses.{cell_clauses, apart_clauses, apart_from_earlier};
ghost use Rattle.clause_encode.specs.Shapes.{IsAt};

use crate::clause_shape::ClauseShape;
use crate::variable_numbers::{col_var, differ_var, negative, positive, row_var};

// Of the clauses by which no two variables of a run are true, the one at a place.
fn no_two_clause(count: u32, first: u32, place: u32) -> ClauseShape
    requires first { 0 < first }
    requires room { first + count ≤ 2 ^ 31 }
    requires place { place < pairs_below count }
    ensures { IsAt (no_two count first) place result }
{
    let mut left = place;
    for earlier in 0..count {
        let block = count - 1 - earlier;
        if left < block {
            let later = earlier + 1 + left;
            return ClauseShape::Two(negative(first + earlier), negative(first + later));
        }
        left -= block;
    }
    unreachable!()
}

/// Of the 618 clauses of a label's cell, the one at a place: some row, some column (2), the pairs of 32 rows (496), the
/// pairs of 16 columns (120), which begin at place 498.
pub(crate) fn cell_clause(label: u32, place: u32) -> ClauseShape
    requires label { label < 512 }
    requires place { place < 618 }
    ensures { IsAt (cell_clauses label) place result }
{
    let rows = row_var(label, 0);
    let cols = col_var(label, 0);
    if place == 0 {
        ClauseShape::AnyOf(32, rows)
    } else if place == 1 {
        ClauseShape::AnyOf(16, cols)
    } else if place < 498 {
        no_two_clause(32, rows, place - 2)
    } else {
        no_two_clause(16, cols, place - 498)
    }
}

// Of the 48 clauses by which two labels have two cells, the one at a place: one for each row (32), one for each column
// (16).
fn pair_clause(labels: u32, earlier: u32, later: u32, place: u32) -> ClauseShape
    requires labels { labels ≤ 512 }
    requires ordered { earlier < later }
    requires later { later < labels }
    requires place { place < 48 }
    ensures { IsAt (apart_clauses labels later earlier) place result }
{
    let differ = differ_var(labels, earlier, later);
    if place < 32 {
        ClauseShape::Three(
            negative(differ),
            negative(row_var(earlier, 0) + place),
            negative(row_var(later, 0) + place),
        )
    } else {
        let col = place - 32;
        ClauseShape::Three(
            positive(differ),
            negative(col_var(earlier, 0) + col),
            negative(col_var(later, 0) + col),
        )
    }
}

/// Of the clauses by which a label's cell is not that of an earlier label, 48 for each, the one at a place.
pub(crate) fn apart_clause(labels: u32, label: u32, place: u32) -> ClauseShape
    requires labels { labels ≤ 512 }
    requires label { label < labels }
    requires place { place < label * 48 }
    ensures { IsAt (apart_from_earlier labels label) place result }
{
    pair_clause(labels, place / 48, label, place % 48)
}
