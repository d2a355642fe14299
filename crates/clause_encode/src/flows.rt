//! The fourth class: each instruction has a jump that lands on its labels.
ghost use Rattle.std.specs.Prelude.{◌≡◌, ◌<◌, ◌≤◌, ◌++◌, ℕ, length};
ghost use Rattle.mcu_jumps.specs.Landing.{outcomes_of};
ghost use Rattle.mcu_jumps.specs.declared.kinds.Kind.TheVariants.{Enable};
ghost use Rattle.flow_graph.specs.Targets.{HasLabel};
ghost use Rattle.flow_graph.specs.Valid.{IsInstr};
ghost use Rattle.placement_clauses.specs.Number.{col_var};
ghost use Rattle.placement_clauses.specs.Shape.{same};
ghost use Rattle.placement_clauses.specs.Clauses.{reach_clauses, goto_clauses, flow_clauses, instr_clauses};
ghost use Rattle.clause_encode.specs.Shapes.{IsAt};

use crate::clause_shape::ClauseShape;
use crate::first_label::first_label_of;
use crate::givens::at_clause;
use crate::test_targets::{targets_count, test_clause};
use crate::variable_numbers::{col_var, negative, positive, row_var, way_var};
use flow_graph::Instr;
use mcu_jumps::Kind;

/// How many clauses an instruction has in this class.
///
/// A `goto` has 51: its three ways (1), the same column (16), row 0 below column 15 (2), the same row (32). A `strobe`
/// has the row and the column of its target (2). An `enable` has 48: the same column (16), a row that is reached from
/// each row (32). A test has the 32 of the rows, and those of its targets.
pub(crate) fn flow_count(instr: &Instr) -> u32
    requires outcomes { length instr.now.targets ≡ outcomes_of instr.now.kind }
    requires label { HasLabel instr.now.targets }
    ensures count { (n s : ℕ) → length (flow_clauses n s instr.now.kind instr.now.targets) ≡ result }
    ensures few { result ≤ 800 }
{
    let targets = instr.targets.as_slice();
    match instr.kind {
        Kind::Goto => 51,
        Kind::Strobe => 2,
        Kind::Enable => 48,
        kind => 32 + targets_count(kind, first_label_of(targets), targets),
    }
}

// Of the clauses of a `goto`, the one at a place.
fn goto_clause(labels: u32, source: u32, target: u32, place: u32) -> ClauseShape
    requires labels { labels ≤ 512 }
    requires source { source < labels }
    requires target { target < labels }
    requires place { place < 51 }
    ensures { IsAt (goto_clauses labels source target) place result }
{
    let within_col = way_var(labels, source, 0);
    let to_row_0 = way_var(labels, source, 1);
    let within_row = way_var(labels, source, 2);
    if place == 0 {
        ClauseShape::Three(
            positive(within_col),
            positive(to_row_0),
            positive(within_row),
        )
    } else if place < 17 {
        let col = place - 1;
        ClauseShape::Three(
            negative(within_col),
            negative(col_var(source, 0) + col),
            positive(col_var(target, 0) + col),
        )
    } else if place == 17 {
        ClauseShape::Two(negative(to_row_0), positive(row_var(target, 0)))
    } else if place == 18 {
        ClauseShape::Two(negative(to_row_0), negative(col_var(target, 15)))
    } else {
        let row = place - 19;
        ClauseShape::Three(
            negative(within_row),
            negative(row_var(source, 0) + row),
            positive(row_var(target, 0) + row),
        )
    }
}

// Of the clauses of an `enable`, the one at a place.
fn enable_clause(source: u32, target: u32, place: u32) -> ClauseShape
    requires source { source < 512 }
    requires target { target < 512 }
    requires place { place < 48 }
    ensures { IsAt (same 16 (col_var source 0) (col_var target 0) ++ reach_clauses Enable source target) place result }
{
    if place < 16 {
        ClauseShape::Two(
            negative(col_var(source, 0) + place),
            positive(col_var(target, 0) + place),
        )
    } else {
        ClauseShape::Reach(Kind::Enable, source, target, place - 16)
    }
}

/// Of the clauses of an instruction in this class, the one at a place.
pub(crate) fn flow_clause(labels: u32, source: u32, instr: &Instr, place: u32) -> ClauseShape
    requires labels { labels ≤ 512 }
    requires source { source < labels }
    requires instr { IsInstr labels instr.now }
    requires place { place < length (instr_clauses labels source instr.now) }
    ensures { IsAt (instr_clauses labels source instr.now) place result }
{
    let targets = instr.targets.as_slice();
    let target = first_label_of(targets).label;
    match instr.kind {
        Kind::Goto => goto_clause(labels, source, target, place),
        Kind::Strobe => at_clause(target, 0, 15, place),
        Kind::Enable => enable_clause(source, target, place),
        kind => test_clause(kind, source, targets, place),
    }
}
