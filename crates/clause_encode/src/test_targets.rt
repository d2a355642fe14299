//! The clauses of a test in the fourth class: its labels stand in one row that is reached, each in its column.
ghost use Rattle.std.specs.Prelude.{◌≡◌, ◌<◌, ◌≤◌, ℕ, length, Some};
ghost use Rattle.mcu_jumps.specs.Landing.{outcomes_of};
ghost use Rattle.flow_graph.specs.Targets.{AreTargets, HasLabel};
ghost use Rattle.placement_clauses.specs.Upto.{each_of};
ghost use Rattle.placement_clauses.specs.FirstLabel.{first_real, first_label};
ghost use Rattle.placement_clauses.specs.Clauses.{col_clauses, outcome_clauses, target_clauses, test_clauses};
ghost use Rattle.clause_encode.specs.Shapes.{IsAt};

use crate::clause_shape::ClauseShape;
use crate::first_label::{FirstLabel, first_label_of};
use crate::reaching::{col_of, keeps_half};
use crate::variable_numbers::{col_var, negative, positive, row_var};
use mcu_jumps::Kind;

// How many clauses put a label into the column of an outcome: one for each column of the instruction where the test
// keeps its half, else one.
fn cols_count(kind: Kind) -> u32
    ensures count { (s o y : ℕ) → length (col_clauses kind s o y) ≡ result }
    ensures few { result ≤ 16 }
{
    if keeps_half(kind) { 16 } else { 1 }
}

// How many clauses the label of an outcome has: one for each row, which the first label does without, and those of its
// column.
fn outcome_count(kind: Kind, first: FirstLabel, outcome: u32) -> u32
    ensures count { (s y : ℕ) → length (outcome_clauses kind s first.outcome first.label outcome y) ≡ result }
    ensures few { result ≤ 48 }
{
    let cols = cols_count(kind);
    if outcome == first.outcome {
        cols
    } else {
        32 + cols
    }
}

// How many clauses the target of an outcome has: none for the trap.
fn target_count(kind: Kind, first: FirstLabel, outcome: u32, target: Option<u16>) -> u32
    ensures count { (s : ℕ) → length (target_clauses kind s first.outcome first.label outcome target) ≡ result }
    ensures few { result ≤ 48 }
{
    match target {
        Some(_) => outcome_count(kind, first, outcome),
        None => 0,
    }
}

/// How many clauses the targets of a test have.
pub(crate) fn targets_count(kind: Kind, first: FirstLabel, targets: &[Option<u16>]) -> u32
    requires { length targets.now ≡ outcomes_of kind }
    ensures count { (s : ℕ) → length (each_of targets.now (target_clauses kind s first.outcome first.label)) ≡ result }
    ensures few { result ≤ 768 }
{
    let mut count = 0;
    for (outcome, target) in targets.iter().enumerate() {
        count += target_count(kind, first, outcome as u32, *target);
    }
    count
}

// Of the clauses that put a label into the column of an outcome, the one at a place.
fn cols_clause(kind: Kind, source: u32, outcome: u32, label: u32, place: u32) -> ClauseShape
    requires outcome { outcome < outcomes_of kind }
    requires source { source < 512 }
    requires label { label < 512 }
    requires place { place < length (col_clauses kind source outcome label) }
    ensures { IsAt (col_clauses kind source outcome label) place result }
{
    if keeps_half(kind) {
        let to = col_of(kind, outcome, place);
        ClauseShape::Two(
            negative(col_var(source, place)),
            positive(col_var(label, to)),
        )
    } else {
        ClauseShape::One(positive(col_var(label, col_of(kind, outcome, 0))))
    }
}

// Of the clauses of an outcome's label, the one at a place: but for the first label one for each row (32), then those
// of its column.
fn outcome_clause(
    kind: Kind,
    source: u32,
    first: FirstLabel,
    outcome: u32,
    label: u32,
    place: u32,
) -> ClauseShape
    requires outcome { outcome < outcomes_of kind }
    requires source { source < 512 }
    requires first { first.label < 512 }
    requires label { label < 512 }
    requires place { place < length (outcome_clauses kind source first.outcome first.label outcome label) }
    ensures { IsAt (outcome_clauses kind source first.outcome first.label outcome label) place result }
{
    if outcome == first.outcome {
        cols_clause(kind, source, outcome, label, place)
    } else if place < 32 {
        ClauseShape::Two(
            negative(row_var(first.label, 0) + place),
            positive(row_var(label, 0) + place),
        )
    } else {
        cols_clause(kind, source, outcome, label, place - 32)
    }
}

// Of the clauses of an outcome's target, of which the trap has none, the one at a place.
fn target_clause(
    kind: Kind,
    source: u32,
    first: FirstLabel,
    outcome: u32,
    target: Option<u16>,
    place: u32,
) -> ClauseShape
    requires outcome { outcome < outcomes_of kind }
    requires source { source < 512 }
    requires first { first.label < 512 }
    requires target { (y : ℕ) → target ≡ Some y → y < 512 }
    requires place { place < length (target_clauses kind source first.outcome first.label outcome target) }
    ensures { IsAt (target_clauses kind source first.outcome first.label outcome target) place result }
{
    match target {
        Some(label) => outcome_clause(kind, source, first, outcome, u32::from(label), place),
        None => unreachable!(),
    }
}

// Of the clauses of a test's targets, the one at a place.
fn targets_clause(
    kind: Kind,
    source: u32,
    first: FirstLabel,
    targets: &[Option<u16>],
    place: u32,
) -> ClauseShape
    requires count { length targets.now ≡ outcomes_of kind }
    requires source { source < 512 }
    requires first { first.label < 512 }
    requires targets { AreTargets 512 targets.now }
    requires place { place < length (each_of targets.now (target_clauses kind source first.outcome first.label)) }
    ensures { IsAt (each_of targets.now (target_clauses kind source first.outcome first.label)) place result }
{
    let mut left = place;
    for (outcome, target) in targets.iter().enumerate() {
        let block = target_count(kind, first, outcome as u32, *target);
        if left < block {
            return target_clause(kind, source, first, outcome as u32, *target, left);
        }
        left -= block;
    }
    unreachable!()
}

/// Of the clauses of a test, the one at a place: a row that is reached from each row (32), then those of its targets.
pub(crate) fn test_clause(
    kind: Kind,
    source: u32,
    targets: &[Option<u16>],
    place: u32,
) -> ClauseShape
    requires label { HasLabel targets.now }
    requires count { length targets.now ≡ outcomes_of kind }
    requires source { source < 512 }
    requires targets { AreTargets 512 targets.now }
    requires place { place < length (test_clauses kind source targets.now (first_real targets.now) (first_label targets.now)) }
    ensures { IsAt (test_clauses kind source targets.now (first_real targets.now) (first_label targets.now)) place result }
{
    let first = first_label_of(targets);
    if place < 32 {
        ClauseShape::Reach(kind, source, first.label, place)
    } else {
        targets_clause(kind, source, first, targets, place - 32)
    }
}
