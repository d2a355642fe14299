//! The fifth class: the cells where trap outcomes land are free.
ghost use Rattle.std.specs.Prelude.{◌≡◌, ◌≢◌, ◌<◌, ◌≤◌, ℕ, length};
ghost use Rattle.mcu_jumps.specs.Landing.{outcomes_of};
ghost use Rattle.flow_graph.specs.Valid.{IsInstr};
ghost use Rattle.placement_clauses.specs.Upto.{upto, each_of};
ghost use Rattle.placement_clauses.specs.Clauses.{trap_pair, trap_of, trap_outcome, trap_clauses};
ghost use Rattle.clause_encode.specs.Shapes.{IsAt};

use crate::clause_shape::ClauseShape;
use crate::first_label::{FirstLabel, first_label_of};
use crate::reaching::{col_of, keeps_half};
use crate::variable_numbers::{col_var, negative, pair_var, positive};
use flow_graph::Instr;
use mcu_jumps::Kind;

// How many clauses keep a label from where a trap outcome lands: one for each half of the columns where the test keeps
// its half, else one.
fn trap_pair_count(kind: Kind) -> u32
    ensures count { (n x e o z : ℕ) → length (trap_pair n kind x e o z) ≡ result }
    ensures some { 0 < result }
    ensures few { result ≤ 2 }
{
    if keeps_half(kind) { 2 } else { 1 }
}

// How many clauses the target of an outcome has in this class: of the trap those of each label but the first target.
fn trap_outcome_count(labels: u32, kind: Kind, first: FirstLabel, target: Option<u16>) -> u32
    requires labels { labels ≤ 512 }
    requires first { first.label < labels }
    ensures count { (o : ℕ) → length (trap_outcome labels kind first.label first.outcome o target) ≡ result }
    ensures few { result ≤ 1022 }
{
    match target {
        Some(_) => 0,
        None => (labels - 1) * trap_pair_count(kind),
    }
}

// How many clauses targets have in this class.
fn traps_count(labels: u32, kind: Kind, first: FirstLabel, targets: &[Option<u16>]) -> u32
    requires outcomes { length targets.now ≡ outcomes_of kind }
    requires labels { labels ≤ 512 }
    requires first { first.label < labels }
    ensures count { length (each_of targets.now (trap_outcome labels kind first.label first.outcome)) ≡ result }
    ensures few { result ≤ 16352 }
{
    let mut count = 0;
    for target in targets {
        count += trap_outcome_count(labels, kind, first, *target);
    }
    count
}

/// How many clauses an instruction has in this class.
pub(crate) fn instr_traps_count(labels: u32, instr: &Instr) -> u32
    requires labels { labels ≤ 512 }
    requires instr { IsInstr labels instr.now }
    ensures count { length (trap_clauses labels instr.now.kind instr.now.targets) ≡ result }
    ensures few { result ≤ 16352 }
{
    let targets = instr.targets.as_slice();
    traps_count(labels, instr.kind, first_label_of(targets), targets)
}

// Of the clauses that keep a label from where a trap outcome lands, the one at a place.
fn trap_pair_clause(
    labels: u32,
    kind: Kind,
    first: FirstLabel,
    outcome: u32,
    label: u32,
    place: u32,
) -> ClauseShape
    requires labels { labels ≤ 512 }
    requires first_outcome { first.outcome < outcomes_of kind }
    requires first_label { first.label < labels }
    requires outcome { outcome < outcomes_of kind }
    requires label { label < labels }
    requires apart { first.label ≢ label }
    requires place { place < length (trap_pair labels kind first.label first.outcome outcome label) }
    ensures { IsAt (trap_pair labels kind first.label first.outcome outcome label) place result }
{
    let differ = positive(pair_var(labels, first.label, label));
    if keeps_half(kind) {
        let base = if place == 0 { 2 } else { 10 };
        let here = negative(col_var(first.label, base + first.outcome));
        ClauseShape::Three(differ, here, negative(col_var(label, base + outcome)))
    } else {
        ClauseShape::Two(differ, negative(col_var(label, col_of(kind, outcome, 0))))
    }
}

// Of the clauses that keep all labels but the first target from where a trap outcome lands, the one at a place.
fn landing_clause(
    labels: u32,
    kind: Kind,
    first: FirstLabel,
    outcome: u32,
    place: u32,
) -> ClauseShape
    requires labels { labels ≤ 512 }
    requires first_outcome { first.outcome < outcomes_of kind }
    requires first_label { first.label < labels }
    requires outcome { outcome < outcomes_of kind }
    requires place { place < length (upto labels (trap_of labels kind first.label first.outcome outcome)) }
    ensures { IsAt (upto labels (trap_of labels kind first.label first.outcome outcome)) place result }
{
    let block = trap_pair_count(kind);
    let skipped = place / block;
    let left = place % block;
    if skipped < first.label {
        trap_pair_clause(labels, kind, first, outcome, skipped, left)
    } else {
        trap_pair_clause(labels, kind, first, outcome, skipped + 1, left)
    }
}

// Of the clauses of an outcome's target, of which a label has none, the one at a place.
fn trap_outcome_clause(
    labels: u32,
    kind: Kind,
    first: FirstLabel,
    outcome: u32,
    target: Option<u16>,
    place: u32,
) -> ClauseShape
    requires labels { labels ≤ 512 }
    requires first_outcome { first.outcome < outcomes_of kind }
    requires first_label { first.label < labels }
    requires outcome { outcome < outcomes_of kind }
    requires place { place < length (trap_outcome labels kind first.label first.outcome outcome target) }
    ensures { IsAt (trap_outcome labels kind first.label first.outcome outcome target) place result }
{
    match target {
        Some(_) => unreachable!(),
        None => landing_clause(labels, kind, first, outcome, place),
    }
}

// Of the clauses of targets, the one at a place.
fn traps_clause(
    labels: u32,
    kind: Kind,
    first: FirstLabel,
    targets: &[Option<u16>],
    place: u32,
) -> ClauseShape
    requires labels { labels ≤ 512 }
    requires count { length targets.now ≡ outcomes_of kind }
    requires first_outcome { first.outcome < outcomes_of kind }
    requires first_label { first.label < labels }
    requires place { place < length (each_of targets.now (trap_outcome labels kind first.label first.outcome)) }
    ensures { IsAt (each_of targets.now (trap_outcome labels kind first.label first.outcome)) place result }
{
    let mut left = place;
    for (outcome, target) in targets.iter().enumerate() {
        let block = trap_outcome_count(labels, kind, first, *target);
        if left < block {
            return trap_outcome_clause(labels, kind, first, outcome as u32, *target, left);
        }
        left -= block;
    }
    unreachable!()
}

/// Of the clauses of an instruction in this class, the one at a place.
pub(crate) fn instr_trap_clause(labels: u32, instr: &Instr, place: u32) -> ClauseShape
    requires labels { labels ≤ 512 }
    requires instr { IsInstr labels instr.now }
    requires place { place < length (trap_clauses labels instr.now.kind instr.now.targets) }
    ensures { IsAt (trap_clauses labels instr.now.kind instr.now.targets) place result }
{
    let targets = instr.targets.as_slice();
    let first = first_label_of(targets);
    traps_clause(labels, instr.kind, first, targets, place)
}
