//! Judges the hints of a line: from all its literals false, each hint but the last is unit, and the last is false.

ghost use Rattle.std.specs.Prelude.{ℕ, ◌≡◌, ◌≢◌, ◌<◌, ◌≤◌, ◌↔◌, [], length, All, AllPairs, OnOk, IfOk, map, neg_ℤ, Some, None};
ghost use Rattle.clause_base.specs.Lit.{var_of};
ghost use Rattle.clause_base.specs.Refutation.{Derived};
ghost use Rattle.refute_check.specs.Known.{known_clauses, known_list};
ghost use Rattle.refute_check.specs.Hints as spec;
ghost use Rattle.refute_check.specs.Hints.{look_on, clause_at, held_by, held_if, held_after, judged, AreHints};
ghost use Rattle.refute_check.specs.declared.derivation.ClauseStatus.TheVariants as look;

use crate::known_clauses::KnownClauses;
use crate::signs::Signs;
use clause_base::Lit;
use ref_text::Why;
use std::alloc::AllocError;

/// What a clause shows under the literals that hold.
#[derive(Clone, Copy)]
pub(crate) enum ClauseStatus {
    /// A literal is true, or two are unassigned.
    Settled,
    /// This literal is unassigned, and the others are false.
    Unit(Lit),
    /// Every literal is false.
    False,
}

// What is known of a clause after one more literal.
fn seen_with(lit: Lit, value: Option<bool>, before: ClauseStatus) -> ClauseStatus
    ensures { result ≡ spec.seen_with lit value before }
{
    match value {
        Some(true) => ClauseStatus::Settled,
        Some(false) => before,
        None => match before {
            ClauseStatus::False => ClauseStatus::Unit(lit),
            ClauseStatus::Unit(_) => ClauseStatus::Settled,
            ClauseStatus::Settled => ClauseStatus::Settled,
        },
    }
}

#[tactic(auto, unfolding(crate::specs::Hints::look_on))]
fn look_on(signs: &Signs, clause: &[Lit]) -> ClauseStatus
    requires { All (λ z. var_of z ≤ signs.now.vars) clause.now }
    ensures { result ≡ look_on signs.now.held clause.now look.False }
{
    let mut seen = ClauseStatus::False;
    for lit in clause {
        seen = seen_with(*lit, signs.value(*lit), seen);
    }
    seen
}

// Whether a hint that is not the last is unit; its literal then holds too.
fn hold_unit(known: &KnownClauses, signs: &mut Signs, hint: u32) -> Result<bool, AllocError>
    requires vars { signs.old.vars ≡ known.now.vars }
    requires hint { (0 < hint) × (hint ≤ length (known_clauses known.now)) }
    ensures vars { signs.new.vars ≡ signs.old.vars }
    ensures step { IfOk result (λ unit. held_by (known_clauses known.now) signs.old.held hint ≡ held_if unit signs.new.held) }
{
    match look_on(signs, known.get(hint)) {
        ClauseStatus::Unit(lit) => {
            signs.hold(lit)?;
            Ok(true)
        }
        ClauseStatus::Settled => Ok(false),
        ClauseStatus::False => Ok(false),
    }
}

// Whether the hints before the last are unit one after another; their literals then hold too.
#[tactic(auto, unfolding(crate::specs::Hints::held_after))]
fn hold_units(known: &KnownClauses, signs: &mut Signs, hints: &[u32]) -> Result<bool, AllocError>
    requires vars { signs.old.vars ≡ known.now.vars }
    requires hints { AreHints (known_clauses known.now) hints.now }
    ensures vars { signs.new.vars ≡ signs.old.vars }
    ensures steps { IfOk result (λ units. held_after (known_clauses known.now) (Some signs.old.held) hints.now ≡ held_if units signs.new.held) }
{
    for hint in hints {
        if !hold_unit(known, signs, *hint)? {
            return Ok(false);
        }
    }
    Ok(true)
}

// Why the hints do not lead to a conflict, or None where they do.
fn run_hints(
    known: &KnownClauses,
    signs: &mut Signs,
    hints: &[u32],
) -> Result<Option<Why>, AllocError>
    requires vars { signs.old.vars ≡ known.now.vars }
    requires some { 0 < length hints.now }
    requires hints { AreHints (known_clauses known.now) hints.now }
    ensures vars { signs.new.vars ≡ signs.old.vars }
    ensures judged { IfOk result (λ fault. fault ≡ judged (known_clauses known.now) signs.old.held hints.now) }
{
    let last = hints.len() - 1;
    if !hold_units(known, signs, &hints[..last])? {
        return Ok(Some(Why::NotUnit));
    }
    match look_on(signs, known.get(hints[last])) {
        ClauseStatus::False => Ok(None),
        ClauseStatus::Unit(_) => Ok(Some(Why::NotFalse)),
        ClauseStatus::Settled => Ok(Some(Why::NotFalse)),
    }
}

// The negations of the literals hold.
fn hold_negated(signs: &mut Signs, clause: &[Lit]) -> Result<(), AllocError>
    requires none { signs.old.held ≡ [] }
    requires in_range { All (λ z. var_of z ≤ signs.old.vars) clause.now }
    requires apart { AllPairs (λ a b. var_of a ≢ var_of b) clause.now }
    ensures vars { signs.new.vars ≡ signs.old.vars }
    ensures held { OnOk result (signs.new.held ≡ map neg_ℤ clause.now) }
{
    for lit in clause {
        signs.hold(lit.negated())?;
    }
    Ok(())
}

/// Why a line is not derived, or None where it is. Its literals are of the known clauses' variables, no variable comes
/// twice, and its hints, at least one, are numbers of clauses.
pub(crate) fn derive_line(
    known: &KnownClauses,
    signs: &mut Signs,
    clause: &[Lit],
    hints: &[u32],
) -> Result<Option<Why>, AllocError>
    requires vars { signs.old.vars ≡ known.now.vars }
    requires above { All (λ z. 0 < var_of z) clause.now }
    requires in_range { All (λ z. var_of z ≤ known.now.vars) clause.now }
    requires apart { AllPairs (λ a b. var_of a ≢ var_of b) clause.now }
    requires some { 0 < length hints.now }
    requires hints { AreHints (known_clauses known.now) hints.now }
    ensures vars { signs.new.vars ≡ signs.old.vars }
    ensures exact { IfOk result (λ fault. fault ≡ judged (known_clauses known.now) (map neg_ℤ clause.now) hints.now) }
    ensures derived { IfOk result (λ fault. (fault ≡ None) ↔ Derived (known_list known.now) (record { clause = clause.now; hints = hints.now })) }
{
    signs.clear();
    hold_negated(signs, clause)?;
    run_hints(known, signs, hints)
}
