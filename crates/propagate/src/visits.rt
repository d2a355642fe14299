//! A look at one clause that watches a literal that has become false.

ghost use Rattle.std.specs.Prelude.{◌≡◌, ◌≢◌, ◌<◌, ◌≤◌, ◌-◌, ◌^◌, ℕ, ℤ, List, All, length, slice_get, Some, true, false, IfOk, OnOk, OnErr, MatchOption};
ghost use Rattle.clause_base.specs.Clauses.{IsClause};
ghost use Rattle.clause_base.specs.Lit.{var_of};
ghost use Rattle.trail.specs.Assignment.{value_of};
ghost use Rattle.propagate.specs.Lists.{list_at};
ghost use Rattle.propagate.specs.Standing.{AreForced};
ghost use Rattle.propagate.specs.Visits.{AreFalseBesides, IsWatchable, IsConcluded, IsHandedOn, IsStep, Visits};
ghost use Rattle.propagate.specs.Watching.{code_of, AreLaid, IsPartner, IsIn};
ghost use Rattle.propagate.specs.declared.pairs.Pair.{Pair};

use crate::pairs::{Pair, Watches, code_of_lit, partner};
use crate::watch_lists::Watch;
use clause_base::{ClauseList, Lit};
use io_base::OutOfMemory;
use trail::Trail;

/// What became of a clause that watched a false literal.
#[derive(Clone, Copy)]
pub(crate) enum Visit {
    /// It is true, or watches the literal no more, and stays in the list.
    Kept,
    /// It watches another literal, and was taken out of the list.
    Moved,
    /// The clause of this number is false.
    Conflict(u32),
}

// A literal of a clause that is not false, but for one literal.
fn watchable_besides(trail: &Trail, clause: &[Lit], other: Lit) -> Option<Lit>
    requires { All (λ z. var_of z ≤ trail.now.vars) clause.now }
    ensures { MatchOption result (AreFalseBesides trail.now.entries clause.now other) (IsWatchable trail.now.entries clause.now other) }
{
    for lit in clause {
        if *lit != other {
            match trail.value(*lit) {
                Some(true) => return Some(*lit),
                Some(false) => {}
                None => return Some(*lit),
            }
        }
    }
    None
}

// Hands a clause on from the list of a false literal to that of another one, which it watches from now on.
fn hand_on(
    watches: &mut Watches,
    lit: Lit,
    place: usize,
    watch: Watch,
    next: Lit,
    other: Lit,
) -> Result<(), OutOfMemory>
    requires listed { code_of lit < length watches.old.lists }
    requires next_listed { code_of next < length watches.old.lists }
    requires apart { code_of lit ≢ code_of next }
    requires there { slice_get (list_at watches.old.lists (code_of lit)) place ≡ Some watch }
    requires paired { watch.index < length watches.old.pairs.items }
    ensures ok { OnOk result (IsHandedOn watches.old.lists watches.new.lists watches.old.pairs.items watches.new.pairs.items lit next other place watch) }
    ensures err { OnErr result ((watches.new.lists ≡ watches.old.lists) × (watches.new.pairs.items ≡ watches.old.pairs.items)) }
{
    let handed = Watch {
        index: watch.index,
        blocker: other,
    };
    watches.lists.push(code_of_lit(next), handed)?;
    watches.pairs[watch.index as usize] = Pair {
        first: next,
        second: other,
    };
    let _taken = watches.lists.take_out(code_of_lit(lit), place);
    Ok(())
}

// What follows where all other literals of a clause are false: its watched literal is implied, or it is false.
fn imply_or_clash(trail: &mut Trail, index: u32, watched: Lit) -> Visit
    requires few { index < 2 ^ 32 - 1 }
    requires in_range { var_of watched ≤ trail.old.vars }
    ensures vars { trail.new.vars ≡ trail.old.vars }
    ensures told { IsConcluded trail.old.entries trail.new.entries index watched result }
{
    if trail.value(watched).is_none() {
        trail.imply(watched, index + 1);
        Visit::Kept
    } else {
        Visit::Conflict(index + 1)
    }
}

// Looks at a clause that watches a false literal and another one.
fn visit_clause(
    list: &ClauseList,
    trail: &mut Trail,
    watches: &mut Watches,
    lit: Lit,
    place: usize,
    watch: Watch,
    other: Lit,
) -> Result<Visit, OutOfMemory>
    requires vars { trail.old.vars ≡ list.now.vars }
    requires valid { All (IsClause list.now.vars) list.now.clauses }
    requires forced { AreForced list.now.clauses trail.old.entries }
    requires laid { AreLaid list.now.vars list.now.clauses watches.old.lists watches.old.pairs.items }
    requires in_range { var_of lit ≤ list.now.vars }
    requires is_false { value_of lit trail.old.entries ≡ Some false }
    requires there { slice_get (list_at watches.old.lists (code_of lit)) place ≡ Some watch }
    requires paired { watch.index < length watches.old.pairs.items }
    requires partner { (p : Pair) → slice_get watches.old.pairs.items watch.index ≡ Some p → IsPartner p lit other }
    ensures vars { trail.new.vars ≡ trail.old.vars }
    ensures step { IsStep list.now.vars list.now.clauses watches.old.lists watches.new.lists watches.old.pairs.items watches.new.pairs.items trail.old.entries trail.new.entries lit place }
    ensures told { IfOk result (Visits list.now.clauses watches.old.lists watches.new.lists watches.new.pairs.items trail.new.entries lit place) }
{
    // A proof learns here that the clause's number fits, and that the trail is in order.
    let _count = list.len();
    let _ordered = trail.len();
    if trail.value(other) == Some(true) {
        let index = watch.index;
        let blocked = Watch {
            index,
            blocker: other,
        };
        watches.lists.set(code_of_lit(lit), place, blocked);
        return Ok(Visit::Kept);
    }
    match watchable_besides(trail, list.get(watch.index + 1), other) {
        Some(next) => {
            hand_on(watches, lit, place, watch, next, other)?;
            Ok(Visit::Moved)
        }
        None => Ok(imply_or_clash(trail, watch.index, other)),
    }
}

/// Looks at the clause at a place of the list of a false literal.
pub(crate) fn visit_at(
    list: &ClauseList,
    trail: &mut Trail,
    watches: &mut Watches,
    lit: Lit,
    place: usize,
) -> Result<Visit, OutOfMemory>
    requires vars { trail.old.vars ≡ list.now.vars }
    requires valid { All (IsClause list.now.vars) list.now.clauses }
    requires forced { AreForced list.now.clauses trail.old.entries }
    requires laid { AreLaid list.now.vars list.now.clauses watches.old.lists watches.old.pairs.items }
    requires in_range { var_of lit ≤ list.now.vars }
    requires is_false { value_of lit trail.old.entries ≡ Some false }
    requires within { place < length (list_at watches.old.lists (code_of lit)) }
    ensures vars { trail.new.vars ≡ trail.old.vars }
    ensures step { IsStep list.now.vars list.now.clauses watches.old.lists watches.new.lists watches.old.pairs.items watches.new.pairs.items trail.old.entries trail.new.entries lit place }
    ensures told { IfOk result (Visits list.now.clauses watches.old.lists watches.new.lists watches.new.pairs.items trail.new.entries lit place) }
{
    let watch = watches.lists.get(code_of_lit(lit), place);
    if trail.value(watch.blocker) == Some(true) {
        return Ok(Visit::Kept);
    }
    let index = watch.index as usize;
    if index >= watches.pairs.len() {
        return Ok(Visit::Kept);
    }
    match partner(watches.pairs[index], lit) {
        None => Ok(Visit::Kept),
        Some(other) => visit_clause(list, trail, watches, lit, place, watch, other),
    }
}
