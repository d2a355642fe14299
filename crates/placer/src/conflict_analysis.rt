//! The marks by which a conflict is resolved backwards along the trail.

ghost use Rattle.std.specs.Prelude.{◌≡◌, ◌≢◌, ◌<◌, ◌≤◌, ◌+◌, ◌-◌, ◌++◌, ◌⊎◌, ◌&&◌, ◌||◌, ℕ, [], ◌∷◌, length, take, flat_map, replicate, Bool, List, false, not, slice_get, neg_ℤ, All, if◌then◌else◌, Some, IfOk, OnOk};
ghost use Rattle.clause_base.specs.Lit.{var_of};
ghost use Rattle.clause_base.specs.Truth.{lits_of, IsConflict};
ghost use Rattle.clause_base.specs.declared.entry.Entry.{Entry};
ghost use Rattle.trail.specs.Assignment.{level_of};
ghost use Rattle.placer.specs.Marking.{IsWithin, ArePlaces, Marks, Lowers, IsLowest, IsAtPlace, Closes, IsBack, is_resolved, is_used, is_kept, negation_if, reason_if};

use clause_base::{Entry, Line, Lit, Lits, Numbers};
use io_base::OutOfMemory;
use propagate::Board;
use std::alloc::Global;
use trail::Trail;

/// Marks the places of a clause's literals.
pub(crate) fn mark_clause(places: &[usize], clause: &[Lit], marks: &mut [bool])
    requires { All (IsWithin places.now (length marks.old)) clause.now }
    ensures { Marks places.now clause.now marks.old marks.new }
{
    for lit in clause {
        marks[places[lit.var() as usize]] = true;
    }
}

// The place where it is lower, and the entry there is of the level.
fn lower_of(entry: Entry, level: u32, place: usize, lowest: usize) -> usize
    ensures lower { result ≤ lowest }
    ensures least { entry.level ≡ level → result ≤ place }
    ensures own { (result ≡ lowest) ⊎ ((result ≡ place) × (entry.level ≡ level)) }
{
    if entry.level == level && place < lowest {
        return place;
    }
    lowest
}

// The least of a place and the places of a clause's literals of the level.
fn lowest_of(trail: &Trail, places: &[usize], level: u32, clause: &[Lit], lowest: usize) -> usize
    requires { All (IsWithin places.now (length trail.now.entries)) clause.now }
    ensures { Lowers trail.now.entries places.now level clause.now lowest result }
{
    let mut least = lowest;
    for lit in clause {
        let place = places[lit.var() as usize];
        least = lower_of(trail.entry(place), level, place, least);
    }
    least
}

// Goes back past a place, of whose entry the reason is marked where the entry is. The result is the least marked place of
// the present level.
fn resolve(
    board: &Board,
    places: &[usize],
    place: usize,
    lowest: usize,
    marks: &mut [bool],
) -> usize
    requires places { ArePlaces board.now.list.vars board.now.trail.entries places.now }
    requires room { length board.now.trail.entries ≤ length marks.old }
    requires within { place < length board.now.trail.entries }
    requires lowest { IsLowest board.now.trail.entries marks.old lowest }
    requires above { lowest < place }
    requires level { 0 < level_of board.now.trail.entries }
    ensures room { length marks.new ≡ length marks.old }
    ensures at { (n : ℕ) → IsAtPlace board.now.list.clauses board.now.trail.entries n place marks.old lowest → IsAtPlace board.now.list.clauses board.now.trail.entries n (place - 1) marks.new result }
{
    if !marks[place] {
        return lowest;
    }
    let trail = board.trail();
    let level = trail.level();
    let reason = board.list().get(trail.entry(place).reason);
    mark_clause(places, reason, marks);
    lowest_of(trail, places, level, reason, lowest)
}

/// The first implication point of a conflict, by its place on the trail. `marks` are set at first nowhere, and then
/// where an entry is marked for that place.
pub(crate) fn first_point(
    board: &Board,
    conflict: u32,
    places: &[usize],
    marks: &mut [bool],
) -> usize
    requires above { 0 < level_of board.now.trail.entries }
    requires conflict { IsConflict (lits_of board.now.trail.entries) board.now.list.clauses conflict }
    requires places { ArePlaces board.now.list.vars board.now.trail.entries places.now }
    requires blank { marks.old ≡ replicate (board.now.list.vars + 1) false }
    ensures room { length marks.new ≡ length marks.old }
    ensures at { IsAtPlace board.now.list.clauses board.now.trail.entries conflict result marks.new result }
{
    let trail = board.trail();
    let len = trail.len();
    let clause = board.list().get(conflict);
    mark_clause(places, clause, marks);
    let mut lowest = lowest_of(trail, places, trail.level(), clause, len);
    let mut place = len - 1;
    'back: while lowest < place {
        lowest = resolve(board, places, place, lowest, marks);
        place -= 1;
    }
    place
}

// Marks the reason of a marked entry of level 0.
fn close_at(board: &Board, places: &[usize], place: usize, marks: &mut [bool])
    requires places { ArePlaces board.now.list.vars board.now.trail.entries places.now }
    requires room { length board.now.trail.entries ≤ length marks.old }
    requires within { place < length board.now.trail.entries }
    ensures room { length marks.new ≡ length marks.old }
    ensures closes { (first : List Bool) → Closes board.now.list.clauses board.now.trail.entries places.now (place + 1) first marks.old → Closes board.now.list.clauses board.now.trail.entries places.now place first marks.new }
{
    let entry = board.trail().entry(place);
    if entry.level != 0 {
        return;
    }
    if !marks[place] {
        return;
    }
    let reason = board.list().get(entry.reason);
    mark_clause(places, reason, marks);
}

// Where the entries of level 0 end, all of which stand before a place. Levels never fall along the trail, so it is found
// by halving.
fn end_of_level_zero(board: &Board, end: usize) -> usize
    requires within { end ≤ length board.now.trail.entries }
    requires begun { (i : ℕ) (e : Entry) → end ≤ i → slice_get board.now.trail.entries i ≡ Some e → 0 < e.level }
    ensures within { result ≤ end }
    ensures begun { (i : ℕ) (e : Entry) → result ≤ i → slice_get board.now.trail.entries i ≡ Some e → 0 < e.level }
{
    let trail = board.trail();
    let mut low = 0;
    let mut high = end;
    'halving: while low < high {
        let middle = low + (high - low) / 2;
        let entry = trail.entry(middle);
        if entry.level == 0 {
            low = middle + 1;
        } else {
            high = middle;
        }
    }
    high
}

/// Marks the reasons of marked entries of level 0, all of which stand before a place.
pub(crate) fn close_marks(board: &Board, places: &[usize], point: usize, marks: &mut [bool])
    requires places { ArePlaces board.now.list.vars board.now.trail.entries places.now }
    requires room { length board.now.trail.entries ≤ length marks.old }
    requires within { point ≤ length board.now.trail.entries }
    requires begun { (i : ℕ) (e : Entry) → point ≤ i → slice_get board.now.trail.entries i ≡ Some e → 0 < e.level }
    ensures { Closes board.now.list.clauses board.now.trail.entries places.now 0 marks.old marks.new }
{
    let mut place = end_of_level_zero(board, point);
    'back: while 0 < place {
        place -= 1;
        close_at(board, places, place, marks);
    }
}

// Whether the reason of a marked entry is used.
fn resolves(point: usize, place: usize, level: u32) -> bool
    ensures { result ≡ is_resolved point place level }
{
    place > point || level == 0
}

// Adds the negation of a kept entry to the clause, and the reason of a used one to the hints.
fn add_marked(
    entry: Entry,
    resolved: bool,
    clause: &mut Vec<Lit>,
    hints: &mut Vec<u32>,
) -> Result<(), OutOfMemory>
    ensures clause { OnOk result (clause.new.items ≡ clause.old.items ++ (if resolved then [] else neg_ℤ entry.lit ∷ [])) }
    ensures hints { OnOk result (hints.new.items ≡ hints.old.items ++ (if resolved then entry.reason ∷ [] else [])) }
{
    if resolved {
        hints.push(entry.reason)?;
    } else {
        clause.push(entry.lit.negated())?;
    }
    Ok(())
}

// Adds what an entry gives, where it is marked.
fn add_where(
    entry: Entry,
    marked: bool,
    resolved: bool,
    clause: &mut Vec<Lit>,
    hints: &mut Vec<u32>,
) -> Result<(), OutOfMemory>
    ensures clause { OnOk result (clause.new.items ≡ clause.old.items ++ (if marked && not resolved then neg_ℤ entry.lit ∷ [] else [])) }
    ensures hints { OnOk result (hints.new.items ≡ hints.old.items ++ (if marked && resolved then entry.reason ∷ [] else [])) }
{
    if marked {
        add_marked(entry, resolved, clause, hints)?;
    }
    Ok(())
}

/// The line of the marked entries: its clause has the negations of those that are kept, and its hints are the reasons
/// of those that are used, and the conflict.
pub(crate) fn marked_line(
    alloc: Global,
    board: &Board,
    conflict: u32,
    places: &[usize],
    marks: &[bool],
    point: usize,
) -> Result<Line, OutOfMemory>
    requires places { ArePlaces board.now.list.vars board.now.trail.entries places.now }
    requires room { length board.now.trail.entries ≤ length marks.now }
    ensures clause { IfOk result (λ line. line.clause ≡ flat_map (negation_if (is_kept board.now.trail.entries places.now marks.now point)) board.now.trail.entries) }
    ensures hints { IfOk result (λ line. line.hints ≡ flat_map (reason_if (is_used board.now.trail.entries places.now marks.now point)) board.now.trail.entries ++ conflict ∷ []) }
{
    let trail = board.trail();
    let mut clause = Vec::new(alloc);
    let mut hints = Vec::new(alloc);
    for index in 0..trail.len() {
        let entry = trail.entry(index);
        let resolved = resolves(point, index, entry.level);
        add_where(entry, marks[index], resolved, &mut clause, &mut hints)?;
    }
    hints.push(conflict)?;
    Ok(Line {
        clause: Lits::of(clause),
        hints: Numbers::of(hints),
    })
}

// The greater level, but for one place.
fn greater_of(entry: Entry, place: usize, point: usize, level: u32) -> u32
    ensures least { level ≤ result }
    ensures most { place ≢ point → entry.level ≤ result }
    ensures own { (result ≡ level) ⊎ ((result ≡ entry.level) × (place ≢ point)) }
{
    if place != point && level < entry.level {
        return entry.level;
    }
    level
}

/// The greatest level of a clause's literals, but for one place; 0 where there is no other.
pub(crate) fn back_of(trail: &Trail, places: &[usize], point: usize, clause: &[Lit]) -> u32
    requires { All (IsWithin places.now (length trail.now.entries)) clause.now }
    ensures { IsBack trail.now.entries places.now point clause.now result }
{
    let mut back = 0;
    for lit in clause {
        let place = places[lit.var() as usize];
        back = greater_of(trail.entry(place), place, point, back);
    }
    back
}
