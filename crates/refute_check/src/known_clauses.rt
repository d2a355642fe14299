//! The clauses that the hints of a line may name.
ghost use Rattle.std.specs.Prelude.{ℕ, ◌≡◌, ◌<◌, ◌≤◌, ◌-◌, ◌+◌, ◌^◌, [], ◌∷◌, ◌++◌, length, All, IfOk, OnOk, OnErr, Some, None, slice_get, slice_index_or, slice_set, true, false};
ghost use Rattle.clause_base.specs.Clauses.{IsClause};
ghost use Rattle.refute_check.specs.Hints.{clause_at};
ghost use Rattle.refute_check.specs.Known.{or_nothing, kept_at, known_clauses};

use clause_base::{ClauseList, Lit};
use io_base::OutOfMemory;
use std::alloc::Global;
use std::marker::Model;

/// The clauses of a source that were asked for, each kept once, and those of the derived lines, in two flat pools.
#[derive(Drop)]
pub struct KnownClauses {
    // For each clause of the source its number among those that were asked for, 0 for none.
    places: Vec<u32>,
    asked: ClauseList,
    derived: ClauseList,
}

impl Model for KnownClauses {
    ghost use Rattle.refute_check.specs.Known.{Known};

    ghost Value = { Known };

    ghost use Rattle.refute_check.specs.Known.{known_of, ArePlaces};

    ghost view = { known_of };

    ghost invariant = { ArePlaces };
}

impl KnownClauses {
    /// Nothing is known of `len` clauses over the variables 1 to `vars`, and no line is derived.
    pub fn new(alloc: Global, vars: u32, len: u32) -> Result<KnownClauses, OutOfMemory>
        requires { vars < 2 ^ 31 }
        ensures vars { IfOk result (λ known. known.vars ≡ vars) }
        ensures sized { IfOk result (λ known. length known.asked ≡ len) }
        ensures none { IfOk result (λ known. All (λ clause. clause ≡ None) known.asked) }
        ensures count { IfOk result (λ known. known.count ≡ 0) }
        ensures derived { IfOk result (λ known. known.derived ≡ []) }
    {
        let places = vec![in alloc; 0; len as usize]?;
        let asked = ClauseList::new(alloc, vars)?;
        let derived = ClauseList::new(alloc, vars)?;
        Ok(KnownClauses {
            places,
            asked,
            derived,
        })
    }

    /// How many lines are derived.
    pub fn lines(&self) -> u32
        ensures { result ≡ length self.now.derived }
    {
        self.derived.len()
    }

    /// Whether a number is that of a clause of the source which was not asked for.
    pub fn lacks(&self, number: u32) -> bool
        requires { 0 < number }
        ensures lacks { result ≡ true → number ≤ length self.now.asked }
        ensures has { result ≡ false → number ≤ length self.now.asked → slice_get self.now.asked (number - 1) ≡ Some (Some (clause_at (known_clauses self.now) number)) }
    {
        let place = number as usize - 1;
        place < self.places.len() && self.places[place] == 0
    }

    /// Keeps a clause of the source.
    pub fn keep(&mut self, number: u32, clause: &[Lit]) -> Result<(), OutOfMemory>
        requires number { (0 < number) × (number ≤ length self.old.asked) }
        requires valid { IsClause self.old.vars clause.now }
        ensures ok { OnOk result (self.new ≡ record self.old { asked = slice_set self.old.asked (number - 1) (Some clause.now); count = self.old.count + 1 }) }
        ensures few { OnOk result (self.new.count < 2 ^ 32) }
        ensures err { OnErr result (self.new ≡ self.old) }
    {
        if self.asked.len() == u32::MAX {
            return Err(OutOfMemory);
        }
        self.asked.add(clause)?;
        self.places[number as usize - 1] = self.asked.len();
        Ok(())
    }

    /// Adds the clause of a derived line.
    pub fn add_line(&mut self, clause: &[Lit]) -> Result<(), OutOfMemory>
        requires few { length self.old.derived < 2 ^ 32 - 1 }
        requires valid { IsClause self.old.vars clause.now }
        ensures ok { OnOk result (self.new ≡ record self.old { derived = self.old.derived ++ clause.now ∷ [] }) }
        ensures err { OnErr result (self.new ≡ self.old) }
    {
        self.derived.add(clause)
    }

    /// The clause of a number, empty where it is one of the source that was not asked for.
    pub fn get(&self, number: u32) -> &[Lit]
        requires { (0 < number) × (number ≤ length (known_clauses self.now)) }
        ensures clause { result.now ≡ clause_at (known_clauses self.now) number }
        ensures valid { IsClause self.now.vars result.now }
    {
        let place = number as usize - 1;
        if place < self.places.len() {
            kept(&self.asked, self.places[place])
        } else {
            self.derived.get((place - self.places.len()) as u32 + 1)
        }
    }
}

// The clause of a place in the table.
fn kept(asked: &ClauseList, place: u32) -> &[Lit]
    requires { place ≤ length asked.now.clauses }
    ensures clause { result.now ≡ or_nothing (kept_at asked.now.clauses place) }
    ensures valid { IsClause asked.now.vars result.now }
{
    if place == 0 { &[] } else { asked.get(place) }
}
