//! The trail: entries in order, and the sign of each variable beside them.

ghost use Rattle.std.specs.Prelude.{◌≡◌, ◌<◌, ◌≤◌, ◌^◌, ◌+◌, [], ◌∷◌, ◌++◌, None, Some, IfOk, length, take, filter, nat_le, slice_get};
ghost use Rattle.clause_base.specs.Lit.{var_of};
ghost use Rattle.clause_base.specs.declared.entry.Entry.{Entry};
ghost use Rattle.trail.specs.Assignment.{value_of, level_of, ends_above_test, IsTrail, IsLevelled};

use clause_base::{Entry, Lit};
use io_base::OutOfMemory;
use std::alloc::Global;
use std::marker::Model;

/// Assigned literals of the variables 1 to `vars`, in the order in which they were assigned.
#[derive(Drop)]
pub struct Trail {
    vars: u32,
    level: u32,
    entries: Vec<Entry>,
    // The sign of each variable by its number, or none where it is unassigned. Place 0 stays unused.
    signs: Vec<Option<bool>>,
}

impl Model for Trail {
    ghost use Rattle.trail.specs.Assignment.{Assignment};

    ghost Value = { Assignment };

    ghost use Rattle.trail.specs.Kept.{assignment_of, IsKept};

    ghost view = { assignment_of };

    ghost invariant = { IsKept };
}

impl Trail {
    /// A trail with no entry, and with room for every variable.
    pub fn new(alloc: Global, vars: u32) -> Result<Trail, OutOfMemory>
        requires { vars < 2 ^ 31 }
        ensures { IfOk result (λ trail. trail ≡ record { vars = vars; entries = [] }) }
    {
        let room = vars as usize + 1;
        let entries = Vec::with_capacity(alloc, room)?;
        let signs = vec![in alloc; None; room]?;
        Ok(Trail {
            vars,
            level: 0,
            entries,
            signs,
        })
    }

    /// Assigns a literal by a decision, which begins a level.
    pub fn decide(&mut self, lit: Lit)
        requires in_range { var_of lit ≤ self.old.vars }
        requires unassigned { value_of lit self.old.entries ≡ None }
        ensures { let decision : Entry = record { lit = lit; level = level_of self.old.entries + 1; reason = 0 } in self.new ≡ record { vars = self.old.vars; entries = self.old.entries ++ decision ∷ [] } }
    {
        let level = self.level + 1;
        self.level = level;
        self.signs[lit.var() as usize] = Some(lit.is_positive());
        self.entries.push_reserved(Entry {
            lit,
            level,
            reason: 0,
        });
    }

    /// Assigns a literal at the present level, by the clause whose number is the reason.
    pub fn imply(&mut self, lit: Lit, reason: u32)
        requires in_range { var_of lit ≤ self.old.vars }
        requires unassigned { value_of lit self.old.entries ≡ None }
        requires implied { 0 < reason }
        ensures trail { let implied : Entry = record { lit = lit; level = level_of self.old.entries; reason = reason } in self.new ≡ record { vars = self.old.vars; entries = self.old.entries ++ implied ∷ [] } }
        ensures ordered { IsTrail self.new.vars self.new.entries }
    {
        let level = self.level;
        self.signs[lit.var() as usize] = Some(lit.is_positive());
        self.entries.push_reserved(Entry { lit, level, reason });
    }

    /// Takes back the entries of the levels above this one.
    pub fn back_to(&mut self, level: u32)
        requires { level ≤ level_of self.old.entries }
        ensures vars { self.new.vars ≡ self.old.vars }
        ensures kept { self.new.entries ≡ filter (λ e. nat_le e.level level) self.old.entries }
        ensures front { self.new.entries ≡ take (length self.new.entries) self.old.entries }
        ensures level { level_of self.new.entries ≡ level }
    {
        'undo: while ends_above(&self.entries, level) {
            let last = self.entries.pop().unwrap();
            self.signs[last.lit.var() as usize] = None;
        }
        self.level = level;
    }

    /// The truth value of a literal, none where its variable is unassigned.
    pub fn value(&self, lit: Lit) -> Option<bool>
        requires { var_of lit ≤ self.now.vars }
        ensures { result ≡ value_of lit self.now.entries }
    {
        let sign = self.signs[lit.var() as usize]?;
        Some(sign == lit.is_positive())
    }

    /// The present level: how many decisions there are.
    pub fn level(&self) -> u32
        ensures level { result ≡ level_of self.now.entries }
        ensures levelled { IsLevelled self.now.entries }
        ensures ordered { IsTrail self.now.vars self.now.entries }
    {
        self.level
    }

    /// The number of entries.
    pub fn len(&self) -> usize
        ensures len { result ≡ length self.now.entries }
        ensures few { result ≤ self.now.vars + 1 }
        ensures ordered { IsTrail self.now.vars self.now.entries }
    {
        self.entries.len()
    }

    /// The entry at a place, counted from 0.
    pub fn entry(&self, index: usize) -> Entry
        requires { index < length self.now.entries }
        ensures { slice_get self.now.entries index ≡ Some result }
    {
        self.entries[index]
    }
}

// Whether the last entry is of a level above this one.
fn ends_above(entries: &[Entry], level: u32) -> bool
    ensures { result ≡ ends_above_test level entries.now }
{
    match entries.last() {
        Some(last) => last.level > level,
        None => false,
    }
}
