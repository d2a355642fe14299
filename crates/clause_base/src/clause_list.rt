//! A list of clauses on one flat pool of literals.

ghost use Rattle.std.specs.Prelude.{◌≡◌, ◌<◌, ◌≤◌, ◌-◌, ◌+◌, ◌^◌, [], ◌∷◌, ◌++◌, length, IfOk, OnOk, OnErr, slice_get, slice_index, slice_range, Some, All};
ghost use Rattle.clause_base.specs.Clauses.{Clauses, IsClause};

use crate::Lit;
use io_base::OutOfMemory;
use std::alloc::Global;
use std::marker::Model;

/// Clauses over the variables 1 to `vars`, numbered from 1. No clause holds a literal twice.
///
/// The literals of all clauses lie one after another in `lits`. Clause n takes those from its start, which
/// is `starts[n - 1]`, to the next start; the last start is the end of the pool.
#[derive(Drop)]
pub struct ClauseList {
    vars: u32,
    lits: Vec<Lit>,
    starts: Vec<u32>,
}

impl Model for ClauseList {
    ghost use Rattle.clause_base.specs.Clauses.{Clauses};

    ghost Value = { Clauses };

    ghost use Rattle.clause_base.specs.Pool.{clauses_of, IsPool};

    ghost view = { clauses_of };

    ghost invariant = { IsPool };
}

impl ClauseList {
    /// A list with no clause.
    pub fn new(alloc: Global, vars: u32) -> Result<ClauseList, OutOfMemory>
        requires { vars < 2 ^ 31 }
        ensures { IfOk result (λ list. list ≡ record { vars = vars; clauses = [] }) }
    {
        let starts = vec![in alloc; 0]?;
        Ok(ClauseList {
            vars,
            lits: Vec::new(alloc),
            starts,
        })
    }

    /// Adds a clause at the end. The pool holds fewer than 2^32 literals; a clause that would pass this
    /// finds no memory. After a refusal the list is as before.
    pub fn add(&mut self, clause: &[Lit]) -> Result<(), OutOfMemory>
        requires few { length self.old.clauses < 2 ^ 32 - 1 }
        requires valid { IsClause self.old.vars clause.now }
        ensures ok { OnOk result (self.new ≡ record { vars = self.old.vars; clauses = self.old.clauses ++ clause.now ∷ [] }) }
        ensures err { OnErr result (self.new ≡ self.old) }
    {
        let end = self.lits.len() + clause.len();
        if end > u32::MAX as usize {
            return Err(OutOfMemory);
        }
        self.starts.reserve(1)?;
        self.lits.extend_from_slice(clause)?;
        self.starts.push_reserved(end as u32);
        Ok(())
    }

    /// The clause of that number, which counts from 1.
    pub fn get(&self, number: u32) -> &[Lit]
        requires { (0 < number) × (number ≤ length self.now.clauses) }
        ensures clause { slice_get self.now.clauses (number - 1) ≡ Some result.now }
        ensures valid { IsClause self.now.vars result.now }
    {
        piece(&self.lits, &self.starts, number as usize - 1)
    }

    /// The number of clauses.
    pub fn len(&self) -> u32
        ensures { result ≡ length self.now.clauses }
    {
        (self.starts.len() - 1) as u32
    }

    /// The number of variables.
    pub fn vars(&self) -> u32
        ensures value { result ≡ self.now.vars }
        ensures few { result < 2 ^ 31 }
        ensures valid { All (IsClause self.now.vars) self.now.clauses }
    {
        self.vars
    }
}

// The literals from one start to the next.
fn piece<'a>(lits: &'a [Lit], starts: &[u32], index: usize) -> &'a [Lit]
    requires within { index + 1 < length starts.now }
    requires ordered { slice_index starts.now index ≤ slice_index starts.now (index + 1) }
    requires ends { slice_index starts.now (index + 1) ≤ length lits.now }
    ensures { result.now ≡ slice_range lits.now (slice_index starts.now index) (slice_index starts.now (index + 1)) }
{
    let start = starts[index] as usize;
    let end = starts[index + 1] as usize;
    &lits[start..end]
}
