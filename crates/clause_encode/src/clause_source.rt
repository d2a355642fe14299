//! Clauses that are asked for by their numbers.
ghost use Rattle.std.specs.Prelude.{◌≡◌, ◌<◌, ◌≤◌, ◌+◌, ◌^◌, ℕ, length, IfOk, OnErr};
ghost use Rattle.clause_base.specs.Clauses.{Clauses, IsClause};
ghost use Rattle.clause_base.specs.Truth.{IsNumbered};
ghost use Rattle.clause_encode.specs.Given.{AreGivable};

use clause_base::Lit;
use io_base::OutOfMemory;
use smallvec::SmallVec;
use std::alloc::Global;

/// A numbered list of clauses that gives one at a time and counts the literals that it gives.
///
/// The list never changes, and the count never falls.
pub trait ClauseSource {
    /// The clauses, and the number of variables that they are over.
    ghost list: { Self → Clauses };

    /// How many literals were given.
    ghost given: { Self → ℕ };

    /// The number of variables.
    fn vars(&self) -> u32
        ensures value { result ≡ (list self.now).vars }
        ensures givable { AreGivable (list self.now) };

    /// The number of clauses.
    fn len(&self) -> u32
        ensures { result ≡ length (list self.now).clauses };

    /// The clause of that number, which counts from 1. Up to eight literals lie in place, so that most clauses take no
    /// memory. It fails only for want of memory.
    fn clause(&mut self, alloc: Global, number: u32) -> Result<SmallVec<Lit, 8>, OutOfMemory>
        requires number { (0 < number) × (number ≤ length (list self.old).clauses) }
        requires few { given self.old < 2 ^ 120 }
        ensures clause { IfOk result (λ lits. IsNumbered (list self.old).clauses number lits.items) }
        ensures valid { IfOk result (λ lits. IsClause (list self.old).vars lits.items) }
        ensures short { IfOk result (λ lits. length lits.items < 2 ^ 32) }
        ensures counted { IfOk result (λ lits. given self.new ≡ given self.old + length lits.items) }
        ensures not_counted { OnErr result (given self.new ≡ given self.old) }
        ensures same { list self.new ≡ list self.old };
}
