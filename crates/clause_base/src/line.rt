//! The lines of a refutation, and the log of a search, which is a list of them.

use crate::Lits;
use io_base::Listed;

/// Numbers of clauses, counted from 1: those of the list first, then one for each line.
pub type Numbers = Listed<u32>;

/// A clause, and the numbers of the clauses that it is derived from, in the order of the derivation.
#[derive(Drop)]
pub struct Line {
    /// What is derived. A clause without a literal is false.
    pub clause: Lits,
    /// The numbers. In a derived line each but the last is of a clause that is unit when its turn comes, and the last
    /// of a clause that is false then.
    pub hints: Numbers,
}

/// Lines in order.
pub type Log = Listed<Line>;
