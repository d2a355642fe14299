//! One clause by its shape, and its literals.
ghost use Rattle.std.specs.Prelude.{◌≡◌, ◌<◌, ◌≤◌, ◌^◌, ◌+◌, ◌∷◌, IfOk};
ghost use Rattle.placement_clauses.specs.Upto.{upto};
ghost use Rattle.placement_clauses.specs.Number.{minus, row_var};
ghost use Rattle.placement_clauses.specs.Shape.{any_of};
ghost use Rattle.placement_clauses.specs.Clauses.{reach_lit};
ghost use Rattle.clause_encode.specs.Shapes.{lits_of, IsShape};

use crate::reaching::reaches;
use crate::variable_numbers::{negative, positive, row_var};
use clause_base::Lit;
use io_base::OutOfMemory;
use mcu_jumps::Kind;
use smallvec::SmallVec;
use std::alloc::Global;

/// One clause by its shape. Its literals are written out where they are wanted, so that finding a clause takes no
/// memory.
#[derive(Clone, Copy)]
pub(crate) enum ClauseShape {
    /// One literal.
    One(Lit),
    /// Two literals.
    Two(Lit, Lit),
    /// Three literals.
    Three(Lit, Lit, Lit),
    /// Some variable of a run is true: how many there are, and the first.
    AnyOf(u32, u32),
    /// Where the label that is named first is in a row, the other is in a row that a jump of the statement reaches
    /// from there.
    Reach(Kind, u32, u32, u32),
}

// Some variable of a run is true.
fn any_lits(alloc: Global, count: u32, first: u32) -> Result<SmallVec<Lit, 8>, OutOfMemory>
    requires first { 0 < first }
    requires room { first + count ≤ 2 ^ 31 }
    ensures { IfOk result (λ lits. lits.items ≡ any_of count first) }
{
    let mut lits = SmallVec::new(alloc);
    for k in 0..count {
        lits.push(positive(first + k))?;
    }
    Ok(lits)
}

// Not this row of a label, or a row of another label that is reached from it.
fn reach_lits(
    alloc: Global,
    kind: Kind,
    source: u32,
    target: u32,
    row: u32,
) -> Result<SmallVec<Lit, 8>, OutOfMemory>
    requires source { source < 512 }
    requires target { target < 512 }
    requires row { row < 32 }
    ensures { IfOk result (λ lits. lits.items ≡ minus (row_var source row) ∷ upto 32 (reach_lit kind target row)) }
{
    let first = row_var(target, 0);
    let mut lits = SmallVec::new(alloc);
    lits.push(negative(row_var(source, row)))?;
    for to in 0..32 {
        if reaches(kind, row, to) {
            lits.push(positive(first + to))?;
        }
    }
    Ok(lits)
}

impl ClauseShape {
    /// The literals, of which eight lie in place: more than most clauses have. Only clauses over many rows or columns
    /// take memory.
    pub(crate) fn lits(self, alloc: Global) -> Result<SmallVec<Lit, 8>, OutOfMemory>
        requires { IsShape self }
        ensures { IfOk result (λ lits. lits.items ≡ lits_of self) }
    {
        match self {
            ClauseShape::One(a) => Ok(SmallVec::from_slice(alloc, &[a])?),
            ClauseShape::Two(a, b) => Ok(SmallVec::from_slice(alloc, &[a, b])?),
            ClauseShape::Three(a, b, c) => Ok(SmallVec::from_slice(alloc, &[a, b, c])?),
            ClauseShape::AnyOf(count, first) => any_lits(alloc, count, first),
            ClauseShape::Reach(kind, source, target, row) => {
                reach_lits(alloc, kind, source, target, row)
            }
        }
    }
}
