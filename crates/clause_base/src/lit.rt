//! A literal, and a list of literals.

ghost use Rattle.std.specs.Prelude.{◌≡◌, ◌<◌, ◌^◌, neg_ℤ, SomeIff};
ghost use Rattle.clause_base.specs.Lit.{IsLit, var_of, is_positive};

use io_base::Listed;
use std::marker::Model;

/// A literal: the number of a variable, with a minus sign where it is negated. Variables count from 1.
#[derive(Clone, Copy, PartialEq, Eq, Debug)]
pub struct Lit {
    value: i32,
}

impl Model for Lit {
    ghost use Rattle.std.specs.Prelude.{ℤ};
    ghost use Rattle.clause_base.specs.Lit.{IsLit};

    ghost Value = { ℤ };

    ghost view = { λ l. l.value };

    ghost invariant = { λ l. IsLit l.value };

    ghost inverse = { λ z. record { value = z } };
}

impl Lit {
    /// The literal of that number; None for 0, which names no variable, and the least `i32`, which has no negation.
    pub fn new(value: i32) -> Option<Lit>
        ensures { SomeIff result (IsLit value) value }
    {
        if value == 0 || value == i32::MIN {
            None
        } else {
            Some(Lit { value })
        }
    }

    /// The number that it was made of.
    pub fn value(self) -> i32
        ensures value { result ≡ self }
        ensures literal { IsLit result }
    {
        self.value
    }

    /// The number of its variable.
    pub fn var(self) -> u32
        ensures value { result ≡ var_of self }
        ensures above { 0 < result }
        ensures below { result < 2 ^ 31 }
    {
        self.value.unsigned_abs()
    }

    /// Whether it has no minus sign.
    pub fn is_positive(self) -> bool
        ensures { result ≡ is_positive self }
    {
        self.value > 0
    }

    /// The literal of the other sign.
    pub fn negated(self) -> Lit
        ensures { result ≡ neg_ℤ self }
    {
        Lit { value: -self.value }
    }
}

impl Default for Lit {
    ghost use Rattle.std.specs.Prelude.{◌≡◌, pos};

    ghost is_default = { λ lit. lit ≡ pos 1 };

    /// Variable 1 with no minus sign, which fills the unused places of a list that is kept in place.
    fn default() -> Lit {
        Lit { value: 1 }
    }
}

/// Literals in order, as those of a clause.
pub type Lits = Listed<Lit>;
