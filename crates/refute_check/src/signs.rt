//! The literals that hold while a line is judged, with a table of the signs of their variables.

ghost use Rattle.std.specs.Prelude.{◌≡◌, ℕ, ◌<◌, ◌≤◌, ◌^◌, ◌+◌, [], ◌∷◌, ◌++◌, All, slice_index_or, None, Some, IfOk, OnOk, OnErr, length};
ghost use Rattle.clause_base.specs.Lit.{var_of};
ghost use Rattle.clause_base.specs.Truth.{sign_in, value_in};
ghost use Rattle.refute_check.specs.Held.{Held};

use clause_base::Lit;
use std::alloc::{AllocError, Global};
use std::marker::Model;

/// Literals that hold, in order. Taking them back costs one step for each that holds.
#[derive(Drop)]
pub struct Signs {
    vars: u32,
    held: Vec<Lit>,
    signs: Vec<Option<bool>>,
}

impl Model for Signs {
    ghost use Rattle.refute_check.specs.Held.{Held};

    ghost Value = { Held };

    ghost use Rattle.refute_check.specs.Kept.{held_of, IsKept};

    ghost view = { held_of };

    ghost invariant = { IsKept };
}

impl Signs {
    /// No literal holds, of the variables 1 to `vars`.
    pub fn new(alloc: Global, vars: u32) -> Result<Signs, AllocError>
        requires { vars < 2 ^ 31 }
        ensures { IfOk result (λ t. t ≡ record { vars = vars; held = [] }) }
    {
        let signs = vec![in alloc; None; vars as usize + 1]?;
        Ok(Signs {
            vars,
            held: Vec::new(alloc),
            signs,
        })
    }

    /// The truth value of a literal, none where neither it nor its negation holds.
    pub fn value(&self, lit: Lit) -> Option<bool>
        requires { var_of lit ≤ self.now.vars }
        ensures { result ≡ value_in lit self.now.held }
    {
        match self.signs[lit.var() as usize] {
            Some(sign) => Some(if lit.is_positive() { sign } else { !sign }),
            None => None,
        }
    }

    /// The literal holds too. After a refusal nothing has changed.
    pub fn hold(&mut self, lit: Lit) -> Result<(), AllocError>
        requires range { var_of lit ≤ self.old.vars }
        requires free { value_in lit self.old.held ≡ None }
        ensures vars { self.new.vars ≡ self.old.vars }
        ensures ok { OnOk result (self.new.held ≡ self.old.held ++ lit ∷ []) }
        ensures err { OnErr result (self.new.held ≡ self.old.held) }
    {
        self.held.push(lit)?;
        self.signs[lit.var() as usize] = Some(lit.is_positive());
        Ok(())
    }

    /// No literal holds any more.
    pub fn clear(&mut self)
        ensures vars { self.new.vars ≡ self.old.vars }
        ensures held { self.new.held ≡ [] }
    {
        unmark(&mut self.signs, &self.held);
        self.held.clear();
    }
}

// Takes the signs of these literals away.
fn unmark(signs: &mut [Option<bool>], lits: &[Lit])
    requires within { All (λ z. var_of z < length signs.old) lits.now }
    requires told { (v : ℕ) → v < length signs.old → slice_index_or signs.old v None ≡ sign_in v lits.now }
    ensures len { length signs.new ≡ length signs.old }
    ensures none { (v : ℕ) → v < length signs.old → slice_index_or signs.new v None ≡ None }
{
    for lit in lits {
        signs[lit.var() as usize] = None;
    }
}
