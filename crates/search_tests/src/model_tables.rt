//! Truth values for tests, and whether they make every clause true.
ghost use Rattle.std.specs.Prelude.{◌≡◌, ◌≤◌, All, IsTrue, length};
ghost use Rattle.std.specs.List.{list_any};
ghost use Rattle.clause_base.specs.Lit.{var_of};
ghost use Rattle.clause_base.specs.TruthValues.{lit_holds, AllHold, truth_in};

use clause_base::{ClauseList, Lit, Truths};
use clause_encode::{encode, place_of};
use flow_graph::Program;
use place_model::Placement;
use std::alloc::Global;
use std::test::Fail;

// Whether a literal is true.
fn is_true(lit: Lit, values: &[bool]) -> bool
    requires { var_of lit ≤ length values.now }
    ensures { result ≡ lit_holds (truth_in values.now) lit }
{
    values[lit.var() as usize - 1] == lit.is_positive()
}

// Whether some literal of a clause is true.
fn holds(clause: &[Lit], values: &[bool]) -> bool
    requires { All (λ z. var_of z ≤ length values.now) clause.now }
    ensures { result ≡ list_any (lit_holds (truth_in values.now)) clause.now }
{
    clause.iter().any(|lit| is_true(*lit, values))
}

// Whether values make every clause of a list true.
fn all_hold(list: &ClauseList, values: &[bool]) -> bool
    requires { length values.now ≡ list.now.vars }
    ensures { IsTrue result → AllHold (truth_in values.now) list.now.clauses }
{
    for place in 0..list.len() {
        if holds(list.get(place + 1), values) {
            continue;
        }
        return false;
    }
    true
}

/// The placement that values stand for, where they make every clause of the program true.
pub fn placed(alloc: Global, program: &Program, model: &Truths) -> Result<Placement, Fail> {
    let list = encode(alloc, program)?;
    let values = model.as_slice();
    if values.len() != list.vars() as usize {
        return Err(Fail::from("a value for each variable"));
    }
    if all_hold(&list, values) {
        let placement = place_of(alloc, program, model)?;
        return Ok(placement);
    }
    Err(Fail::from("values that make every clause true"))
}
