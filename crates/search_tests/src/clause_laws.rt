//! Laws of two worked examples of the definitions, and the happy path of a clause list.

ghost use Rattle.std.specs.Prelude.{[], ◌∷◌};
ghost use Rattle.clause_base.specs.Refutation.{Derived, Refutes};
ghost use Rattle.clause_base.specs.Spent.{Spent};
ghost use Rattle.clause_base.specs.Examples.{one_target_twice, every_pair, empty_line, decided_one};

use crate::lists::{is_clause, list_of};
use clause_base::ClauseList;
use std::test::Fail;

// One line refutes a test whose two outcomes name one label. Its hints count in their order: clause 2 is not unit
// while nothing holds.
fn two_outcomes_at_one_label()
    ensures refutes { Refutes one_target_twice (empty_line (1 ∷ 2 ∷ 3 ∷ 4 ∷ []) ∷ []) }
    ensures in_order { Derived one_target_twice (empty_line (2 ∷ 1 ∷ 3 ∷ 4 ∷ [])) → ⊥ }
{}

// Propagation alone decides nothing of the four clauses over two variables, and a first decision ends in a clash: so
// a budget of no line is spent.
fn clash_after_one_decision()
    ensures { Spent every_pair [] decided_one 0 }
{}

/// Clauses of one literal over 84 variables, in the order of their numbers from 1.
const CLAUSES: [&[i32]; 3] = [&[33], &[-84], &[1]];

// Whether the list begins with these clauses.
fn begins_with(list: &ClauseList, clauses: &[&[i32]]) -> bool {
    (1..)
        .zip(clauses)
        .all(|(number, values)| is_clause(list, number, values))
}

// Clauses of one literal and of none are read back by their numbers.
#[test]
fn clauses_are_read_back(rt: HostRuntime) -> Result<(), Fail> {
    let mut list = list_of(rt.alloc(), 84, &CLAUSES)?;
    assert!(rt; list.len() == 3);
    list.add(&[])?;
    assert!(rt; list.len() == 4);
    assert!(rt; begins_with(&list, &CLAUSES));
    assert!(rt; is_clause(&list, 4, &[]));
    Ok(())
}
