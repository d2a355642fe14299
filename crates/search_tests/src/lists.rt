//! Literals of their numbers, and lists of clauses of them.

ghost use Rattle.std.specs.Prelude.{◌≤◌, IfOk};
ghost use Rattle.clause_base.specs.Lit.{var_of};

use clause_base::{ClauseList, Lit};
use std::alloc::Global;
use std::test::Fail;

/// The literal of that number, of one of these variables.
pub fn literal(value: i32, vars: u32) -> Result<Lit, Fail>
    ensures { IfOk result (λ lit. var_of lit ≤ vars) }
{
    let lit = Lit::new(value).ok_or("no literal")?;
    if lit.var() > vars {
        return Err(Fail::from("no variable of the list"));
    }
    Ok(lit)
}

// Adds a clause of three literals.
fn add_three(list: &mut ClauseList, values: [i32; 3]) -> Result<(), Fail> {
    let vars = list.vars();
    if list.len() == u32::MAX {
        return Err(Fail::from("the list is full"));
    }
    let first = literal(values[0], vars)?;
    let second = literal(values[1], vars)?;
    let third = literal(values[2], vars)?;
    if first == second || first == third || second == third {
        return Err(Fail::from("a literal comes twice"));
    }
    list.add(&[first, second, third])?;
    Ok(())
}

// Adds a clause of one to three literals.
fn add(list: &mut ClauseList, values: &[i32]) -> Result<(), Fail> {
    let vars = list.vars();
    if list.len() == u32::MAX {
        return Err(Fail::from("the list is full"));
    }
    match values {
        [one] => list.add(&[literal(*one, vars)?])?,
        [one, two] => {
            let first = literal(*one, vars)?;
            let second = literal(*two, vars)?;
            if first == second {
                return Err(Fail::from("a literal comes twice"));
            }
            list.add(&[first, second])?;
        }
        [one, two, three] => add_three(list, [*one, *two, *three])?,
        _ => return Err(Fail::from("no literal, or more than three")),
    }
    Ok(())
}

/// A list of clauses of one to three literals, over at most 1,000 variables.
pub fn list_of(alloc: Global, vars: u32, clauses: &[&[i32]]) -> Result<ClauseList, Fail> {
    if vars > 1000 {
        return Err(Fail::from("more than a thousand variables"));
    }
    let mut list = ClauseList::new(alloc, vars)?;
    for clause in clauses {
        add(&mut list, clause)?;
    }
    Ok(list)
}

/// Whether a list has a clause of that number, and it has these literals.
pub fn is_clause(list: &ClauseList, number: u32, values: &[i32]) -> bool {
    if number == 0 || number > list.len() {
        return false;
    }
    are_literals(list.get(number), values)
}

/// Whether literals have these numbers, in this order.
pub fn are_literals(lits: &[Lit], values: &[i32]) -> bool {
    lits.len() == values.len()
        && lits
            .iter()
            .zip(values)
            .all(|(lit, value)| lit.value() == *value)
}
