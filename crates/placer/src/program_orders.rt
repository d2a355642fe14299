//! The two orders of decision for the clauses of a program (this project's own choice).

use crate::label_ties::{CELL_VARS, ROW_VARS, Ranked, Tier, Ties};
use crate::order::Order;
use crate::turns::Turns;
use clause_base::{ClauseList, Lit};
use io_base::OutOfMemory;
use std::alloc::Global;

// How many clauses the first class has for each label, and the second for each two labels.
const CELL_CLAUSES: u32 = 618;

const PAIR_CLAUSES: u32 = 48;

// Adds the negative literals of the variables after `first` and up to `last`.
fn add_vars(lits: &mut Vec<Lit>, first: u32, last: u32) -> Result<(), OutOfMemory> {
    for index in first..last {
        if let Ok(var) = i32::try_from(index) {
            if let Some(lit) = Lit::new(-var - 1) {
                lits.push(lit)?;
            }
        }
    }
    Ok(())
}

// Adds the rows of a label.
fn add_rows(lits: &mut Vec<Lit>, label: u32) -> Result<(), OutOfMemory> {
    let before = label.saturating_mul(CELL_VARS);
    add_vars(lits, before, before.saturating_add(ROW_VARS))
}

// Adds the columns of a label.
fn add_columns(lits: &mut Vec<Lit>, label: u32) -> Result<(), OutOfMemory> {
    let before = label.saturating_mul(CELL_VARS);
    let first = before.saturating_add(ROW_VARS);
    add_vars(lits, first, before.saturating_add(CELL_VARS))
}

// Label by label its cell.
fn by_cells(alloc: Global, labels: &[Ranked]) -> Result<Vec<Lit>, OutOfMemory> {
    let mut lits = Vec::new(alloc);
    for ranked in labels {
        add_rows(&mut lits, ranked.label)?;
        add_columns(&mut lits, ranked.label)?;
    }
    Ok(lits)
}

// First the columns of the labels of which some is known, and then label by label the rest of the cell.
fn by_columns(alloc: Global, labels: &[Ranked]) -> Result<Vec<Lit>, OutOfMemory> {
    let mut lits = Vec::new(alloc);
    for ranked in labels {
        if ranked.tier != Tier::Open {
            add_columns(&mut lits, ranked.label)?;
        }
    }
    for ranked in labels {
        add_rows(&mut lits, ranked.label)?;
        if ranked.tier == Tier::Open {
            add_columns(&mut lits, ranked.label)?;
        }
    }
    Ok(lits)
}

// How many clauses the first two classes have.
fn cell_clauses(labels: u16) -> u32 {
    let count = u32::from(labels);
    let pairs = count.saturating_mul(count.saturating_sub(1)) / 2;
    pairs
        .saturating_mul(PAIR_CLAUSES)
        .saturating_add(count * CELL_CLAUSES)
}

/// The orders of decision for the clauses of a program with so many labels.
///
/// Labels come by how much is fixed of their columns: those with a fixed column, then those whose column is tied to an
/// instruction's, then the others. Among these the next is the one that shares most clauses from the third class on
/// with those before it, and then the one of the least number. The first order has label by label the rows and then
/// the columns; the second first has the columns of labels that are fixed or tied. After the cells both have the other
/// variables by number.
pub(crate) fn turns_of(
    alloc: Global,
    list: &ClauseList,
    labels: u16,
) -> Result<Turns, OutOfMemory> {
    let ties = Ties::of(alloc, list, cell_clauses(labels), labels)?;
    let ranked = ties.in_order(alloc)?;
    let vars = list.vars();
    let cells = u32::from(labels) * CELL_VARS;
    let mut first = by_cells(alloc, &ranked)?;
    add_vars(&mut first, cells, vars)?;
    let mut second = by_columns(alloc, &ranked)?;
    add_vars(&mut second, cells, vars)?;
    Ok(Turns::of(
        Order::of(alloc, first, vars)?,
        Order::of(alloc, second, vars)?,
    ))
}
