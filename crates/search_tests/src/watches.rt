//! Boards of clauses of three literals, which go on from one watched literal to another.

ghost use Rattle.std.specs.Prelude.{◌≡◌, ◌≢◌, ◌≤◌, [], ◌∷◌, IfOk};
ghost use Rattle.clause_base.specs.Lit.{var_of};
ghost use Rattle.propagate.specs.Propagation.{Ends};

use crate::boards::{board_of, decide};
use crate::lists::literal;
use clause_base::{ClauseList, Lit};
use propagate::{Board, Settled};
use std::alloc::Global;
use std::test::Fail;

/// Clauses, decisions, the level to go back to, further decisions, and how many literals are assigned in the end,
/// or none where a clause is false.
const RUNS: [(&[&[i32]], &[i32], u32, &[i32], Option<usize>); 5] = [
    // After the return other literals become false, in another order.
    (&[&[1, 2, 3]], &[-1, -2], 0, &[-3, -2], Some(3)),
    // The return goes over two levels.
    (&[&[1, 2, 3]], &[-1, 4, -2], 1, &[-3], Some(3)),
    (&[&[-1, 2], &[-2, -3, 4]], &[3, -4], 0, &[1, 3], Some(4)),
    // A clause that holds a literal and its negation is never unit or false.
    (&[&[1, -1, 2], &[-2, 3, 2]], &[1, -2], 0, &[-1, 2], Some(2)),
    (&[&[1, 2, 3], &[1, 2, -3]], &[-1], 0, &[-2, -1], None),
];

// Settles a board after each of these decisions, up to a clause that is false.
fn decide_all(board: &mut Board, values: &[i32]) -> Result<Settled, Fail>
    ensures { IfOk result (λ settled. Ends board.new settled) }
{
    let mut settled = board.settle()?;
    for value in values {
        if settled != Settled::Done {
            return Ok(settled);
        }
        settled = decide(board, *value)?;
    }
    Ok(settled)
}

// How many literals are assigned after decisions, a return and further decisions.
fn assigned_after(
    board: &mut Board,
    before: &[i32],
    back: u32,
    after: &[i32],
) -> Result<Option<usize>, Fail> {
    if decide_all(board, before)? != Settled::Done {
        return Err("a conflict came early".into());
    }
    if back > board.trail().level() {
        return Err("no such level".into());
    }
    board.back_to(back);
    Ok(match decide_all(board, after)? {
        Settled::Done => Some(board.trail().len()),
        Settled::Conflict(_) => None,
    })
}

#[test]
fn decisions_and_returns(rt: HostRuntime) -> Result<(), Fail> {
    for (clauses, before, back, after, assigned) in &RUNS {
        let mut board = board_of(rt, clauses)?;
        assert!(rt;
            assigned_after(&mut board, before, *back, after)? == *assigned,
            "{before:?} {after:?}"
        );
    }
    Ok(())
}

// Decides the negations of two literals of the one clause of a board, before the board settles.
fn decide_unsettled(board: &mut Board, first: Lit, second: Lit, third: Lit)
    requires clause { board.old.list.clauses ≡ (first ∷ second ∷ third ∷ []) ∷ [] }
    requires nothing { board.old.trail.entries ≡ [] }
    requires in_range { (var_of first ≤ board.old.trail.vars) × (var_of third ≤ board.old.trail.vars) }
    requires apart { (var_of first ≢ var_of second) × (var_of first ≢ var_of third) }
{
    board.decide(first.negated());
    board.decide(third.negated());
}

// A board of the clause of the literals 1, 2 and 3, where -1 and -3 are decided and nothing has been implied.
fn unsettled(alloc: Global) -> Result<Board, Fail> {
    let mut list = ClauseList::new(alloc, 4)?;
    let first = literal(1, 4)?;
    let second = literal(2, 4)?;
    let third = literal(3, 4)?;
    if first.var() == second.var() || first.var() == third.var() || second.var() == third.var() {
        return Err("a variable comes twice".into());
    }
    list.add(&[first, second, third])?;
    let mut board = Board::new(alloc, list)?;
    decide_unsettled(&mut board, first, second, third);
    Ok(board)
}

// How many literals are assigned after a return to level 1 and one more decision.
fn assigned_instead(board: &mut Board, value: i32) -> Result<Option<usize>, Fail> {
    if board.trail().level() == 0 {
        return Err("no level".into());
    }
    board.back_to(1);
    Ok(match decide_all(board, &[value])? {
        Settled::Done => Some(board.trail().len()),
        Settled::Conflict(_) => None,
    })
}

// Two decisions come before the board settles, and one of them is replaced: the clause is looked at both times.
#[test]
fn decisions_before_propagation(rt: HostRuntime) -> Result<(), Fail> {
    let mut board = unsettled(rt.alloc())?;
    assert!(rt; board.settle()? == Settled::Done);
    assert!(rt; board.trail().len() == 3);
    assert!(rt; assigned_instead(&mut board, -2)? == Some(3));
    Ok(())
}
