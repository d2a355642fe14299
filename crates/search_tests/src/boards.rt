//! Boards of a few clauses, settled, decided on and taken back.

ghost use Rattle.std.specs.Prelude.{IfOk};
ghost use Rattle.clause_base.specs.Truth.{lits_of, AreSettled};
ghost use Rattle.propagate.specs.Propagation.{Ends};

use crate::lists::{list_of, literal};
use io_base::OutOfMemory;
use propagate::{Board, Settled};
use std::test::Fail;

/// A board of clauses of one to three literals over four variables.
pub fn board_of(rt: HostRuntime, clauses: &[&[i32]]) -> Result<Board, Fail> {
    let list = list_of(rt.alloc(), 4, clauses)?;
    Ok(Board::new(rt.alloc(), list)?)
}

/// Clauses, and how many literals propagation alone assigns, or none where it finds a false clause.
const BOARDS: [(&[&[i32]], Option<usize>); 6] = [
    (&[], Some(0)),
    (&[&[3, -2], &[2, -1], &[1]], Some(3)),
    (&[&[1, 2], &[-1, 2], &[1, -2], &[-1, -2]], Some(0)),
    (&[&[1], &[-1]], None),
    (&[&[1, 2], &[-1], &[-2, 3], &[-2, -3]], None),
    // A clause that holds a literal and its negation is never unit or false.
    (&[&[1, -1], &[2, -2], &[1]], Some(1)),
];

// How many literals are assigned when the board settles.
fn assigned_alone(board: &mut Board) -> Result<Option<usize>, OutOfMemory> {
    Ok(match board.settle()? {
        Settled::Done => Some(board.trail().len()),
        Settled::Conflict(_) => None,
    })
}

#[test]
fn propagation_alone(rt: HostRuntime) -> Result<(), Fail> {
    for (clauses, assigned) in &BOARDS {
        let mut board = board_of(rt, clauses)?;
        assert!(rt; assigned_alone(&mut board)? == *assigned);
    }
    Ok(())
}

/// Decides a literal on a settled board and settles it again.
pub fn decide(board: &mut Board, value: i32) -> Result<Settled, Fail>
    requires { AreSettled (lits_of board.old.trail.entries) board.old.list.clauses }
    ensures { IfOk result (λ settled. Ends board.new settled) }
{
    let lit = literal(value, board.list().vars())?;
    if board.trail().value(lit).is_some() {
        return Err("the variable is assigned".into());
    }
    board.decide(lit);
    let settled = board.settle()?;
    Ok(settled)
}

/// Clauses whose first two decisions, 1 and 2, lead to a conflict.
const CONFLICT: &[&[i32]] = &[&[-2, 3], &[-3, 4], &[-3, -4]];

// Whether this many literals are assigned at this level.
fn stands_at(board: &Board, level: u32, assigned: usize) -> bool {
    board.trail().level() == level && board.trail().len() == assigned
}

// A board on which two decisions led to a conflict.
fn board_in_conflict(rt: HostRuntime) -> Result<Board, Fail> {
    let mut board = board_of(rt, CONFLICT)?;
    if board.settle()? != Settled::Done || decide(&mut board, 1)? != Settled::Done {
        return Err("a conflict came early".into());
    }
    match decide(&mut board, 2)? {
        Settled::Done => Err("no conflict".into()),
        Settled::Conflict(_) => Ok(board),
    }
}

// Learns a clause of one literal at level 0, and answers whether it is true once the board is settled again.
fn learn_alone(board: &mut Board, value: i32) -> Result<bool, Fail> {
    board.back_to(0);
    let learned = literal(value, board.list().vars())?;
    if board.list().len() == u32::MAX {
        return Err("the list is full".into());
    }
    board.learn(&[learned])?;
    let settled = board.settle()?;
    Ok(settled == Settled::Done && board.trail().value(learned) == Some(true))
}

// After a return to level 0 a clause is learned, and it is unit there.
#[test]
fn conflict_and_return(rt: HostRuntime) -> Result<(), Fail> {
    let mut board = board_in_conflict(rt)?;
    assert!(rt; board.trail().level() == 2);
    assert!(rt; learn_alone(&mut board, -3)?);
    assert!(rt; stands_at(&board, 0, 2));
    assert!(rt; board.list().len() == 4);
    Ok(())
}

// Learns the clause of no literal at level 0, and tells how the board settles then.
fn settled_after_nothing(board: &mut Board) -> Result<Settled, Fail> {
    board.back_to(0);
    if board.list().len() == u32::MAX {
        return Err("the list is full".into());
    }
    board.learn(&[])?;
    Ok(board.settle()?)
}

#[test]
fn clause_of_no_literal(rt: HostRuntime) -> Result<(), Fail> {
    let mut board = board_in_conflict(rt)?;
    assert!(rt; settled_after_nothing(&mut board)? == Settled::Conflict(4));
    Ok(())
}

// Settles a board. Where it finds no memory, what it implied so far stands, and it goes on from there.
fn settle_on(board: &mut Board) -> Result<Settled, Fail> {
    if let Ok(settled) = board.settle() {
        return Ok(settled);
    }
    Ok(board.settle()?)
}

/// Clauses that imply four literals. The first watches another literal once 1 is true.
const CHAIN: &[&[i32]] = &[&[-1, 2, 3], &[1], &[-2], &[-3, 4]];

// With ample memory the board settles at once. Where an allocation fails in its first call, the second ends alike.
#[test]
fn settling_goes_on_after_want_of_memory(rt: HostRuntime) -> Result<(), Fail> {
    let mut board = board_of(rt, CHAIN)?;
    assert!(rt; settle_on(&mut board)? == Settled::Done);
    assert!(rt; stands_at(&board, 0, 4));
    Ok(())
}
