//! The line that is learned from a conflict, and the return to the level that it names.

ghost use Rattle.std.specs.Prelude.{◌≡◌, ◌≢◌, ◌<◌, ◌^◌, ◌+◌, ◌-◌, [], length, replicate, false, IfOk, OnOk};
ghost use Rattle.clause_base.specs.Refutation.{Derived};
ghost use Rattle.clause_base.specs.Spent.{IsNew};
ghost use Rattle.clause_base.specs.Truth.{lits_of, IsConflict};
ghost use Rattle.trail.specs.Assignment.{level_of};
ghost use Rattle.placer.specs.FirstPoint.{IsFirstPointClause};
ghost use Rattle.placer.specs.Learning.{Asserts};
ghost use Rattle.placer.specs.Marking.{ArePlaces};
ghost use Rattle.placer.specs.Progress.{Learns};
ghost use Rattle.placer.specs.Ready.{IsReady};

use crate::conflict_analysis::{back_of, close_marks, first_point, mark_clause, marked_line};
use crate::turns::Turns;
use crate::workspace::{Workspace, unmark};
use clause_base::{Line, Numbers};
use io_base::OutOfMemory;
use propagate::Board;
use std::alloc::Global;

/// What a conflict teaches.
#[derive(Drop)]
pub struct Learnt {
    /// The line that is learned.
    pub line: Line,
    /// The level to go back to before it is learned, below that of the conflict.
    pub back: u32,
}

// What a conflict above level 0 teaches, by the places of variables on the trail and marks that are set nowhere yet.
fn learnt_by(
    alloc: Global,
    board: &Board,
    conflict: u32,
    places: &[usize],
    marks: &mut [bool],
) -> Result<Learnt, OutOfMemory>
    requires above { 0 < level_of board.now.trail.entries }
    requires conflict { IsConflict (lits_of board.now.trail.entries) board.now.list.clauses conflict }
    requires places { ArePlaces board.now.list.vars board.now.trail.entries places.now }
    requires blank { marks.old ≡ replicate (board.now.list.vars + 1) false }
    ensures derived { IfOk result (λ learnt. Derived board.now.list learnt.line) }
    ensures asserts { IfOk result (λ learnt. Asserts board.now.trail.entries learnt.line.clause learnt.back) }
    ensures first_point { IfOk result (λ learnt. IsFirstPointClause board.now.list.clauses board.now.trail.entries conflict learnt.line.clause) }
{
    let trail = board.trail();
    let point = first_point(board, conflict, places, marks);
    close_marks(board, places, point, marks);
    let line = marked_line(alloc, board, conflict, places, marks, point)?;
    let back = back_of(trail, places, point, line.clause.as_slice());
    Ok(Learnt { line, back })
}

/// What a conflict above level 0 teaches: a line that is derived from the board's list and new to it. Its
/// literals are false on the board, one of them at the present level and the others at most at `back`.
/// `conflict` is the number of the false clause, from 1.
pub fn analyse(alloc: Global, board: &Board, conflict: u32) -> Result<Learnt, OutOfMemory>
    requires above { 0 < level_of board.now.trail.entries }
    requires conflict { IsConflict (lits_of board.now.trail.entries) board.now.list.clauses conflict }
    ensures derived { IfOk result (λ learnt. Derived board.now.list learnt.line) }
    ensures full { IfOk result (λ learnt. learnt.line.clause ≢ []) }
    ensures new { IfOk result (λ learnt. IsNew board.now.list.clauses learnt.line.clause) }
    ensures asserts { IfOk result (λ learnt. Asserts board.now.trail.entries learnt.line.clause learnt.back) }
    ensures first_point { IfOk result (λ learnt. IsFirstPointClause board.now.list.clauses board.now.trail.entries conflict learnt.line.clause) }
{
    let mut workspace = Workspace::new(alloc, board)?;
    analyse_in(alloc, board, conflict, &mut workspace)
}

/// The same, on a workspace that is ready, and is ready again afterwards.
pub(crate) fn analyse_in(
    alloc: Global,
    board: &Board,
    conflict: u32,
    workspace: &mut Workspace,
) -> Result<Learnt, OutOfMemory>
    requires above { 0 < level_of board.now.trail.entries }
    requires conflict { IsConflict (lits_of board.now.trail.entries) board.now.list.clauses conflict }
    requires ready { IsReady board.now.list.vars board.now.trail.entries workspace.old }
    ensures derived { IfOk result (λ learnt. Derived board.now.list learnt.line) }
    ensures full { IfOk result (λ learnt. learnt.line.clause ≢ []) }
    ensures new { IfOk result (λ learnt. IsNew board.now.list.clauses learnt.line.clause) }
    ensures asserts { IfOk result (λ learnt. Asserts board.now.trail.entries learnt.line.clause learnt.back) }
    ensures first_point { IfOk result (λ learnt. IsFirstPointClause board.now.list.clauses board.now.trail.entries conflict learnt.line.clause) }
    ensures places { OnOk result (ArePlaces board.now.list.vars board.now.trail.entries workspace.new.places.items) }
    ensures blank { OnOk result (workspace.new.marks.items ≡ replicate (board.now.list.vars + 1) false) }
{
    // A proof learns here what the board keeps of its clauses and its trail.
    let _clauses = board.list();
    let _trail = board.trail();
    workspace.follow(board);
    let learnt = learnt_by(
        alloc,
        board,
        conflict,
        &workspace.places,
        &mut workspace.marks,
    )?;
    unmark(&mut workspace.marks);
    Ok(learnt)
}

// The line of a conflict at level 0, by the places of variables on the trail and marks that are set nowhere yet.
fn last_line_by(
    alloc: Global,
    board: &Board,
    conflict: u32,
    places: &[usize],
    marks: &mut [bool],
) -> Result<Line, OutOfMemory>
    requires level { level_of board.now.trail.entries ≡ 0 }
    requires conflict { IsConflict (lits_of board.now.trail.entries) board.now.list.clauses conflict }
    requires places { ArePlaces board.now.list.vars board.now.trail.entries places.now }
    requires blank { marks.old ≡ replicate (board.now.list.vars + 1) false }
    ensures empty { IfOk result (λ line. line.clause ≡ []) }
    ensures derived { IfOk result (λ line. Derived board.now.list line) }
{
    let trail = board.trail();
    let len = trail.len();
    mark_clause(places, board.list().get(conflict), marks);
    close_marks(board, places, len, marks);
    marked_line(alloc, board, conflict, places, marks, 0)
}

/// The line with no literal that a conflict at level 0 gives. It names the reasons that the conflict stands on.
pub(crate) fn last_line(alloc: Global, board: &Board, conflict: u32) -> Result<Line, OutOfMemory>
    requires level { level_of board.now.trail.entries ≡ 0 }
    requires conflict { IsConflict (lits_of board.now.trail.entries) board.now.list.clauses conflict }
    ensures empty { IfOk result (λ line. line.clause ≡ []) }
    ensures derived { IfOk result (λ line. Derived board.now.list line) }
{
    let mut workspace = Workspace::new(alloc, board)?;
    workspace.follow(board);
    last_line_by(
        alloc,
        board,
        conflict,
        &workspace.places,
        &mut workspace.marks,
    )
}

/// Learns from a conflict above level 0, after a return to the level that the line names. The board keeps the line's
/// clause, and `hints` its hints.
pub(crate) fn learn_from(
    alloc: Global,
    board: &mut Board,
    hints: &mut Vec<Numbers>,
    turns: &mut Turns,
    workspace: &mut Workspace,
    conflict: u32,
) -> Result<(), OutOfMemory>
    requires above { 0 < level_of board.old.trail.entries }
    requires conflict { IsConflict (lits_of board.old.trail.entries) board.old.list.clauses conflict }
    requires few { length board.old.list.clauses < 2 ^ 32 - 1 }
    requires ready { IsReady board.old.list.vars board.old.trail.entries workspace.old }
    ensures learns { OnOk result (Learns board.old board.new hints.old.items hints.new.items) }
    ensures ready { OnOk result (IsReady board.new.list.vars board.new.trail.entries workspace.new) }
{
    let learnt = analyse_in(alloc, board, conflict, workspace)?;
    turns.put_back_above(board.trail(), learnt.back);
    turns.count_conflict();
    board.back_to(learnt.back);
    workspace.keep(board.trail().len());
    let line = learnt.line;
    board.learn(line.clause.as_slice())?;
    hints.push(line.hints)?;
    Ok(())
}
