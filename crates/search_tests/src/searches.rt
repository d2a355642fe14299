//! Small lists and sources, and how their search ends.

ghost use Rattle.std.specs.Prelude.{◌<◌, IfOk};
ghost use Rattle.clause_base.specs.Truth.{lits_of, AreSettled};
ghost use Rattle.trail.specs.Assignment.{level_of};
ghost use Rattle.propagate.specs.Propagation.{Ends};

use crate::lists::{are_literals, list_of, literal};
use crate::programs::{ONE_INSTRUCTION, ONE_LABEL_TWICE, program_of};
use clause_base::ClauseList;
use clause_encode::clause_count;
use gen_case::make_case;
use place_model::legal;
use placer::{Learnt, Placed, Verdict, analyse, place, search};
use propagate::{Board, Settled};
use std::alloc::Global;
use std::test::Fail;

/// How a search ended.
#[derive(Clone, Copy, PartialEq, Eq, Debug)]
enum Ending {
    Model,
    Refuted,
    Undecided,
}

const EVERY_PAIR: &[&[i32]] = &[&[1, 2], &[-1, 2], &[1, -2], &[-1, -2]];

/// A number of variables, clauses over them, a budget, and how the search ends.
const LISTS: [(u32, &[&[i32]], u64, Ending); 8] = [
    (0, &[], 0, Ending::Model),
    (1, &[&[1], &[-1]], 0, Ending::Refuted),
    (2, EVERY_PAIR, 0, Ending::Undecided),
    (2, EVERY_PAIR, 9, Ending::Refuted),
    (2, &[&[1, 2], &[-1, 2]], 9, Ending::Model),
    // Propagation alone.
    (
        3,
        &[&[1, 2], &[-1], &[-2, 3], &[-2, -3]],
        0,
        Ending::Refuted,
    ),
    (3, &[&[3, -2], &[2, -1], &[1]], 0, Ending::Model),
    // A clause that holds a literal and its negation is never unit or false.
    (2, &[&[1, -1], &[2, -2], &[1, 2]], 9, Ending::Model),
];

// How the search of a small list with a small budget ends.
fn search_ending(alloc: Global, list: ClauseList, budget: u64) -> Option<Ending> {
    if list.len() >= 100 || budget >= 100 {
        return None;
    }
    match search(alloc, list, budget) {
        Ok(Verdict::Model(_)) => Some(Ending::Model),
        Ok(Verdict::Refuted(_)) => Some(Ending::Refuted),
        Ok(Verdict::Undecided(_, _)) => Some(Ending::Undecided),
        Err(_) => None,
    }
}

#[test]
fn small_lists(rt: HostRuntime) -> Result<(), Fail> {
    for (vars, clauses, budget, ending) in &LISTS {
        let list = list_of(rt.alloc(), *vars, clauses)?;
        assert!(rt;
            search_ending(rt.alloc(), list, *budget) == Some(*ending),
            "{vars} variables, budget {budget}"
        );
    }
    Ok(())
}

// Decides an unassigned variable, and settles the board.
fn settled_after(board: &mut Board, number: i32) -> Result<Settled, Fail>
    requires { AreSettled (lits_of board.old.trail.entries) board.old.list.clauses }
    ensures ends { IfOk result (λ settled. Ends board.new settled) }
    ensures above { IfOk result (λ settled. 0 < level_of board.new.trail.entries) }
{
    let lit = literal(number, board.list().vars())?;
    if board.trail().value(lit).is_some() {
        return Err(Fail::from("the variable is assigned"));
    }
    board.decide(lit);
    Ok(board.settle()?)
}

// What the conflict teaches that these decisions lead to.
fn taught(alloc: Global, board: &mut Board, decisions: &[i32]) -> Result<Learnt, Fail>
    requires { AreSettled (lits_of board.old.trail.entries) board.old.list.clauses }
{
    for number in decisions {
        match settled_after(board, *number)? {
            Settled::Done => {}
            Settled::Conflict(conflict) => return Ok(analyse(alloc, board, conflict)?),
        }
    }
    Err(Fail::from("decisions without a conflict"))
}

/// A number of variables, clauses over them, decisions that lead to a conflict, and what it teaches: the literals of
/// the line, and the level to go back to.
const LINES: [(u32, &[&[i32]], &[i32], &[i32], u32); 3] = [
    (2, EVERY_PAIR, &[1], &[-1], 0),
    // All that 2 leads to runs through 3, and 1 has no part in it.
    (4, &[&[-2, 3], &[-3, 4], &[-3, -4]], &[1, 2], &[-3], 0),
    // Back over the levels 2 and 3, which have no part in it.
    (5, &[&[-1, -4, 5], &[-4, -5]], &[1, 2, 3, 4], &[-1, -4], 1),
];

#[test]
fn lines_of_conflicts(rt: HostRuntime) -> Result<(), Fail> {
    for (vars, clauses, decisions, literals, back) in &LINES {
        let list = list_of(rt.alloc(), *vars, clauses)?;
        let mut board = Board::new(rt.alloc(), list)?;
        let settled = board.settle()?;
        if settled != Settled::Done {
            return Err(Fail::from("a board on which nothing is asked"));
        }
        let learnt = taught(rt.alloc(), &mut board, decisions)?;
        assert!(rt;
            are_literals(learnt.line.clause.as_slice(), literals),
            "{vars} variables"
        );
        assert!(rt; learnt.back == *back, "{vars} variables");
    }
    Ok(())
}

// Seventeen labels in sixteen columns.
const PIGEONHOLE: &[u8] = b"slices 1
rows 1
start A
pin P1 0 1
pin P2 0 2
pin P3 0 3
pin P4 0 4
pin P5 0 5
pin P6 0 6
pin P7 0 7
pin P8 0 8
pin P9 0 9
pin P10 0 10
pin P11 0 11
pin P12 0 12
pin P13 0 13
A: NOP R0 | goto A
P1: NOP R0 | goto P1
P2: NOP R0 | goto P2
P3: NOP R0 | goto P3
P4: NOP R0 | goto P4
P5: NOP R0 | goto P5
P6: NOP R0 | goto P6
P7: NOP R0 | goto P7
P8: NOP R0 | goto P8
P9: NOP R0 | goto P9
P10: NOP R0 | goto P10
P11: NOP R0 | goto P11
P12: NOP R0 | goto P12
P13: NOP R0 | goto P13
X: NOP R0 | goto X
Y: NOP R0 | goto Y
Z: NOP R0 | goto Z
";

// Five tests that share too few cells.
const PAIRS: &[u8] = b"slices 1
rows 2
start S0
S0: NOP R0 | iff T0 U0
S1: NOP R0 | iff T1 U1
S2: NOP R0 | iff T2 U2
S3: NOP R0 | iff T3 U3
S4: NOP R0 | iff T4 U4
T0: NOP R0 | goto T0
U0: NOP R0 | goto U0
T1: NOP R0 | goto T1
U1: NOP R0 | goto U1
T2: NOP R0 | goto T2
U2: NOP R0 | goto U2
T3: NOP R0 | goto T3
U3: NOP R0 | goto U3
T4: NOP R0 | goto T4
U4: NOP R0 | goto U4
";

// How placing a small source with a small budget ends.
fn placing_ending(alloc: Global, source: &[u8], budget: u64) -> Option<Ending> {
    let program = program_of(alloc, source)?;
    if clause_count(&program) >= 1_000_000 || budget >= 1_000_000 {
        return None;
    }
    match place(alloc, &program, budget) {
        Ok(Placed::Found(_)) => Some(Ending::Model),
        Ok(Placed::Refuted(_)) => Some(Ending::Refuted),
        Ok(Placed::Undecided(_, _)) => Some(Ending::Undecided),
        Err(_) => None,
    }
}

/// A source, a budget, and how placing ends.
const SOURCES: [(&[u8], u64, Ending); 5] = [
    (ONE_INSTRUCTION, 0, Ending::Model),
    (ONE_LABEL_TWICE, 0, Ending::Refuted),
    (PIGEONHOLE, 0, Ending::Undecided),
    (PIGEONHOLE, 1000, Ending::Refuted),
    (PAIRS, 100, Ending::Refuted),
];

#[test]
fn small_sources(rt: HostRuntime) {
    for (source, budget, ending) in &SOURCES {
        assert!(rt;
            placing_ending(rt.alloc(), source, *budget) == Some(*ending),
            "budget {budget}"
        );
    }
}

// Whether a small budget finds a placement of a small source, and it is legal.
fn is_placed(alloc: Global, source: &[u8], budget: u64) -> bool {
    let Some(program) = program_of(alloc, source) else {
        return false;
    };
    if clause_count(&program) >= 1_000_000 || budget >= 1_000_000 {
        return false;
    }
    match place(alloc, &program, budget) {
        Ok(Placed::Found(placement)) => {
            placement.as_slice().len() == program.len() as usize && legal(&program, &placement)
        }
        _ => false,
    }
}

// The source of number 0 has 128 labels, 112 of them pinned.
#[test]
fn many_labels_are_placed(rt: HostRuntime) -> Result<(), Fail> {
    let case = make_case(rt.alloc(), 0)?;
    assert!(rt; is_placed(rt.alloc(), &case.source, 100));
    Ok(())
}
