//! Worked examples: the counts and clauses of small programs, from the rules by hand.
use crate::lists::is_clause;
use crate::model_tables::placed;
use crate::programs::{ONE_INSTRUCTION, ONE_LABEL_TWICE, program_of};
use clause_base::Truths;
use clause_encode::{ClauseSource, ProgramSource, clause_at, clause_count, encode, var_count};
use flow_graph::Program;
use io_base::OutOfMemory;
use mcu_jumps::Cell;
use std::alloc::Global;
use std::test::Fail;

/// Each statement, with pins and a row bound.
const EVERY_STATEMENT: &[u8] = b"slices 1
rows 24
start A
pin B 0 15
pin H 9 3
A: NOP R0 | strobe B
B: NOP R0 | enable C
C: NOP R0 | goto D
D: NOP R0 | iff E F
E: NOP R0 | ifc F G
F: NOP R0 | ifz G A
G: NOP R0 | onpr A B C D E F G H I J A B C D E F
H: NOP R0 | onpx J I H G F E D C B A J I H G F E
I: NOP R0 | onleft A A B I
J: NOP R0 | onright J D D A";

/// Each test with traps: first, last and between; and a start that is not the first label.
const EVERY_TRAP: &[u8] = b"slices 1
rows 1
start B
A: NOP R0 | iff - A
B: NOP R0 | ifc C -
C: NOP R0 | ifz - D
D: NOP R0 | onpr - A - B - - - - C - - - - - - -
E: NOP R0 | onpx - - - - - - - - - - - - - - - A
F: NOP R0 | onleft G - - F
G: NOP R0 | onright - - E -";

/// Numbers of clauses of ONE_LABEL_TWICE, and their literals.
const CLAUSES: [(u32, &[i32]); 4] = [
    (1286, &[33]),
    (1319, &[-33, 83]),
    (1367, &[-33, 84]),
    (1146, &[-83, -84]),
];

#[test]
fn one_label_for_both_outcomes(rt: HostRuntime) -> Result<(), Fail> {
    let program = program_of(rt.alloc(), ONE_LABEL_TWICE).ok_or("a program")?;
    let list = encode(rt.alloc(), &program)?;
    for (number, values) in &CLAUSES {
        assert!(rt; is_clause(&list, *number, values), "clause {number}");
    }
    Ok(())
}

// Whether a program has so many variables and clauses.
fn has_counts(program: &Program, vars: u32, clauses: u32) -> bool {
    var_count(program) == vars && clause_count(program) == clauses
}

// Whether each clause of the list is that which its number gives.
fn is_numbered(alloc: Global, program: &Program) -> Result<bool, OutOfMemory> {
    let list = encode(alloc, program)?;
    for place in 0..list.len() {
        let clause = clause_at(alloc, program, place + 1)?;
        if clause.as_slice() != list.get(place + 1) {
            return Ok(false);
        }
    }
    Ok(true)
}

// Whether each clause of the list is that which a source of the program gives, first of all and after another.
fn is_given(alloc: Global, program: &Program) -> Result<bool, OutOfMemory> {
    let list = encode(alloc, program)?;
    for place in 0..list.len() {
        let mut source = ProgramSource::new(program);
        let first = source.clause(alloc, place + 1)?;
        let again = source.clause(alloc, list.len() - place)?;
        if first.as_slice() != list.get(place + 1)
            || again.as_slice() != list.get(list.len() - place)
        {
            return Ok(false);
        }
    }
    Ok(true)
}

/// A source, how many variables it has, and how many clauses.
const SOURCES: [(&[u8], u32, u32); 4] = [
    (ONE_LABEL_TWICE, 103, 1433),
    (EVERY_STATEMENT, 555, 10_135),
    (EVERY_TRAP, 378, 6162),
    (ONE_INSTRUCTION, 51, 671),
];

#[test]
fn each_clause_by_its_number(rt: HostRuntime) -> Result<(), Fail> {
    for (source, vars, clauses) in &SOURCES {
        let program = program_of(rt.alloc(), source).ok_or("a program")?;
        assert!(rt; has_counts(&program, *vars, *clauses));
        assert!(rt; is_numbered(rt.alloc(), &program)?);
        assert!(rt; is_given(rt.alloc(), &program)?);
    }
    Ok(())
}

// A source of 128 instructions with this statement, each of them pinned, and of one row.
fn repeated(alloc: Global, statement: &str) -> Result<Vec<u8>, Fail> {
    let mut text = b"slices 1\nrows 1\nstart L0\n".to_vec(alloc)?;
    for number in 0..128 {
        let pin = format!(in alloc; "pin L{number} 0 0\n")?;
        text.extend_from_slice(pin.as_bytes())?;
        let line = format!(in alloc; "L{number}: NOP R0 | {statement}\n")?;
        text.extend_from_slice(line.as_bytes())?;
    }
    Ok(text)
}

/// A statement of each of 128 instructions, and how many clauses they have.
const FULL: [(&str, u32); 6] = [
    ("goto L0", 480_002),
    ("enable L0", 479_618),
    ("iff L0 -", 512_130),
    ("onright L0 - - -", 526_466),
    (
        "onpr L0 L1 L0 L1 L0 L1 L0 L1 L0 L1 L0 L1 L0 L1 L0 L1",
        541_058,
    ),
    ("onpx - - - - - - - - - - - - - - - L0", 721_538),
];

#[test]
fn instructions_of_a_full_source(rt: HostRuntime) -> Result<(), Fail> {
    for (statement, clauses) in &FULL {
        let source = repeated(rt.alloc(), statement)?;
        let program = program_of(rt.alloc(), &source).ok_or("a program")?;
        assert!(rt; has_counts(&program, 14_656, *clauses), "{statement}");
    }
    Ok(())
}

// One instruction that goes to itself: it stands at row 0, column 0, and all three ways lead there.
#[test]
fn one_instruction_is_placed(rt: HostRuntime) -> Result<(), Fail> {
    let alloc = rt.alloc();
    let program = program_of(alloc, ONE_INSTRUCTION).ok_or("a program")?;
    let mut values = vec![in alloc; false; 51]?;
    for place in [0usize, 32, 48, 49, 50] {
        values[place] = true;
    }
    let placement = placed(alloc, &program, &Truths::of(values))?;
    assert_eq!(rt; placement.as_slice(), [Cell::at(0, 0)].as_slice());
    Ok(())
}
