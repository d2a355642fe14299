//! Files that are judged while they are read in pieces. The expected answers were worked out on paper.

ghost use Rattle.std.specs.Prelude.{◌<◌, ◌-◌, ◌^◌, length, IfOk};

use crate::checks::TEXTS;
use crate::lists::literal;
use crate::programs::{ONE_LABEL_TWICE, program_of};
use clause_base::{ClauseList, Line, Lits, Numbers};
use clause_encode::{ListSource, encode};
use io_base::{MemShelf, OutOfMemory};
use ref_text::{Why, print_line};
use refute_check::{Checked, check_lines, check_ref};
use std::alloc::Global;
use std::test::Fail;

/// How many bytes a read gives at most. The checker asks for no more than the last. The one line that refutes
/// ONE_LABEL_TWICE has 28 bytes and an LF.
const PIECES: [usize; 4] = [1, 7, 28, 4096];

// A shelf with one file, whose reads give at most so many bytes.
fn shelf_of(alloc: Global, text: &[u8], most: usize) -> Result<MemShelf, OutOfMemory> {
    let mut shelf = MemShelf::new(alloc);
    shelf.put_file("r", text)?;
    shelf.set_piece(most.max(1));
    Ok(shelf)
}

#[test]
fn the_size_of_the_pieces_changes_nothing(rt: HostRuntime) -> Result<(), Fail> {
    let program = program_of(rt.alloc(), ONE_LABEL_TWICE).ok_or("a program")?;
    for (text, expected) in &TEXTS {
        for most in &PIECES {
            let mut shelf = shelf_of(rt.alloc(), text, *most)?;
            assert!(rt; check_ref(rt.alloc(), &program, &mut shelf, "r") == Ok(*expected));
        }
    }
    Ok(())
}

// The answer for a file over the clauses of a list, and how many literals were given for it.
fn judged(
    alloc: Global,
    list: &ClauseList,
    text: &[u8],
    most: usize,
) -> Result<(Checked, u128), Fail>
    requires { length list.now.clauses < 2 ^ 32 - 1 }
{
    let mut shelf = shelf_of(alloc, text, most)?;
    let mut source = ListSource::new(list);
    match check_lines(alloc, &mut source, &mut shelf, "r") {
        Ok(answer) => Ok((answer, source.given())),
        Err(_) => Err(Fail::from("no answer")),
    }
}

/// A text, its answer, and how many literals are given for it at most. Its hints name clauses of 1, 2, 2 and 2 literals,
/// and a clause that was given is not asked for again.
const GIVEN: [(&[u8], Checked, u128); 6] = [
    (b"", Checked::Derived(0), 0),
    (b"1434 0 1286 1319 1367 1146 0\n", Checked::Refutes(1), 7),
    (
        b"1434 83 0 1286 1319 0\n1435 0 1434 1286 1367 1146 0\n",
        Checked::Refutes(2),
        7,
    ),
    (
        b"1434 0 1286 1319 1367 0\n1435 0 1286 1319 1367 1146 0\n",
        Checked::Rejected(1, Why::NotFalse),
        5,
    ),
    (
        b"1433 0 1286 1319 1367 1146 0\n",
        Checked::Rejected(1, Why::Number),
        0,
    ),
    (b"1434 0 1286 1319", Checked::Rejected(1, Why::Text), 0),
];

#[test]
fn just_the_clauses_of_hints_are_given(rt: HostRuntime) -> Result<(), Fail> {
    let program = program_of(rt.alloc(), ONE_LABEL_TWICE).ok_or("a program")?;
    let list = encode(rt.alloc(), &program)?;
    for (text, expected, most) in &GIVEN {
        for piece in &PIECES {
            let (answer, given) = judged(rt.alloc(), &list, text, *piece)?;
            assert!(rt; answer == *expected && given <= *most);
        }
    }
    Ok(())
}

// A list of one clause, the variable 1, over as many variables as 128 labels have.
fn one_clause(alloc: Global) -> Result<ClauseList, Fail>
    ensures { IfOk result (λ list. length list.clauses < 2 ^ 32 - 1) }
{
    let mut list = ClauseList::new(alloc, 14_656)?;
    list.add(&[literal(1, 14_656)?])?;
    Ok(list)
}

// The text of line 2 with the variables from each first to each last number, and the hint 1.
fn line_of(alloc: Global, ranges: &[(i32, i32)]) -> Result<Vec<u8>, Fail> {
    let mut lits = Vec::new(alloc);
    for (first, last) in ranges {
        for value in *first..=*last {
            lits.push(literal(value, 14_656)?)?;
        }
    }
    let mut hints = Vec::new(alloc);
    hints.push(1)?;
    let line = Line {
        clause: Lits::of(lits),
        hints: Numbers::of(hints),
    };
    let mut text = Vec::new(alloc);
    print_line(2, &line, &mut text)?;
    Ok(text)
}

// Whether a text is that of one derived line, and is refused where its last byte, the LF, is not there.
fn is_derived(alloc: Global, text: &[u8]) -> Result<bool, Fail> {
    let list = one_clause(alloc)?;
    let whole = judged(alloc, &list, text, 4096)?;
    let cut = text.strip_suffix(b"\n").ok_or("no LF")?;
    let begun = judged(alloc, &list, cut, 4096)?;
    Ok(whole.0 == Checked::Derived(1) && begun.0 == Checked::Rejected(1, Why::Text))
}

// A line of 14,656 literals, far longer than a piece, whose first piece ends inside a number.
#[test]
fn a_line_may_be_longer_than_a_piece(rt: HostRuntime) -> Result<(), Fail> {
    let text = line_of(rt.alloc(), &[(1, 14_656)])?;
    assert!(rt; text.len() == 76_838);
    assert!(rt; text.get(4094..4100) == Some(b" 1041 ".as_slice()));
    assert!(rt; is_derived(rt.alloc(), &text)?);
    Ok(())
}

#[test]
fn a_piece_may_begin_with_an_lf(rt: HostRuntime) -> Result<(), Fail> {
    let text = line_of(rt.alloc(), &[(1, 1), (10, 13), (1000, 1814)])?;
    assert!(rt; text.len() == 4097 && text.get(4096) == Some(&b'\n'));
    assert!(rt; is_derived(rt.alloc(), &text)?);
    Ok(())
}
