//! One program that has no placement, and texts whose answers were worked out on paper.

use crate::programs::{ONE_LABEL_TWICE, program_of};
use clause_encode::encode;
use flow_graph::Program;
use io_base::{CallKind, MemShelf, OutOfMemory};
use ref_text::Why;
use refute_check::{CheckFault, Checked, check_bytes, check_ref};
use std::alloc::Global;
use std::test::Fail;

// Of ONE_LABEL_TWICE's 1,433 clauses over 103 variables, 1286 is [33], 1319 is [-33, 83], 1367 is [-33, 84] and 1146
// is [-83, -84].

/// A text, and how it is judged.
pub const TEXTS: [(&[u8], Checked); 26] = [
    (b"", Checked::Derived(0)),
    (b"1434 0 1286 1319 1367 1146 0\n", Checked::Refutes(1)),
    (b"1434 83 0 1286 1319 0\n", Checked::Derived(1)),
    (b"1434 -83 -84 0 1146 0\n", Checked::Derived(1)),
    (b"1434 -33 0 1319 1367 1146 0\n", Checked::Derived(1)),
    (b"1434 5 0 1286 1319 1367 1146 0\n", Checked::Derived(1)),
    (
        b"1434 83 0 1286 1319 0\n1435 0 1286 1319 1367 1146 0\n",
        Checked::Refutes(2),
    ),
    (
        b"1434 83 0 1286 1319 0\n1435 0 1434 1286 1367 1146 0\n",
        Checked::Refutes(2),
    ),
    (
        b"1434 83 0 1286 1319 0\n1435 0 1434 1367 1146 0\n",
        Checked::Rejected(2, Why::NotUnit),
    ),
    (
        b"1434 0 1319 1286 1367 1146 0\n",
        Checked::Rejected(1, Why::NotUnit),
    ),
    (
        b"1434 0 1286 1286 1319 1367 1146 0\n",
        Checked::Rejected(1, Why::NotUnit),
    ),
    (
        b"1434 0 1286 1319 1367 1146 1146 0\n",
        Checked::Rejected(1, Why::NotUnit),
    ),
    (
        b"1434 0 1286 1319 1367 0\n",
        Checked::Rejected(1, Why::NotFalse),
    ),
    (b"1434 0 1286 1286 0\n", Checked::Rejected(1, Why::NotFalse)),
    (
        b"1433 0 1286 1319 1367 1146 0\n",
        Checked::Rejected(1, Why::Number),
    ),
    (
        b"1434 0 1286 1319 1367 1146 0",
        Checked::Rejected(1, Why::Text),
    ),
    (b"1434 -0 0 1286 0\n", Checked::Rejected(1, Why::Text)),
    (b"1434 0  1286 0\n", Checked::Rejected(1, Why::Text)),
    (b"4294967296 0 1286 0\n", Checked::Rejected(1, Why::Text)),
    (
        b"1434 0 1286 1319 1367 18446744073709552762 0\n",
        Checked::Rejected(1, Why::Text),
    ),
    (b"1434 104 0 1286 0\n", Checked::Rejected(1, Why::Literal)),
    (b"1434 0 0\n", Checked::Rejected(1, Why::Hint)),
    (b"1434 0 1434 0\n", Checked::Rejected(1, Why::Hint)),
    (
        b"1434 83 0 1286 1319 0\n1435 0 1436 0\n",
        Checked::Rejected(2, Why::Hint),
    ),
    (
        b"1434 0 1286 1319 1367 1146 0\n1435 0 1286 0\n",
        Checked::Rejected(2, Why::After),
    ),
    (
        b"1434 0 1286 1319 1367 1146 0\n1435 0 1286 0",
        Checked::Rejected(2, Why::Text),
    ),
];

// Whether the text is judged like this, as derived lines of the program's clauses.
fn is_judged(alloc: Global, program: &Program, text: &[u8], expected: Checked) -> bool {
    let Ok(list) = encode(alloc, program) else {
        return false;
    };
    list.len() < u32::MAX && check_bytes(alloc, list, text).ok() == Some(expected)
}

#[test]
fn texts_are_judged(rt: HostRuntime) -> Result<(), Fail> {
    let program = program_of(rt.alloc(), ONE_LABEL_TWICE).ok_or("a program")?;
    for (text, expected) in &TEXTS {
        assert!(rt; is_judged(rt.alloc(), &program, text, *expected));
    }
    Ok(())
}

/// The files are read in this order, and the sixth read fails, at the end of the last. Behind a line that is refused
/// nothing is read.
const FILES: [(&str, Result<Checked, CheckFault>); 4] = [
    ("right", Ok(Checked::Refutes(1))),
    ("wrong", Ok(Checked::Rejected(1, Why::NotFalse))),
    ("none", Err(CheckFault::NoFile)),
    ("right", Err(CheckFault::Failed)),
];

// A shelf with a refutation and a text that is none.
fn shelf_of(alloc: Global) -> Result<MemShelf, OutOfMemory> {
    let mut shelf = MemShelf::new(alloc);
    shelf.put_file("right", b"1434 0 1286 1319 1367 1146 0\n")?;
    shelf.put_file("wrong", b"1434 0 1286 1319 1367 0\n")?;
    shelf.fail(CallKind::Read, 6)?;
    Ok(shelf)
}

#[test]
fn files_are_judged(rt: HostRuntime) -> Result<(), Fail> {
    let program = program_of(rt.alloc(), ONE_LABEL_TWICE).ok_or("a program")?;
    let mut shelf = shelf_of(rt.alloc())?;
    for (name, expected) in &FILES {
        assert!(rt; name.len() <= 220);
        assert!(rt; check_ref(rt.alloc(), &program, &mut shelf, name) == *expected);
    }
    Ok(())
}
