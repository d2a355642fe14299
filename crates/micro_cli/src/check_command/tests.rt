//! What `check` answers for one program that has no placement. The expected answers were worked out on paper.

use crate::check_command::check_command;
use io_base::{CallKind, MemShelf, MemSink, OutOfMemory};
use replies::Status;
use std::alloc::Global;
use std::test::Fail;

/// A test whose two outcomes are one label: no placement is legal. There are 103 variables and 1,433 clauses, of which
/// 1286 is [33], 1319 is [-33, 83], 1367 is [-33, 84] and 1146 is [-83, -84].
const ONE_LABEL_TWICE: &[u8] = b"slices 1\nstart A\nA: NOP R0 | iff B B\nB: NOP R0 | goto B\n";
/// Its refutation.
const REFUTATION: &[u8] = b"1434 0 1286 1319 1367 1146 0\n";

// Whether the check of a refutation, over a shelf whose read of this number fails, ends with this status and text.
// The names are those of the source and of the refutation.
fn ends(
    alloc: Global,
    refutation: &[u8],
    failing: Option<u32>,
    names: (&str, &str),
    status: Status,
    text: &[u8],
) -> Result<bool, OutOfMemory> {
    if names.0.len() > 220 || names.1.len() > 220 {
        return Ok(false);
    }
    let mut shelf = MemShelf::new(alloc);
    shelf.put_file("s", ONE_LABEL_TWICE)?;
    shelf.put_file("r", refutation)?;
    if let Some(number) = failing {
        shelf.fail(CallKind::Read, number)?;
    }
    let mut out = MemSink::new(alloc);
    let ended = check_command(alloc, &mut shelf, &mut out, names.0, names.1);
    Ok(ended == status && out.bytes() == text)
}

/// A text, and what its check prints.
const ANSWERS: [(&[u8], Status, &[u8]); 14] = [
    (REFUTATION, Status::Done, b"refutes 1\n"),
    (b"", Status::CheckNo, b"derived 0\n"),
    (b"1434 83 0 1286 1319 0\n", Status::CheckNo, b"derived 1\n"),
    (
        b"1434 0 1319 1286 1367 1146 0\n",
        Status::CheckNo,
        b"rejected line 1 NotUnit\n",
    ),
    (
        b"1434 0 1286 1319 1367 0\n",
        Status::CheckNo,
        b"rejected line 1 NotFalse\n",
    ),
    (
        b"1433 0 1286 1319 1367 1146 0\n",
        Status::CheckNo,
        b"rejected line 1 Number\n",
    ),
    (
        b"1434 -0 0 1286 0\n",
        Status::CheckNo,
        b"rejected line 1 Text\n",
    ),
    (
        b"1434 0 1286 1319 1367 1146 0",
        Status::CheckNo,
        b"rejected line 1 Text\n",
    ),
    (
        b"1434 104 0 1286 0\n",
        Status::CheckNo,
        b"rejected line 1 Literal\n",
    ),
    (b"1434 0 0\n", Status::CheckNo, b"rejected line 1 Hint\n"),
    (
        b"1434 83 0 1286 1319 0\n1435 0 1435 0\n",
        Status::CheckNo,
        b"rejected line 2 Hint\n",
    ),
    (
        b"1434 0 1286 1319 1367 1146 0\n1435 0 1286 0\n",
        Status::CheckNo,
        b"rejected line 2 After\n",
    ),
    (
        b"4294967296 0 1286 0\n",
        Status::CheckNo,
        b"rejected line 1 Text\n",
    ),
    (
        b"1434 0 1286 1319 1367 18446744073709552762 0\n",
        Status::CheckNo,
        b"rejected line 1 Text\n",
    ),
];

#[test]
fn tells_the_answer(rt: HostRuntime) -> Result<(), Fail> {
    for (refutation, status, text) in &ANSWERS {
        assert!(rt; ends(rt.alloc(), refutation, None, ("s", "r"), *status, text)?);
    }
    Ok(())
}

/// The names of source and refutation, the read that fails, and what the check of REFUTATION prints.
const INPUTS: [(&str, &str, Option<u32>, Status, &[u8]); 5] = [
    ("t", "r", None, Status::Input, b"refused t NoFile\n"),
    (
        "r",
        "r",
        None,
        Status::Input,
        b"refused r line 1 UnknownDirective\n",
    ),
    ("s", "q", None, Status::Input, b"refused q NoFile\n"),
    ("s", "r", Some(1), Status::ShelfFault, b"cannot read s\n"),
    ("s", "r", Some(3), Status::ShelfFault, b"cannot read r\n"),
];

#[test]
fn tells_what_is_not_had(rt: HostRuntime) -> Result<(), Fail> {
    for (source, refutation, failing, status, text) in &INPUTS {
        let names = (*source, *refutation);
        assert!(rt; ends(rt.alloc(), REFUTATION, *failing, names, *status, text)?);
    }
    Ok(())
}
