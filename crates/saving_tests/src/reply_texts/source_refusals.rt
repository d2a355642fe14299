//! Sources that are refused, with the text of each.

use super::{shelf_with, source_stops};
use io_base::OutOfMemory;
use replies::Status;
use std::alloc::Global;
use std::process::Abort;
use std::test::Fail;

/// A source, and the text that refuses it as `s`.
type Row = (&'static [u8], &'static [u8]);

// Each source is refused with its text.
fn check_refusals(rt: &impl Abort, alloc: Global, rows: &[Row]) -> Result<(), Fail> {
    for (source, text) in rows {
        let mut shelf = shelf_with(alloc, "s", source)?;
        assert!(rt;
            source_stops(alloc, &mut shelf, Status::Input, text),
            "{text:?}"
        );
    }
    Ok(())
}

/// Faults of tokens, with their column. The first faulty place of a line comes before any other fault of it, and the
/// first refused line before the rest.
const LEXICAL: [Row; 6] = [
    (
        b"slices 1\nstart A\nA: NOP R0 @ | goto A\n",
        b"refused s line 3 BadByte col 11\n",
    ),
    (
        b"slices 1\nA: NOP R0 1x | goto A\n",
        b"refused s line 2 BadNumber col 11\n",
    ),
    (
        b"slices 1\nfield x 340282366920938463463374607431768211456 0\n",
        b"refused s line 2 NumberTooWide col 9\n",
    ),
    (
        b"start abcdefghijklmnopqrstuvwxyz_012345\n",
        b"refused s line 1 NameTooLong col 7\n",
    ),
    (b"step 1x @\n", b"refused s line 1 BadNumber col 6\n"),
    (
        b"\n# nothing\nrows 0\nstart @\n",
        b"refused s line 3 Rows\n",
    ),
];

/// One row for each place where a refusal can come from: a directive, an instruction, the whole source, and an unknown
/// label. Which kind comes is told by the assembler's contract, and the text of each kind by `kinds`.
const OTHERS: [Row; 4] = [
    (b"slices 2\nkbus 3\n", b"refused s line 2 KBus\n"),
    (
        b"slices 1\nA: NOP R0 | iff A\n",
        b"refused s line 2 TargetCount\n",
    ),
    (b"", b"refused s line 0 Empty\n"),
    (
        b"slices 1\nstart A\nA: NOP R0 | goto B\npin C 0 0\n",
        b"refused s line 3 UnknownLabel\n",
    ),
];

#[test]
fn lexical_faults_are_told_with_their_column(rt: HostRuntime) -> Result<(), Fail> {
    check_refusals(&rt, rt.alloc(), &LEXICAL)
}

#[test]
fn refusals_are_told_at_their_line(rt: HostRuntime) -> Result<(), Fail> {
    check_refusals(&rt, rt.alloc(), &OTHERS)
}

// Instructions of which each goes to itself, and this line behind them.
fn self_loops(alloc: Global, count: u32, last: &[u8]) -> Result<Vec<u8>, OutOfMemory> {
    let mut text = Vec::from_slice(alloc, b"slices 1\nstart L0\n")?;
    for number in 0..count {
        let line = format!(in alloc; "L{number}: NOP R0 | goto L{number}\n")?;
        text.extend_from_slice(line.as_bytes())?;
    }
    text.extend_from_slice(last)?;
    Ok(text)
}

#[test]
fn the_instruction_after_128_is_refused(rt: HostRuntime) -> Result<(), Fail> {
    let alloc = rt.alloc();
    let source = self_loops(alloc, 128, b"L128: NOP R0 | goto L128\n")?;
    let mut shelf = shelf_with(alloc, "s", &source)?;
    let text = b"refused s line 131 TooMany\n";
    assert!(rt; source_stops(alloc, &mut shelf, Status::Input, text));
    Ok(())
}
