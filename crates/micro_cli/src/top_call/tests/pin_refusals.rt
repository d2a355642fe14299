//! Sources whose pins give no legal placement, with what is printed of each.

use super::has_map;
use replies::Status;
use std::alloc::Global;
use std::process::Abort;
use std::test::Fail;

/// A source and what `map s` prints of it.
type Row = (&'static [u8], &'static [u8]);

// Each source is refused with its text.
fn check_refusals(rt: &impl Abort, alloc: Global, rows: &[Row]) -> Result<(), Fail> {
    for (source, text) in rows {
        assert!(rt; has_map(alloc, source, Status::Input, text)?, "{text:?}");
    }
    Ok(())
}

/// Each kind at its line.
const KINDS: [Row; 7] = [
    (
        b"slices 1\nstart A\npin A 0 0\npin B 0 15\nA: NOP R0 | goto B\nB: NOP R0 | goto C\nC: NOP R0 | goto B\n",
        b"refused s line 7 Unpinned\n",
    ),
    (
        b"slices 1\nstart A\npin A 0 0\npin B 0 0\nA: NOP R0 | goto A\nB: NOP R0 | goto A\n",
        b"refused s line 6 SameCell\n",
    ),
    (
        b"slices 1\nrows 4\nstart A\npin A 0 0\npin B 4 0\nA: NOP R0 | goto A\nB: NOP R0 | goto A\n",
        b"refused s line 7 RowBound\n",
    ),
    (
        b"slices 1\nstart A\npin A 0 1\nA: NOP R0 | goto A\n",
        b"refused s line 4 StartCell\n",
    ),
    (
        b"slices 1\nstart A\npin A 0 0\npin B 0 15\npin C 5 14\nA: NOP R0 | goto B\nB: NOP R0 | goto C\nC: NOP R0 | goto C\n",
        b"refused s line 7 NoJump\n",
    ),
    // A goto never becomes the jump of the interrupt strobe.
    (
        b"slices 1\nstart A\npin A 0 0\npin B 1 1\npin C 0 15\nA: NOP R0 | goto A\nB: NOP R0 | goto C\nC: NOP R0 | goto C\n",
        b"refused s line 7 NoJump\n",
    ),
    // The trap leads to a cell that no label has.
    (
        b"slices 1\nstart A\npin A 0 0\npin B 0 2\npin C 0 3\nA: NOP R0 | iff B -\nB: NOP R0 | goto A\nC: NOP R0 | goto A\n",
        b"refused s line 6 NoJump\n",
    ),
];

/// Sources with two faults.
const ORDER: [Row; 6] = [
    // Unpinned anywhere comes before all else.
    (
        b"slices 1\nstart A\npin A 1 1\npin B 1 1\nA: NOP R0 | goto C\nB: NOP R0 | goto A\nC: NOP R0 | goto A\n",
        b"refused s line 7 Unpinned\n",
    ),
    // SameCell before StartCell.
    (
        b"slices 1\nstart B\npin A 1 1\npin B 1 1\nA: NOP R0 | goto A\nB: NOP R0 | goto A\n",
        b"refused s line 6 SameCell\n",
    ),
    // RowBound before StartCell.
    (
        b"slices 1\nrows 1\nstart A\npin A 1 0\nA: NOP R0 | goto A\n",
        b"refused s line 5 RowBound\n",
    ),
    // StartCell before NoJump.
    (
        b"slices 1\nstart A\npin A 5 5\npin B 6 6\nA: NOP R0 | goto B\nB: NOP R0 | goto A\n",
        b"refused s line 5 StartCell\n",
    ),
    // NoJump at an earlier instruction before SameCell at a later one.
    (
        b"slices 1\nstart A\npin A 0 0\npin B 6 6\npin C 6 6\nA: NOP R0 | goto B\nB: NOP R0 | goto B\nC: NOP R0 | goto C\n",
        b"refused s line 6 NoJump\n",
    ),
    // A refused line before all that the pins would be refused for.
    (
        b"slices 1\nstart A\npin A 1 1\nA: NOP R0 | goto B\n",
        b"refused s line 4 UnknownLabel\n",
    ),
];

#[test]
fn each_kind_is_told_at_its_line(rt: HostRuntime) -> Result<(), Fail> {
    check_refusals(&rt, rt.alloc(), &KINDS)
}

#[test]
fn the_first_fault_is_told(rt: HostRuntime) -> Result<(), Fail> {
    check_refusals(&rt, rt.alloc(), &ORDER)
}
