//! The sources that several tests read, and their maps.

use io_base::OutOfMemory;
use std::alloc::Global;

/// Three cells, of which the last gives a strobe.
pub const THREE_CELLS: &[u8] = b"slices 1
start A
pin A 0 0
pin B 0 15
pin C 5 15
A: NOP R0 | goto B
B: NOP R0 | goto C
C: NOP R0 | strobe B
";

/// The map of the three cells.
pub const THREE_CELLS_MAP: &[u8] = b"A 0.0 3f JCR 15\nB 0.15 05 JCC 5\nC 5.15 2f JZR 15\n";

/// One instruction after another, each going to itself, and these lines behind them.
pub fn self_loops(alloc: Global, count: u32, last: &[u8]) -> Result<Vec<u8>, OutOfMemory> {
    let mut text = Vec::from_slice(alloc, b"slices 1\nstart L0\n")?;
    for number in 0..count {
        let line = format!(in alloc; "L{number}: NOP R0 | goto L{number}\n")?;
        text.extend_from_slice(line.as_bytes())?;
    }
    text.extend_from_slice(last)?;
    Ok(text)
}

/// A pin for each of so many labels, row after row.
pub fn pins_in_rows(alloc: Global, count: u32) -> Result<Vec<u8>, OutOfMemory> {
    let mut text = Vec::new(alloc);
    for number in 0..count {
        let (row, col) = (number / 16, number % 16);
        let line = format!(in alloc; "pin L{number} {row} {col}\n")?;
        text.extend_from_slice(line.as_bytes())?;
    }
    Ok(text)
}
