//! Sources that have a map.

use super::has_map;
use super::sources::{THREE_CELLS, THREE_CELLS_MAP, pins_in_rows, self_loops};
use io_base::OutOfMemory;
use replies::Status;
use std::alloc::Global;
use std::test::Fail;

#[test]
fn three_cells_are_mapped(rt: HostRuntime) -> Result<(), Fail> {
    assert!(rt; has_map(rt.alloc(), THREE_CELLS, Status::Done, THREE_CELLS_MAP)?);
    Ok(())
}

#[test]
fn masks_that_the_k_bits_give_are_mapped(rt: HostRuntime) -> Result<(), Fail> {
    let source = b"slices 8\nkbus 2\nstart A\npin A 0 0\nA: fn 3 1 R2 0x00FF | goto A\n";
    assert!(rt; has_map(rt.alloc(), source, Status::Done, b"A 0.0 00 JCC 0\n")?);
    Ok(())
}

// The map of so many instructions that go to themselves, row after row: each by JCC to its own row.
fn map_in_rows(alloc: Global, count: u32) -> Result<Vec<u8>, OutOfMemory> {
    let mut text = Vec::new(alloc);
    for number in 0..count {
        let (row, col) = (number / 16, number % 16);
        let line = format!(in alloc; "L{number} {row}.{col} 0{row} JCC {row}\n")?;
        text.extend_from_slice(line.as_bytes())?;
    }
    Ok(text)
}

#[test]
fn a_full_source_is_mapped(rt: HostRuntime) -> Result<(), Fail> {
    let pins = pins_in_rows(rt.alloc(), 128)?;
    let source = self_loops(rt.alloc(), 128, &pins)?;
    let text = map_in_rows(rt.alloc(), 128)?;
    assert!(rt; has_map(rt.alloc(), &source, Status::Done, &text)?);
    Ok(())
}

/// `examples/all_statements.src`: each statement, a trap, masks, fields and flag functions.
const ALL_STATEMENTS: &[u8] =
    b"# A small accumulator machine in which each statement of the language comes at least once.
# Every label is pinned, so `map` shows the cell and the jump of each.

# ---- the chips and the microword
slices 4               # four slices of two bits: an array of eight bits
kbus 2                 # K bit 0 drives bits 0 to 3 of the K bus, K bit 1 bits 4 to 7
field wr 1 0           # a field of one bit; 0 where a line does not set it
field io 3 5           # three lines to a front panel, 5 at rest
prom 512 8             # PROM images of 512 words of 8 bits
write wr               # where wr is 1, the memory takes AC at the address in MAR
rows 8                 # rows 0 to 7 alone are there

# ---- where the flow begins, and the cells
start START
pin START 0 0          # the 3001 begins at row 0, column 0
pin FETCH 0 2
pin COUNT 0 3          # beside FETCH: a flag picks one of the two columns
pin REST 0 15          # a strobe always goes to row 0, column 15
pin ZERO 1 2
pin OTHER 1 3
pin LOW 2 4            # onleft picks one of the columns 4 to 7
pin HIGH 2 7
pin IDLE 3 0           # onpr picks one of the sixteen columns
pin BUSY 3 5
pin FULL 3 15
pin DECODE 4 2
pin WRITE 5 1
pin TESTC 5 2
pin TESTZ 5 4
pin EAST 5 12          # onright picks one of the columns 12 to 15
pin SOUTH 5 13
pin WEST 5 14
pin NORTH 5 15
pin LOAD 6 0           # onpx picks one of the sixteen columns
pin STORE 6 1
pin ADD 6 2
pin SHIFT 6 3
pin TEST 6 4
pin SHOW 6 5
pin LATCH 6 6
pin LEFT 6 7
pin RIGHT 6 8
pin WAIT 6 15
pin SHOWN 7 5

# ---- the flow: LABEL: OPERATION REGISTER SETTINGS | STATEMENT TARGETS
START: CLR R9 | goto FETCH              # R9 is 0: the address of the machine's next word
FETCH: LMI R9 FF1 | goto DECODE         # MAR is R9, then R9 + 1: FF1 puts 1 on the carry input
# DECODE: AC is the word at MAR; PX7..PX4 pick the operation, of which 9 to 14 are not there: they trap
DECODE: ACM AC | onpx LOAD STORE ADD SHIFT TEST SHOW LATCH LEFT RIGHT - - - - - - WAIT

LOAD: SDR R1 FF1 | goto FETCH           # R1 is AC
STORE: LMI R2 | goto WRITE              # MAR is R2
WRITE: NOP R0 wr=1 | goto FETCH         # the memory takes AC
ADD: ADR R1 STC | goto TESTC            # R1 + AC; the carry goes to C
TESTC: NOP R0 HCZ | ifc FETCH COUNT     # C as it stood before this clock
SHIFT: SRA AC STZ | iff FETCH COUNT     # the bit that leaves AC, tested in this very clock
COUNT: INR R8 FF1 | goto FETCH
TEST: fn 5 1 R1 0x0F STZ | goto TESTZ   # R1 under the mask 0x0F: is its low half zero?
TESTZ: NOP R0 | ifz ZERO OTHER          # Z is 0 where it is
ZERO: CLR R1 | goto FETCH
OTHER: fn 6 1 R1 0xF0 | goto FETCH      # R1 or the high half of AC

SHOW: NOP R0 io=7 wr=0 | enable SHOWN   # the PR outputs show the latch
SHOWN: NOP R0 io=0 | goto FETCH
LATCH: NOP R0 | onpr IDLE - - - - BUSY - - - - - - - - - FULL
IDLE: LDI AC FF1 | goto FETCH           # AC is what stands on the I bus
BUSY: CMA AC FF0 | goto FETCH
FULL: ILR R3 SCZ FFC | goto FETCH
LEFT: NOP R0 | onleft LOW - - HIGH      # the upper two bits of the latch
LOW: ALR R4 FFZ | goto FETCH
HIGH: LTM T | goto FETCH
RIGHT: NOP R0 | onright EAST SOUTH WEST NORTH   # the lower two bits of the latch
EAST: INR R5 FF1 | goto FETCH
SOUTH: DSM R6 | goto FETCH
WEST: DSM R5 | goto FETCH
NORTH: INR R6 FF1 | goto FETCH
WAIT: NOP R0 io=0 | strobe REST         # gives the interrupt strobe
REST: NOP R0 | goto FETCH
";

/// Its map.
const ALL_STATEMENTS_MAP: &[u8] = b"START 0.0 22 JZR 2
FETCH 0.2 04 JCC 4
DECODE 4.2 7a JPX 2
LOAD 6.0 22 JZR 2
STORE 6.1 05 JCC 5
WRITE 5.1 22 JZR 2
ADD 6.2 05 JCC 5
TESTC 5.2 50 JCF 0
SHIFT 6.3 40 JFL 0
COUNT 0.3 22 JZR 2
TEST 6.4 05 JCC 5
TESTZ 5.4 59 JZF 1
ZERO 1.2 00 JCC 0
OTHER 1.3 22 JZR 2
SHOW 6.5 77 JCE 7
SHOWN 7.5 22 JZR 2
LATCH 6.6 63 JPR 3
IDLE 3.0 22 JZR 2
BUSY 3.5 22 JZR 2
FULL 3.15 22 JZR 2
LEFT 6.7 6a JLL 2
LOW 2.4 22 JZR 2
HIGH 2.7 22 JZR 2
RIGHT 6.8 7d JRL 1
EAST 5.12 22 JZR 2
SOUTH 5.13 22 JZR 2
WEST 5.14 22 JZR 2
NORTH 5.15 22 JZR 2
WAIT 6.15 2f JZR 15
REST 0.15 22 JZR 2
";

#[test]
fn each_statement_is_mapped(rt: HostRuntime) -> Result<(), Fail> {
    assert!(rt; has_map(rt.alloc(), ALL_STATEMENTS, Status::Done, ALL_STATEMENTS_MAP)?);
    Ok(())
}
