//! One source with every statement, traps, fields and masks: the trace of its saved images beside that of its flow.

use super::{program_of, save_pinned};
use bus_script::read_script;
use flow_sim::flow_run;
use io_base::{MemShelf, MemSink};
use replies::Status;
use std::alloc::Global;
use std::test::Fail;

/// Every statement, traps, fields, a write field that is 1 by default, and masks of single K bits.
const EVERY_STATEMENT: &[u8] = b"slices 3\n\
kbus 2\n\
field wr 1 1\n\
field io 5 17\n\
write wr\n\
start S\n\
pin S 0 0\n\
pin A 1 0\n\
pin B 1 1\n\
pin C 2 5\n\
pin D 2 9\n\
pin E 3 1\n\
pin F 0 15\n\
pin G 4 10\n\
pin H 4 11\n\
pin I 5 10\n\
pin J 5 11\n\
pin K 6 10\n\
pin L 7 5\n\
pin M 7 6\n\
pin N 6 13\n\
pin O 6 14\n\
pin P 6 11\n\
S: LDI AC FF1 wr=0 | onpx A B - - - - - - - - - - - - - -\n\
A: fn 3 1 R2 0x38 SCZ wr=0 io=3 | onpr - - - - - C - - - D - - - - - -\n\
B: INR R1 FF1 wr=0 | enable E\n\
C: SRA AC STC wr=0 | onleft - L M -\n\
D: LMI R2 FF1 wr=1 io=31 | onright - N O -\n\
E: fn 6 1 R3 0x07 STC FF1 wr=0 | strobe F\n\
F: TZA AC STZ wr=0 | iff G H\n\
G: CLR R1 FF0 wr=0 | ifc I J\n\
H: ACM T FFC wr=0 | ifz K P\n\
I: LMI AC wr=0 | goto K\n\
J: CMR R4 FFZ wr=0 | goto I\n\
K: ACM AC wr=0 | goto S\n\
L: ILR R2 STC FF1 wr=1 io=1 | goto S\n\
M: NOP R0 | goto S\n\
N: SDR R5 FF1 STZ wr=1 | goto S\n\
O: LTM AC wr=0 | goto S\n\
P: XNR R6 wr=0 io=7 | goto S\n";

const SCRIPT: &[u8] = b"mem 0 0x15\n\
mem 1 0x2a\n\
mem 63 9\n\
clk i=0x25 px=1 sx=6\n\
clk\n\
clk\n\
clk\n\
clk\n\
clk\n\
clk px=1 sx=2\n\
clk\n\
clk\n\
clk\n\
clk\n\
clk\n\
clk\n\
clk\n\
clk i=0x11 sx=5\n\
clk\n\
clk m=0x33\n\
clk\n\
clk i=0x3f sx=9\n\
clk\n\
clk\n\
clk\n\
clk i=1 sx=9\n\
clk\n\
clk\n\
clk\n\
clk i=2 px=4 sx=15\n";

// The place of a line, with its clock before it and all else behind it.
fn cut_at_place(line: &str) -> Option<(&str, &str, &str)> {
    let (clock, rest) = line.split_once(' ')?;
    let (place, rest) = rest.split_once(' ')?;
    Some((clock, place, rest))
}

// The cell that a map text gives a label.
fn cell_in<'a>(map: &'a str, name: &str) -> Option<&'a str> {
    for line in map.lines() {
        let (label, rest) = line.split_once(' ')?;
        if label == name {
            let (cell, _) = rest.split_once(' ')?;
            return Some(cell);
        }
    }
    None
}

// Whether a line of the chip's trace is that of the flow with the cell of its label.
fn is_alike(map: &str, chip: &str, flow: &str) -> Option<bool> {
    let (clock, cell, rest) = cut_at_place(chip)?;
    let (flow_clock, name, flow_rest) = cut_at_place(flow)?;
    if name != "-" && cell_in(map, name) != Some(cell) {
        return Some(false);
    }
    Some(clock == flow_clock && rest == flow_rest)
}

// How many lines of two traces are alike before the first that are not.
fn alike_lines(map: &str, trace: &str, flow: &str) -> u32 {
    let mut count = 0u32;
    for (chip_line, flow_line) in trace.lines().zip(flow.lines()) {
        if is_alike(map, chip_line, flow_line) != Some(true) {
            return count;
        }
        count = count.saturating_add(1);
    }
    count
}

// How many clocks of what was saved and run are those of the flow.
fn alike_clocks(shelf: &MemShelf, chip: &MemSink, flow: &MemSink) -> Option<u32> {
    let map = std::str::from_utf8(shelf.file("o.map")?).ok()?;
    let chip = std::str::from_utf8(chip.bytes()).ok()?;
    let flow = std::str::from_utf8(flow.bytes()).ok()?;
    let trace = chip.strip_prefix("placed\n")?;
    Some(alike_lines(map, trace, flow))
}

// Thirty clocks of the flow.
fn flow_of_source(alloc: Global) -> Option<MemSink> {
    let Some(program) = program_of(alloc, EVERY_STATEMENT) else {
        return None;
    };
    let Ok(script) = read_script(alloc, SCRIPT, program.decl().slices) else {
        return None;
    };
    let mut flow = MemSink::new(alloc);
    match flow_run(alloc, &program, &script, 30, &mut flow) {
        Ok(()) => Some(flow),
        Err(_) => None,
    }
}

#[test]
fn every_statement_follows_the_flow(rt: HostRuntime) -> Result<(), Fail> {
    let alloc = rt.alloc();
    let mut shelf = MemShelf::new(alloc);
    let mut chip = MemSink::new(alloc);
    let ended = save_pinned(alloc, &mut shelf, &mut chip, EVERY_STATEMENT, SCRIPT, 30);
    assert!(rt; ended == Some(Status::Done));
    let flow = flow_of_source(alloc).ok_or("no flow")?;
    assert!(rt; alike_clocks(&shelf, &chip, &flow) == Some(30));
    Ok(())
}
