//! What `flow` prints.

use super::fetch_execute::{FETCH_EXECUTE, FETCH_EXECUTE_FLOW, FETCH_EXECUTE_SCRIPT};
use super::{answers, shelf_with, shelf_with_script};
use crate::flow_command::flow_command;
use io_base::{CallKind, MemSink, OutOfMemory};
use replies::Status;
use std::alloc::Global;
use std::test::Fail;

/// A source of one instruction.
const LOOP: &[u8] = b"slices 1\nstart A\nA: NOP R0 | goto A\n";
/// A dispatch that loads the latch, one that reads it, and the PR outputs.
const LATCH: &[u8] = b"slices 1\nstart A\n\
A: NOP R0 | onpx B - - - - - - - - - - - - - - -\n\
B: NOP R0 | onpr - - - C - - - - - - - - - - - -\n\
C: NOP R0 | enable E\n\
E: NOP R0 | goto E\n";
/// A word is written to the memory and read back.
const WRITE: &[u8] = b"slices 4\nfield wr 1 0\nwrite wr\nstart A\n\
A: LDI AC FF1 | goto B\n\
B: NOP R0 wr=1 | goto C\n\
C: ACM T | goto C\n";

/// A source, a script, a number of clocks, and what the flow prints.
type Trace = (&'static [u8], &'static [u8], u32, &'static [u8]);

const TRACES: [Trace; 6] = [
    (LOOP, b"", 0, b""),
    (
        LOOP,
        b"",
        2,
        b"0 A A=0 D=0 T=0 R=0,0,0,0,0,0,0,0,0,0 C=000 L=0 P=- S=0 U=- Y=0\n\
1 A A=0 D=0 T=0 R=0,0,0,0,0,0,0,0,0,0 C=000 L=0 P=- S=0 U=- Y=0\n",
    ),
    (
        LATCH,
        b"clk sx=3\n",
        4,
        b"0 A A=0 D=0 T=0 R=0,0,0,0,0,0,0,0,0,0 C=000 L=0 P=- S=0 U=- Y=0\n\
1 B A=0 D=0 T=0 R=0,0,0,0,0,0,0,0,0,0 C=000 L=3 P=- S=0 U=- Y=0\n\
2 C A=0 D=0 T=0 R=0,0,0,0,0,0,0,0,0,0 C=000 L=3 P=3 S=0 U=- Y=0\n\
3 E A=0 D=0 T=0 R=0,0,0,0,0,0,0,0,0,0 C=000 L=3 P=- S=0 U=- Y=0\n",
    ),
    (
        LATCH,
        b"clk px=1\n",
        2,
        b"0 A A=0 D=0 T=0 R=0,0,0,0,0,0,0,0,0,0 C=000 L=0 P=- S=0 U=- Y=0\n\
1 - A=0 D=0 T=0 R=0,0,0,0,0,0,0,0,0,0 C=000 L=0 P=- S=0 U=- Y=0\n",
    ),
    (
        WRITE,
        b"clk i=0x5a\n",
        4,
        b"0 A A=00 D=00 T=00 R=00,00,00,00,00,00,00,00,00,00 C=000 L=0 P=- S=0 U=0 Y=1111\n\
1 B A=00 D=5a T=00 R=00,00,00,00,00,00,00,00,00,00 C=100 L=0 P=- S=0 U=1 Y=0000\n\
2 C A=00 D=5a T=00 R=00,00,00,00,00,00,00,00,00,00 C=000 L=0 P=- S=0 U=0 Y=0000\n\
3 C A=00 D=5a T=5a R=00,00,00,00,00,00,00,00,00,00 C=000 L=0 P=- S=0 U=0 Y=0000\n",
    ),
    (FETCH_EXECUTE, FETCH_EXECUTE_SCRIPT, 16, FETCH_EXECUTE_FLOW),
];

// Whether the flow of a source ends with this status and prints this text.
fn has_flow(
    alloc: Global,
    source: &[u8],
    script: &[u8],
    clocks: u32,
    status: Status,
    text: &[u8],
) -> Result<bool, OutOfMemory> {
    let mut shelf = shelf_with_script(alloc, source, script)?;
    let mut out = MemSink::new(alloc);
    let ended = flow_command(alloc, &mut shelf, &mut out, "s", "t", clocks);
    Ok(ended == status && out.bytes() == text)
}

#[test]
fn traces_are_printed(rt: HostRuntime) -> Result<(), Fail> {
    for (source, script, clocks, text) in &TRACES {
        let told = has_flow(rt.alloc(), source, script, *clocks, Status::Done, text)?;
        assert!(rt; told, "{clocks} clocks");
    }
    Ok(())
}

/// A source, a script, and the text that refuses the first of them that is refused.
type Refusal = (&'static [u8], &'static [u8], &'static [u8]);

const REFUSALS: [Refusal; 6] = [
    (LOOP, b"clk q=1", b"refused t line 1 Key\n"),
    (LOOP, b"clk px=16", b"refused t line 1 Value\n"),
    (LOOP, b"clk i=4", b"refused t line 1 Value\n"),
    (LOOP, b"clk i=1 i=2", b"refused t line 1 Twice\n"),
    (LOOP, b"\nclk i=@", b"refused t line 2 BadByte col 7\n"),
    (b"", b"clk q=1", b"refused s line 0 Empty\n"),
];

#[test]
fn the_first_file_that_is_refused_is_told(rt: HostRuntime) -> Result<(), Fail> {
    for (source, script, text) in &REFUSALS {
        let told = has_flow(rt.alloc(), source, script, 1, Status::Input, text)?;
        assert!(rt; told, "{text:?}");
    }
    Ok(())
}

#[test]
fn a_script_of_65537_lines_is_refused(rt: HostRuntime) -> Result<(), Fail> {
    let script = vec![in rt.alloc(); b'\n'; 65_537]?;
    let text = b"refused t line 65537 Lines\n";
    assert!(rt; has_flow(rt.alloc(), LOOP, &script, 1, Status::Input, text)?);
    Ok(())
}

// Whether `flow s t CLOCKS` ends with this status and prints this text.
fn flow_answers(
    alloc: Global,
    clocks: &str,
    status: Status,
    text: &[u8],
) -> Result<bool, OutOfMemory> {
    let mut shelf = shelf_with_script(alloc, LOOP, b"")?;
    answers(alloc, &mut shelf, &["flow", "s", "t", clocks], status, text)
}

/// Words that are no number of clocks.
const NO_CLOCKS: [&str; 10] = [
    "clocks=65537",
    "clocks=",
    "clocks=+1",
    "clocks=0x1",
    "clocks=1_0",
    "clock=1",
    "1",
    "clocks=000000000000000000001",
    "clocks=99999999999999999999",
    "clocks=18446744073709551617",
];

#[test]
fn clocks_are_a_number_up_to_65536(rt: HostRuntime) -> Result<(), Fail> {
    for clocks in &NO_CLOCKS {
        let refused = flow_answers(rt.alloc(), clocks, Status::Words, b"refused words\n")?;
        assert!(rt; refused, "{clocks}");
    }
    Ok(())
}

#[test]
fn clocks_have_up_to_20_digits(rt: HostRuntime) -> Result<(), Fail> {
    let clocks = "clocks=00000000000000000001";
    let text = b"0 A A=0 D=0 T=0 R=0,0,0,0,0,0,0,0,0,0 C=000 L=0 P=- S=0 U=- Y=0\n";
    assert!(rt; flow_answers(rt.alloc(), clocks, Status::Done, text)?);
    Ok(())
}

/// Each file is read by one read, and by one more that finds its end; an empty file by one.
const READS: [(u32, &[u8]); 2] = [(1, b"cannot read s\n"), (3, b"cannot read t\n")];

/// The words of a flow.
const FLOW: [&str; 4] = ["flow", "s", "t", "clocks=1"];

#[test]
fn failing_reads_of_a_flow_are_told(rt: HostRuntime) -> Result<(), Fail> {
    for (read, text) in &READS {
        let mut shelf = shelf_with_script(rt.alloc(), LOOP, b"")?;
        shelf.fail(CallKind::Read, *read)?;
        assert!(rt; answers(rt.alloc(), &mut shelf, &FLOW, Status::ShelfFault, text)?);
    }
    Ok(())
}

#[test]
fn an_absent_script_is_refused(rt: HostRuntime) -> Result<(), Fail> {
    let mut shelf = shelf_with(rt.alloc(), LOOP)?;
    let text = b"refused t NoFile\n";
    assert!(rt; answers(rt.alloc(), &mut shelf, &FLOW, Status::Input, text)?);
    Ok(())
}
