//! Programs run by their labels, each with a trace that was worked out by hand.

ghost use Rattle.bus_script.specs.ScriptFits.{IsScriptFor};
ghost use Rattle.flow_graph.specs.Graph.{graph_of};

use crate::texts::{program_of, script_of, text_of};
use bus_script::{ClockView, Script, at};
use flow_graph::Program;
use flow_sim::{FlowState, RunFault, flow_run, flow_step};
use io_base::MemSink;
use std::alloc::Global;
use std::test::Fail;

// What the flow of a source writes under a script in so many clocks.
fn flow_of(alloc: Global, source: &[&[u8]], script: &[&[u8]], clocks: u32) -> Option<MemSink> {
    let program = program_of(alloc, source)?;
    let script = script_of(alloc, script, program.decl().slices)?;
    let mut sink = MemSink::new(alloc);
    match flow_run(alloc, &program, &script, clocks, &mut sink) {
        Ok(()) => Some(sink),
        Err(_) => None,
    }
}

// Whether the flow of a source under a script has this trace, one line a clock.
fn flows(alloc: Global, source: &[&[u8]], script: &[&[u8]], trace: &[&[u8]]) -> bool {
    if trace.len() > 100 {
        return false;
    }
    let Ok(want) = text_of(alloc, trace) else {
        return false;
    };
    match flow_of(alloc, source, script, trace.len() as u32) {
        Some(sink) => sink.bytes() == want.as_slice(),
        None => false,
    }
}

const DISPATCH: [&[u8]; 6] = [
    b"slices 1",
    b"start A",
    b"A: NOP R0 | onpx B - - - - - - - - - - - - - - -",
    b"B: NOP R0 | onpr - - - C - - - - - - - - - - - -",
    b"C: NOP R0 | enable E",
    b"E: NOP R0 | goto E",
];

const DISPATCH_SCRIPT: [&[u8]; 1] = [b"clk sx=3"];

const DISPATCH_TRACE: [&[u8]; 4] = [
    b"0 A A=0 D=0 T=0 R=0,0,0,0,0,0,0,0,0,0 C=000 L=0 P=- S=0 U=- Y=0",
    b"1 B A=0 D=0 T=0 R=0,0,0,0,0,0,0,0,0,0 C=000 L=3 P=- S=0 U=- Y=0",
    b"2 C A=0 D=0 T=0 R=0,0,0,0,0,0,0,0,0,0 C=000 L=3 P=3 S=0 U=- Y=0",
    b"3 E A=0 D=0 T=0 R=0,0,0,0,0,0,0,0,0,0 C=000 L=3 P=- S=0 U=- Y=0",
];

#[test]
fn a_dispatch_loads_the_latch(rt: HostRuntime) {
    assert!(rt; flows(rt.alloc(), &DISPATCH, &DISPATCH_SCRIPT, &DISPATCH_TRACE));
}

const WRITE: [&[u8]; 7] = [
    b"slices 4",
    b"field wr 1 0",
    b"write wr",
    b"start A",
    b"A: LDI AC FF1 | goto B",
    b"B: NOP R0 wr=1 | goto C",
    b"C: ACM T | goto C",
];

const WRITE_SCRIPT: [&[u8]; 1] = [b"clk i=0x5a"];

const WRITE_TRACE: [&[u8]; 4] = [
    b"0 A A=00 D=00 T=00 R=00,00,00,00,00,00,00,00,00,00 C=000 L=0 P=- S=0 U=0 Y=1111",
    b"1 B A=00 D=5a T=00 R=00,00,00,00,00,00,00,00,00,00 C=100 L=0 P=- S=0 U=1 Y=0000",
    b"2 C A=00 D=5a T=00 R=00,00,00,00,00,00,00,00,00,00 C=000 L=0 P=- S=0 U=0 Y=0000",
    b"3 C A=00 D=5a T=5a R=00,00,00,00,00,00,00,00,00,00 C=000 L=0 P=- S=0 U=0 Y=0000",
];

#[test]
fn a_write_is_read_back(rt: HostRuntime) {
    assert!(rt; flows(rt.alloc(), &WRITE, &WRITE_SCRIPT, &WRITE_TRACE));
}

const FETCH: [&[u8]; 19] = [
    b"slices 4",
    b"field wr 1 0",
    b"field io 3 0",
    b"write wr",
    b"start RST",
    b"RST: CLR R0 | goto FETCH",
    b"FETCH: LMI R0 FF1 | goto DEC",
    b"DEC: ACM AC | onpx LOADI ADDI STOR HALT - - - - - - - - - - - -",
    b"LOADI: SDR R1 FF1 | strobe FETCH",
    b"ADDI: ADR R1 STC | goto CHK",
    b"CHK: TZR R1 STZ | ifc NC CY",
    b"NC: NOP R0 | ifz ZERO NZ",
    b"CY: INR R2 FF1 | strobe FETCH",
    b"ZERO: INR R3 FF1 | strobe FETCH",
    b"NZ: NOP R0 | strobe FETCH",
    b"STOR: LMI AC | goto ST2",
    b"ST2: ILR R1 | goto ST3",
    b"ST3: NOP R0 wr=1 io=5 | strobe FETCH",
    b"HALT: NOP R0 | goto HALT",
];

const FETCH_SCRIPT: [&[u8]; 19] = [
    b"mem 0 0xf0",
    b"mem 1 0x20",
    b"mem 2 0x40",
    b"clk",
    b"clk",
    b"clk",
    b"clk",
    b"clk",
    b"clk px=1",
    b"clk",
    b"clk",
    b"clk",
    b"clk",
    b"clk px=2",
    b"clk",
    b"clk",
    b"clk",
    b"clk",
    b"clk px=3",
];

const FETCH_TRACE: [&[u8]; 16] = [
    b"0 RST A=00 D=00 T=00 R=00,00,00,00,00,00,00,00,00,00 C=000 L=0 P=- S=0 U=0,0 Y=0000",
    b"1 FETCH A=00 D=00 T=00 R=00,00,00,00,00,00,00,00,00,00 C=000 L=0 P=- S=0 U=0,0 Y=0000",
    b"2 DEC A=00 D=00 T=00 R=01,00,00,00,00,00,00,00,00,00 C=000 L=0 P=- S=0 U=0,0 Y=0000",
    b"3 LOADI A=00 D=f0 T=00 R=01,00,00,00,00,00,00,00,00,00 C=000 L=0 P=- S=1 U=0,0 Y=1111",
    b"4 FETCH A=00 D=f0 T=00 R=01,f0,00,00,00,00,00,00,00,00 C=100 L=0 P=- S=0 U=0,0 Y=0000",
    b"5 DEC A=01 D=f0 T=00 R=02,f0,00,00,00,00,00,00,00,00 C=000 L=0 P=- S=0 U=0,0 Y=0000",
    b"6 ADDI A=01 D=20 T=00 R=02,f0,00,00,00,00,00,00,00,00 C=000 L=0 P=- S=0 U=0,0 Y=1100",
    b"7 CHK A=01 D=20 T=00 R=02,10,00,00,00,00,00,00,00,00 C=110 L=0 P=- S=0 U=0,0 Y=1100",
    b"8 CY A=01 D=20 T=00 R=02,10,00,00,00,00,00,00,00,00 C=111 L=0 P=- S=1 U=0,0 Y=0000",
    b"9 FETCH A=01 D=20 T=00 R=02,10,01,00,00,00,00,00,00,00 C=011 L=0 P=- S=0 U=0,0 Y=0000",
    b"10 DEC A=02 D=20 T=00 R=03,10,01,00,00,00,00,00,00,00 C=011 L=0 P=- S=0 U=0,0 Y=0000",
    b"11 STOR A=02 D=40 T=00 R=03,10,01,00,00,00,00,00,00,00 C=011 L=0 P=- S=0 U=0,0 Y=0000",
    b"12 ST2 A=40 D=40 T=00 R=03,10,01,00,00,00,00,00,00,00 C=011 L=0 P=- S=0 U=0,0 Y=0000",
    b"13 ST3 A=40 D=10 T=00 R=03,10,01,00,00,00,00,00,00,00 C=011 L=0 P=- S=1 U=1,5 Y=0000",
    b"14 FETCH A=40 D=10 T=00 R=03,10,01,00,00,00,00,00,00,00 C=011 L=0 P=- S=0 U=0,0 Y=0001",
    b"15 DEC A=03 D=10 T=00 R=04,10,01,00,00,00,00,00,00,00 C=011 L=0 P=- S=0 U=0,0 Y=0000",
];

#[test]
fn an_eight_bit_machine_fetches_and_executes(rt: HostRuntime) {
    assert!(rt; flows(rt.alloc(), &FETCH, &FETCH_SCRIPT, &FETCH_TRACE));
}

/// The write field is 1 by default, so each clock of the trap writes.
const TRAP: [&[u8]; 6] = [
    b"slices 1",
    b"field wr 1 1",
    b"write wr",
    b"start A",
    b"A: NOP R0 wr=0 | onpx A B - - - - - - - - - - - - - -",
    b"B: NOP R0 | goto B",
];

const TRAP_SCRIPT: [&[u8]; 1] = [b"clk px=5 sx=9"];

const TRAP_TRACE: [&[u8]; 3] = [
    b"0 A A=0 D=0 T=0 R=0,0,0,0,0,0,0,0,0,0 C=000 L=0 P=- S=0 U=0 Y=0",
    b"1 - A=0 D=0 T=0 R=0,0,0,0,0,0,0,0,0,0 C=000 L=9 P=- S=0 U=1 Y=0",
    b"2 - A=0 D=0 T=0 R=0,0,0,0,0,0,0,0,0,0 C=000 L=9 P=- S=0 U=1 Y=0",
];

#[test]
fn the_trap_is_not_left(rt: HostRuntime) {
    assert!(rt; flows(rt.alloc(), &TRAP, &TRAP_SCRIPT, &TRAP_TRACE));
}

/// F is 0 as the first clock begins, and its flag input is 1. The bus drives M in the second.
const FLAG_INPUT: [&[u8]; 4] = [
    b"slices 2",
    b"start A",
    b"A: LDI AC FF1 | iff A B",
    b"B: ACM T | goto B",
];

const FLAG_INPUT_SCRIPT: [&[u8]; 3] = [b"mem 0 7", b"clk i=0xc", b"clk m=3"];

const FLAG_INPUT_TRACE: [&[u8]; 4] = [
    b"0 A A=0 D=0 T=0 R=0,0,0,0,0,0,0,0,0,0 C=000 L=0 P=- S=0 U=- Y=11",
    b"1 B A=0 D=c T=0 R=0,0,0,0,0,0,0,0,0,0 C=100 L=0 P=- S=0 U=- Y=00",
    b"2 B A=0 D=c T=3 R=0,0,0,0,0,0,0,0,0,0 C=000 L=0 P=- S=0 U=- Y=00",
    b"3 B A=0 D=c T=7 R=0,0,0,0,0,0,0,0,0,0 C=000 L=0 P=- S=0 U=- Y=00",
];

#[test]
fn the_flag_input_of_a_clock_decides_in_it(rt: HostRuntime) {
    assert!(rt;
        flows(
            rt.alloc(),
            &FLAG_INPUT,
            &FLAG_INPUT_SCRIPT,
            &FLAG_INPUT_TRACE
        )
    );
}

/// One instruction that strobes.
const STROBE: [&[u8]; 3] = [b"slices 1", b"start A", b"A: NOP R0 | strobe A"];

#[test]
fn no_clocks_write_nothing(rt: HostRuntime) {
    assert!(rt; flows(rt.alloc(), &STROBE, &[], &[]));
}

/// The first clock of STROBE.
const FIRST_LINE: &[u8] = b"0 A A=0 D=0 T=0 R=0,0,0,0,0,0,0,0,0,0 C=000 L=0 P=- S=1 U=- Y=0\n";

/// The write that fails, and how much of FIRST_LINE stands then.
const FAILING: [(u32, usize); 2] = [(1, 0), (2, FIRST_LINE.len())];

// Whether a run of five clocks ends at the write that fails, and leaves so much of FIRST_LINE.
fn ends_at(
    alloc: Global,
    program: &Program,
    script: &Script,
    sink: &mut MemSink,
    length: usize,
) -> bool
    requires { IsScriptFor (graph_of program.now).decl.slices script.now }
{
    let ended = flow_run(alloc, program, script, 5, sink);
    ended == Err(RunFault::Failed) && FIRST_LINE.get(..length) == Some(sink.bytes())
}

// Whether the run of STROBE ends like that where this write fails.
fn strobe_ends_at(alloc: Global, failing: u32, length: usize) -> bool {
    let Some(program) = program_of(alloc, &STROBE) else {
        return false;
    };
    let Some(script) = script_of(alloc, &[], program.decl().slices) else {
        return false;
    };
    let mut sink = MemSink::new(alloc);
    sink.fail(failing).is_ok() && ends_at(alloc, &program, &script, &mut sink, length)
}

#[test]
fn a_failed_write_ends_the_run(rt: HostRuntime) {
    for (failing, length) in &FAILING {
        assert!(rt;
            strobe_ends_at(rt.alloc(), *failing, *length),
            "write {failing}"
        );
    }
}

/// One instruction on two slices that counts in R1 and strobes.
const COUNTING: [&[u8]; 3] = [b"slices 2", b"start A", b"A: INR R1 FF1 | strobe A"];

// What the first clock of COUNTING shows.
#[tactic(auto, unfolding(flow_sim::specs::Flow::flow_start, flow_sim::specs::Machine::start_machine))]
fn first_view(alloc: Global) -> Option<ClockView> {
    let program = program_of(alloc, &COUNTING)?;
    let script = script_of(alloc, &[], program.decl().slices)?;
    match FlowState::start(alloc, &program, &script) {
        Ok(mut state) => Some(flow_step(&program, &mut state, &at(&script, 0))),
        Err(_) => None,
    }
}

#[test]
fn a_clock_shows_its_start(rt: HostRuntime) -> Result<(), Fail> {
    let view = first_view(rt.alloc()).ok_or("a clock")?;
    assert!(rt; view.clock == 0 && view.regs.r[1] == 0 && view.ise);
    Ok(())
}
