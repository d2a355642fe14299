//! The traces of words on the bench: of pinned sources, and of no program.
ghost use Rattle.bus_script.specs.ScriptFits.{IsScriptFor};
ghost use Rattle.field_decl.specs.Decls.{declaration_of};

use crate::texts::{program_of, script_of, text_of};
use bus_bench::{bad_shift, chip_matches_flow, programs_have_graphs, run, words_of_a_placement};
use bus_script::Script;
use field_decl::{Decl, read_decl};
use flow_graph::Program;
use flow_sim::RunFault;
use io_base::MemSink;
use mcu_jumps::Cell;
use place_model::pinned;
use prom_split::{Words, words_of};
use std::alloc::{AllocError, Global};
use std::test::Fail;

/// One instruction that leads to itself.
const ONE_INSTRUCTION_LOOP: [&[u8]; 4] = [
    b"slices 1",
    b"start A",
    b"pin A 0 0",
    b"A: NOP R0 | goto A",
];

// The words of the placement of a program's pins.
fn placed_words(alloc: Global, program: &Program) -> Option<Words> {
    let Ok(placement) = pinned(alloc, program) else {
        return None;
    };
    words_of(alloc, program, &placement).ok()
}

// What the bench writes in so many clocks.
fn written(
    alloc: Global,
    words: &Words,
    decl: &Decl,
    script: &Script,
    clocks: u32,
) -> Option<MemSink>
    requires { IsScriptFor (declaration_of decl.now).slices script.now }
{
    let mut sink = MemSink::new(alloc);
    match run(alloc, words, decl, script, clocks, &mut sink) {
        Ok(()) => Some(sink),
        Err(_) => None,
    }
}

// What the bench writes of a pinned source in so many clocks.
fn chip_text(alloc: Global, source: &[&[u8]], clocks: u32) -> Option<MemSink> {
    let program = program_of(alloc, source)?;
    let script = script_of(alloc, &[], program.decl().slices)?;
    let words = placed_words(alloc, &program)?;
    written(alloc, &words, program.decl(), &script, clocks)
}

// Whether these are the lines that were written.
fn has_lines(alloc: Global, sink: &MemSink, lines: &[&[u8]]) -> bool {
    match text_of(alloc, lines) {
        Ok(text) => sink.bytes() == text.as_slice(),
        Err(_) => false,
    }
}

// Whether the words of a pinned source have this trace on the bench, one line a clock.
fn traces(alloc: Global, source: &[&[u8]], trace: &[&[u8]]) -> bool {
    if trace.len() > 100 {
        return false;
    }
    match chip_text(alloc, source, trace.len() as u32) {
        Some(sink) => has_lines(alloc, &sink, trace),
        None => false,
    }
}

/// The first clocks of ONE_INSTRUCTION_LOOP.
const LOOP_TRACE: [&[u8]; 3] = [
    b"0 0.0 A=0 D=0 T=0 R=0,0,0,0,0,0,0,0,0,0 C=000 L=0 P=- S=0 U=- Y=0",
    b"1 0.0 A=0 D=0 T=0 R=0,0,0,0,0,0,0,0,0,0 C=000 L=0 P=- S=0 U=- Y=0",
    b"2 0.0 A=0 D=0 T=0 R=0,0,0,0,0,0,0,0,0,0 C=000 L=0 P=- S=0 U=- Y=0",
];

#[test]
fn one_instruction_loops(rt: HostRuntime) {
    let alloc = rt.alloc();
    assert!(rt; traces(alloc, &ONE_INSTRUCTION_LOOP, &[]));
    assert!(rt; traces(alloc, &ONE_INSTRUCTION_LOOP, &LOOP_TRACE[..1]));
    assert!(rt; traces(alloc, &ONE_INSTRUCTION_LOOP, &LOOP_TRACE));
}

// These words, with the words at some addresses replaced.
fn replaced(
    alloc: Global,
    words: &Words,
    others: &[(usize, u128)],
) -> Result<Option<Words>, AllocError> {
    let mut items = Vec::new(alloc);
    for word in words.as_slice() {
        items.push(*word)?;
    }
    for (address, word) in others {
        if let Some(item) = items.get_mut(*address) {
            *item = *word;
        }
    }
    Ok(words_from(items))
}

// 512 words.
fn words_from(items: Vec<u128>) -> Option<Words> {
    if items.len() == 512 {
        Some(Words::of(items))
    } else {
        None
    }
}

// Whether the run of these words on one slice is refused at this cell, and nothing is written.
fn run_is_refused(alloc: Global, words: &Words, program: &Program, cell: Cell) -> bool {
    let Some(script) = script_of(alloc, &[], program.decl().slices) else {
        return false;
    };
    let mut sink = MemSink::new(alloc);
    let ended = run(alloc, words, program.decl(), &script, 1, &mut sink);
    ended == Err(RunFault::ShiftMask(cell)) && sink.bytes().is_empty()
}

// Whether the words of the one-instruction loop with these others are refused at this cell.
fn refused_at(alloc: Global, others: &[(usize, u128)], cell: Cell) -> bool {
    let Some(program) = program_of(alloc, &ONE_INSTRUCTION_LOOP) else {
        return false;
    };
    let Some(placed) = placed_words(alloc, &program) else {
        return false;
    };
    match replaced(alloc, &placed, others) {
        Ok(Some(words)) => {
            bad_shift(&words, program.decl()) == Some(cell)
                && run_is_refused(alloc, &words, &program, cell)
        }
        _ => false,
    }
}

#[test]
fn the_first_masked_shift_is_told(rt: HostRuntime) {
    let alloc = rt.alloc();
    // 0x47180 has function 0x0e and a K bit, 0x47980 function 0x0f and one, and 0x07980 none.
    assert!(rt; refused_at(alloc, &[(0, 0x47180)], Cell::at(0, 0)));
    assert!(rt; refused_at(alloc, &[(511, 0x47980)], Cell::at(31, 15)));
    let three = [(16, 0x07980), (300, 0x47180), (37, 0x47980)];
    assert!(rt; refused_at(alloc, &three, Cell::at(2, 5)));
    let two = [(255, 0x47180), (256, 0x47180)];
    assert!(rt; refused_at(alloc, &two, Cell::at(15, 15)));
}

// Words of no program, of 26 bits, from a linear congruence; the right shift has no K bits.
fn scattered_words(alloc: Global) -> Result<Option<Words>, AllocError> {
    let mut items = Vec::new(alloc);
    let mut state = 577u64;
    for _ in 0..512 {
        state = state
            .wrapping_mul(6364136223846793005)
            .wrapping_add(1442695040888963407);
        let word = u128::from(state >> 20 & 0x3ff_ffff);
        let is_shift = word >> 11 & 0x7e == 0x0e;
        items.push(if is_shift { word & !(3 << 18) } else { word })?;
    }
    Ok(words_from(items))
}

/// Three slices, two K bits, a write field and five bits of another.
const SCATTERED_LAYOUT: &[u8] =
    b"slices 3\nkbus 2\nfield wr 1 0\nfield io 5 0\nprom 512 4\nwrite wr\n";

const SCATTERED_SCRIPT: [&[u8]; 18] = [
    b"mem 0 0x31",
    b"mem 5 2",
    b"clk i=0x2a px=5 sx=9",
    b"clk m=0x3f i=1 px=14 sx=2",
    b"clk i=0x15 px=3 sx=7",
    b"clk i=7 px=8 sx=12",
    b"clk i=0x2a px=5 sx=9",
    b"clk m=0x3f i=1 px=14 sx=2",
    b"clk i=0x15 px=3 sx=7",
    b"clk i=7 px=8 sx=12",
    b"clk i=0x2a px=5 sx=9",
    b"clk m=0x3f i=1 px=14 sx=2",
    b"clk i=0x15 px=3 sx=7",
    b"clk i=7 px=8 sx=12",
    b"clk i=0x2a px=5 sx=9",
    b"clk m=0x3f i=1 px=14 sx=2",
    b"clk i=0x15 px=3 sx=7",
    b"clk i=7 px=8 sx=12",
];

/// Worked out by a program of its own.
const SCATTERED_TRACE: [&[u8]; 16] = [
    b"0 0.0 A=00 D=00 T=00 R=00,00,00,00,00,00,00,00,00,00 C=000 L=0 P=- S=0 U=1,10 Y=000",
    b"1 5.2 A=00 D=00 T=00 R=00,00,00,00,00,00,00,00,00,00 C=000 L=0 P=- S=0 U=0,5 Y=000",
    b"2 0.4 A=00 D=00 T=00 R=00,00,00,00,00,00,3f,00,00,00 C=000 L=0 P=- S=0 U=1,16 Y=111",
    b"3 14.3 A=00 D=00 T=15 R=00,00,00,00,00,00,3f,00,00,00 C=111 L=0 P=0 S=0 U=0,11 Y=111",
    b"4 8.3 A=00 D=00 T=00 R=00,00,00,00,00,00,3f,00,00,00 C=111 L=0 P=- S=0 U=0,3 Y=111",
    b"5 6.3 A=00 D=00 T=00 R=00,00,00,00,00,00,3f,00,00,00 C=111 L=0 P=0 S=0 U=1,24 Y=111",
    b"6 0.3 A=3f D=00 T=38 R=00,00,00,00,00,00,3f,00,00,00 C=111 L=0 P=- S=0 U=1,10 Y=000",
    b"7 0.11 A=3f D=3f T=38 R=00,00,00,00,00,00,3f,00,00,00 C=001 L=0 P=- S=0 U=0,29 Y=111",
    b"8 31.11 A=3f D=3f T=07 R=00,00,00,00,00,00,3f,00,00,00 C=111 L=0 P=- S=0 U=0,29 Y=000",
    b"9 31.0 A=3f D=01 T=07 R=00,00,00,00,00,00,3f,00,00,00 C=011 L=0 P=- S=0 U=1,4 Y=111",
    b"10 0.7 A=3f D=01 T=07 R=00,00,00,00,00,00,3f,01,00,00 C=111 L=0 P=- S=0 U=0,20 Y=000",
    b"11 1.3 A=3f D=01 T=07 R=00,00,00,00,00,00,3f,01,00,00 C=000 L=7 P=- S=0 U=1,9 Y=000",
    b"12 3.8 A=3f D=01 T=07 R=00,00,00,00,01,00,3f,01,00,00 C=000 L=c P=- S=0 U=0,5 Y=111",
    b"13 20.8 A=3f D=01 T=29 R=00,00,00,00,01,00,3f,01,00,00 C=111 L=c P=- S=0 U=0,12 Y=000",
    b"14 9.8 A=3f D=2a T=2a R=00,00,00,00,01,00,3f,01,00,00 C=000 L=c P=- S=0 U=1,9 Y=000",
    b"15 16.8 A=38 D=2a T=2a R=38,00,00,00,01,00,3f,01,00,00 C=000 L=c P=- S=0 U=1,14 Y=110",
];

// What the bench writes of the scattered words in sixteen clocks.
fn scattered_text(alloc: Global) -> Option<MemSink> {
    let decl = read_decl(alloc, SCATTERED_LAYOUT).ok()?;
    let script = script_of(alloc, &SCATTERED_SCRIPT, decl.slices)?;
    let words = scattered_words(alloc).ok()??;
    written(alloc, &words, &decl, &script, 16)
}

#[test]
fn words_of_no_program_run(rt: HostRuntime) -> Result<(), Fail> {
    let sink = scattered_text(rt.alloc()).ok_or("a run")?;
    assert!(rt; has_lines(rt.alloc(), &sink, &SCATTERED_TRACE));
    Ok(())
}

/// The first clock of ONE_INSTRUCTION_LOOP.
const FIRST_LINE: &[u8] = b"0 0.0 A=0 D=0 T=0 R=0,0,0,0,0,0,0,0,0,0 C=000 L=0 P=- S=0 U=- Y=0\n";

/// The write that fails, and how much of FIRST_LINE stands then.
const FAILING: [(u32, usize); 2] = [(1, 0), (2, FIRST_LINE.len())];

// Whether a run of five clocks ends at the write that fails, and leaves so much of FIRST_LINE.
fn ends_at(
    alloc: Global,
    words: &Words,
    decl: &Decl,
    script: &Script,
    sink: &mut MemSink,
    length: usize,
) -> bool
    requires { IsScriptFor (declaration_of decl.now).slices script.now }
{
    let ended = run(alloc, words, decl, script, 5, sink);
    ended == Err(RunFault::Failed) && FIRST_LINE.get(..length) == Some(sink.bytes())
}

// Whether the run of ONE_INSTRUCTION_LOOP ends like that where this write fails.
fn loop_ends_at(alloc: Global, failing: u32, length: usize) -> bool {
    let Some(program) = program_of(alloc, &ONE_INSTRUCTION_LOOP) else {
        return false;
    };
    let Some(words) = placed_words(alloc, &program) else {
        return false;
    };
    let Some(script) = script_of(alloc, &[], program.decl().slices) else {
        return false;
    };
    let mut sink = MemSink::new(alloc);
    sink.fail(failing).is_ok() && ends_at(alloc, &words, program.decl(), &script, &mut sink, length)
}

#[test]
fn a_failed_write_ends_the_run(rt: HostRuntime) {
    for (failing, length) in &FAILING {
        assert!(rt;
            loop_ends_at(rt.alloc(), *failing, *length),
            "write {failing}"
        );
    }
}

#[test]
fn the_law_is_cited_for_a_program(rt: HostRuntime) -> Result<(), Fail> {
    let program = program_of(rt.alloc(), &ONE_INSTRUCTION_LOOP).ok_or("a program")?;
    programs_have_graphs(&program);
    words_of_a_placement();
    chip_matches_flow();
    Ok(())
}
