//! A placement saved, read back and run, and saved images run.
mod every_statement;
mod placements;
mod runs;
mod spoiled;

ghost use Rattle.std.specs.Prelude.{◌≤◌};

use bench_answers::{PlacedRun, save_and_run};
use flow_graph::Program;
use io_base::{MemShelf, MemSink, OutOfMemory, Shelf, Sink};
use micro_asm::assemble;
use place_model::pinned;
use replies::Status;
use std::alloc::Global;

/// A source of one instruction, in its cell.
const LOOP: &[u8] = b"slices 1\nstart A\npin A 0 0\nA: NOP R0 | goto A\n";
/// Its layout.
const LOOP_LAYOUT: &[u8] = b"slices 1\nkbus 1\nprom 512 4\n";
/// What its `make` of three clocks prints.
const LOOP_PLACED: &[u8] = b"placed\n\
0 0.0 A=0 D=0 T=0 R=0,0,0,0,0,0,0,0,0,0 C=000 L=0 P=- S=0 U=- Y=0\n\
1 0.0 A=0 D=0 T=0 R=0,0,0,0,0,0,0,0,0,0 C=000 L=0 P=- S=0 U=- Y=0\n\
2 0.0 A=0 D=0 T=0 R=0,0,0,0,0,0,0,0,0,0 C=000 L=0 P=- S=0 U=- Y=0\n";
/// Its first three clocks.
const LOOP_CLOCKS: &[u8] = b"0 0.0 A=0 D=0 T=0 R=0,0,0,0,0,0,0,0,0,0 C=000 L=0 P=- S=0 U=- Y=0\n\
1 0.0 A=0 D=0 T=0 R=0,0,0,0,0,0,0,0,0,0 C=000 L=0 P=- S=0 U=- Y=0\n\
2 0.0 A=0 D=0 T=0 R=0,0,0,0,0,0,0,0,0,0 C=000 L=0 P=- S=0 U=- Y=0\n";
/// Its images, each with the first of its four bits in a word.
const LOOP_IMAGES: [(&str, u32); 5] = [
    ("o.p0.bpnf", 0),
    ("o.p1.bpnf", 4),
    ("o.p2.bpnf", 8),
    ("o.p3.bpnf", 12),
    ("o.p4.bpnf", 16),
];

// The letter of a bit in an image.
fn letter(word: u32, bit: u32) -> u8
    requires { bit ≤ 31 }
{
    if word >> bit & 1 == 1 { b'P' } else { b'N' }
}

// The text of four bits of a word, and LF.
fn frame(bits: u32) -> [u8; 7] {
    [
        b'B',
        letter(bits, 3),
        letter(bits, 2),
        letter(bits, 1),
        letter(bits, 0),
        b'F',
        b'\n',
    ]
}

// Adds the words of some addresses to an image of LOOP. Every word has function 0x60 from bit 11, HCZ, which is 3,
// from bit 7, and JCC to its row.
fn push_words(
    image: &mut Vec<u8>,
    first_bit: u32,
    start: u32,
    end: u32,
) -> Result<(), OutOfMemory> {
    for address in start..end {
        let word = 0x3_0180 | address / 16;
        image.extend_from_slice(&frame(word.checked_shr(first_bit).unwrap_or(0)))?;
    }
    Ok(())
}

// The program of a source.
fn program_of(alloc: Global, source: &[u8]) -> Option<Program> {
    if source.len() > 10_000 {
        return None;
    }
    match assemble(alloc, source) {
        Ok(program) => Some(program),
        Err(_) => None,
    }
}

// Saves the pinned placement of a source as `o` and runs it under the script `t`.
fn save_pinned<S: Shelf, K: Sink>(
    alloc: Global,
    shelf: &mut S,
    out: &mut K,
    source: &[u8],
    script: &[u8],
    clocks: u32,
) -> Option<Status> {
    if script.len() > 10_000 {
        return None;
    }
    let Some(program) = program_of(alloc, source) else {
        return None;
    };
    let Ok(placement) = pinned(alloc, &program) else {
        return None;
    };
    let asked = PlacedRun {
        out: "o",
        script: "t",
        clocks,
    };
    Some(save_and_run(alloc, shelf, out, asked, &program, &placement, script))
}

// Whether saving LOOP and running it ends with this status and text.
fn saves_loop<S: Shelf>(
    alloc: Global,
    shelf: &mut S,
    script: &[u8],
    clocks: u32,
    status: Status,
    text: &[u8],
) -> bool {
    let mut out = MemSink::new(alloc);
    let ended = save_pinned(alloc, shelf, &mut out, LOOP, script, clocks);
    ended == Some(status) && out.bytes() == text
}

// Whether a file holds just these bytes.
fn holds(shelf: &MemShelf, name: &str, bytes: &[u8]) -> bool {
    match shelf.file(name) {
        Some(file) => file == bytes,
        None => false,
    }
}
