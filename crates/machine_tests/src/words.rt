//! Worked examples: words, images and refusals that were worked out by hand from the layout of the
//! microword.
use crate::texts::assembled;
use bpnf::{BpnfFault, Prom, print, read};
use field_decl::{Decl, word_width};
use flow_graph::Program;
use io_base::OutOfMemory;
use mcu_jumps::Cell;
use place_model::pinned;
use prom_split::{JoinFault, WordParts, Words, join, parts, split, word_of, words_of};
use std::alloc::Global;
use std::test::Fail;

/// One instruction that goes to itself, on one slice: words of 19 bits in five images of four bits.
const ONE_INSTRUCTION: &[u8] = b"slices 1\nstart A\npin A 0 0\nA: NOP R0 | goto A\n";

/// Four K bits, and fields of 1, 32 and 4 bits.
const THREE_FIELDS: &[u8] =
    b"slices 4\nkbus 4\nfield a 1 0\nfield b 32 7\nfield c 4 9\nstart A\npin A 0 0\npin B 0 1\nA: fn 3 1 R2 0x3c SCZ FF1 a=1 b=0x89abcdef c=6 | goto B\nB: NOP R0 | goto B\n";

// The words and the images of a source, in the placement of its pins.
fn images_of(alloc: Global, source: &[u8]) -> Result<(Program, Words, Vec<Prom>), Fail> {
    let program = assembled(alloc, source).ok_or("a program")?;
    let placement = pinned(alloc, &program)?;
    let words = words_of(alloc, &program, &placement)?;
    let proms = split(alloc, &words, program.decl())?;
    Ok((program, words, proms))
}

/// An image of ONE_INSTRUCTION, an address, and the frame that the image's text has there.
const FRAMES: [(usize, usize, &[u8]); 7] = [
    (0, 0, b"BNNNNF"),
    (1, 0, b"BPNNNF"),
    (2, 0, b"BNNNPF"),
    (3, 0, b"BNNNNF"),
    (4, 0, b"BNNPPF"),
    (0, 511, b"BPPPPF"),
    (1, 511, b"BPNNPF"),
];

// Whether the text of an image of four bits has this frame at an address.
fn has_frame(
    alloc: Global,
    prom: &Prom,
    address: usize,
    frame: &[u8],
) -> Result<bool, OutOfMemory> {
    let text = print(alloc, prom)?;
    let at = address.saturating_mul(7);
    Ok(text.get(at..at.saturating_add(6)) == Some(frame))
}

// Whether the first and the last word are these.
fn has_ends(words: &Words, first: u128, last: u128) -> bool {
    words.as_slice()[0] == first && words.as_slice()[511] == last
}

#[test]
fn one_instruction_loop(rt: HostRuntime) -> Result<(), Fail> {
    let (program, words, proms) = images_of(rt.alloc(), ONE_INSTRUCTION)?;
    assert!(rt; word_width(program.decl()) == 19 && proms.len() == 5);
    assert!(rt; has_ends(&words, 0x30180, 0x3019f));
    for (place, address, frame) in &FRAMES {
        let prom = proms.get(*place).ok_or("an image")?;
        assert!(rt;
            has_frame(rt.alloc(), prom, *address, frame)?,
            "image {place}"
        );
    }
    Ok(())
}

// Whether the images join to these words.
fn join_to(alloc: Global, proms: &[Prom], decl: &Decl, words: &Words) -> bool {
    match join(alloc, proms, decl) {
        Ok(joined) => joined.as_slice() == words.as_slice(),
        Err(_) => false,
    }
}

#[test]
fn images_join_to_their_words(rt: HostRuntime) -> Result<(), Fail> {
    let (program, words, proms) = images_of(rt.alloc(), ONE_INSTRUCTION)?;
    assert!(rt; join_to(rt.alloc(), &proms, program.decl(), &words));
    Ok(())
}

// Whether the images are refused for this.
fn is_refused(alloc: Global, proms: &[Prom], decl: &Decl, fault: JoinFault) -> bool {
    join(alloc, proms, decl).err() == Some(fault)
}

/// A word of four bits, and one of eight.
const NARROW: &[u8] = b"BNNNNF";

const WIDE: &[u8] = b"BNNNNNNNNF";

// The image of a frame in every word, of eight bits where the frame is that long and else of four.
fn filled(alloc: Global, frame: &[u8]) -> Result<Prom, BpnfFault> {
    let mut text = Vec::new(alloc);
    for _ in 0..512 {
        text.extend_from_slice(frame)
            .map_err(|_| BpnfFault::OutOfMemory)?;
    }
    if frame.len() == WIDE.len() {
        read(alloc, &text, 8)
    } else {
        read(alloc, &text, 4)
    }
}

// The images of these frames, one each.
fn all_filled(alloc: Global, frames: &[&[u8]]) -> Result<Vec<Prom>, Fail> {
    let mut proms = Vec::new(alloc);
    for frame in frames {
        proms.push(filled(alloc, frame)?)?;
    }
    Ok(proms)
}

/// The frame that fills each image, and why the images are none of ONE_INSTRUCTION.
const UNFIT: [(&[&[u8]], JoinFault); 4] = [
    // The number is told first, whatever the bits.
    (&[WIDE, WIDE, WIDE], JoinFault::PromCount(3)),
    (&[NARROW, NARROW, NARROW, NARROW], JoinFault::PromCount(4)),
    (
        &[NARROW, NARROW, NARROW, NARROW, WIDE],
        JoinFault::PromWidth(4),
    ),
    // The first image of other bits is told.
    (
        &[NARROW, NARROW, WIDE, NARROW, WIDE],
        JoinFault::PromWidth(2),
    ),
];

#[test]
fn images_of_another_number_or_width(rt: HostRuntime) -> Result<(), Fail> {
    let program = assembled(rt.alloc(), ONE_INSTRUCTION).ok_or("a program")?;
    for (frames, fault) in &UNFIT {
        let proms = all_filled(rt.alloc(), frames)?;
        assert!(rt; is_refused(rt.alloc(), &proms, program.decl(), *fault));
    }
    Ok(())
}

// The last image shows a bit past the width, and ones in the three within it.
#[test]
fn bits_past_the_width(rt: HostRuntime) -> Result<(), Fail> {
    let (program, _, mut proms) = images_of(rt.alloc(), ONE_INSTRUCTION)?;
    proms.pop();
    proms.push(filled(rt.alloc(), b"BPPPPF")?)?;
    let joined = join(rt.alloc(), &proms, program.decl())?;
    assert!(rt; has_ends(&joined, 0x70180, 0x7019f));
    Ok(())
}

/// An address of THREE_FIELDS, its word, AC, FC, function code, K bits and the values of its fields.
const WORDS: [(u16, u128, u8, u8, u8, u32, [u32; 3]); 2] = [
    (0, 0x344d5e6f7d99621, 0x21, 0xc, 0x32, 6, [1, 0x89abcdef, 6]),
    (511, 0x48000000383019f, 0x1f, 0x3, 0x60, 0, [0, 7, 9]),
];

// Whether these are the parts of a word.
fn has_parts(parts: &WordParts, ac: u8, fc: u8, func: u8, kbits: u32, values: &[u32]) -> bool {
    parts.jump.encode() == ac
        && parts.ctl.encode() == fc
        && parts.func.code() == func
        && parts.kbits == kbits
        && parts.values.as_slice() == values
}

#[test]
fn three_fields_and_four_k_bits(rt: HostRuntime) -> Result<(), Fail> {
    let program = assembled(rt.alloc(), THREE_FIELDS).ok_or("a program")?;
    let placement = pinned(rt.alloc(), &program)?;
    assert!(rt; word_width(program.decl()) == 59);
    for (address, word, ac, fc, func, kbits, values) in &WORDS {
        let cell = Cell::from_address(*address).ok_or("a cell")?;
        assert!(rt; word_of(&program, &placement, cell) == *word);
        // Bits past the width are no part of the word.
        let parts = parts(*word | 5 << 59, program.decl());
        assert!(rt; has_parts(&parts, *ac, *fc, *func, *kbits, values));
    }
    Ok(())
}
