//! Texts of PROMs whose answers were worked out on paper: an outside tape's form, each fault, and both directions.

use bpnf::{BpnfFault, Prom, print, read};
use std::alloc::{AllocError, Global};
use std::test::Fail;

/// The letters of the numbers 0 to 15.
static NIBBLES: [&[u8; 4]; 16] = [
    b"NNNN", b"NNNP", b"NNPN", b"NNPP", b"NPNN", b"NPNP", b"NPPN", b"NPPP", b"PNNN", b"PNNP",
    b"PNPN", b"PNPP", b"PPNN", b"PPNP", b"PPPN", b"PPPP",
];

// Appends the frame of the lowest 4 or 8 bits of an address.
fn add_frame(text: &mut Vec<u8>, bits: u8, address: usize) -> Result<(), AllocError> {
    text.push(b'B')?;
    if bits == 8 {
        text.extend_from_slice(NIBBLES[address / 16 % 16])?;
    }
    text.extend_from_slice(NIBBLES[address % 16])?;
    text.push(b'F')?;
    Ok(())
}

// Frames of the lowest bits of their addresses, each followed by LF.
fn frames(alloc: Global, bits: u8, count: usize) -> Result<Vec<u8>, AllocError> {
    let mut text = Vec::new(alloc);
    for address in 0..count {
        add_frame(&mut text, bits, address)?;
        text.push(b'\n')?;
    }
    Ok(text)
}

// The image that a text of words of 4 or 8 bits shows, or its first fault; none for other bits.
fn image_of(alloc: Global, text: &[u8], bits: u8) -> Option<Result<Prom, BpnfFault>> {
    match bits {
        4 | 8 => Some(read(alloc, text, bits)),
        _ => None,
    }
}

// Whether the text is refused for this fault.
fn is_refused(alloc: Global, text: &[u8], bits: u8, fault: BpnfFault) -> bool {
    match image_of(alloc, text, bits) {
        Some(Err(found)) => found == fault,
        _ => false,
    }
}

/// A text of words of 4 bits, and its first fault.
const SMALL_TEXTS: [(&[u8], BpnfFault); 10] = [
    (b"", BpnfFault::TooFew(0)),
    (b"BOARD 3", BpnfFault::BadLetter(1)),
    (b"B", BpnfFault::CutWord(0)),
    (b"word 0 BPNPN", BpnfFault::CutWord(7)),
    (b"0 BPNPNF 1 BNNNNF end", BpnfFault::TooFew(2)),
    (b"bPNPNF", BpnfFault::TooFew(0)),
    (b"BPNPF\n", BpnfFault::BadLetter(4)),
    (b"BPNPNPF", BpnfFault::BadLetter(5)),
    (b"BPnPNF", BpnfFault::BadLetter(2)),
    (b"BPNPNF BNB", BpnfFault::BadLetter(9)),
];

#[test]
fn small_texts_are_refused(rt: HostRuntime) {
    for (text, fault) in &SMALL_TEXTS {
        assert!(rt; is_refused(rt.alloc(), text, 4, *fault), "{fault:?}");
    }
}

/// The bits of a word, to how many bytes 513 frames are cut, and the first fault of what is left.
const CUTS: [(u8, usize, BpnfFault); 6] = [
    (4, 3580, BpnfFault::CutWord(3577)),
    (4, 3577, BpnfFault::TooFew(511)),
    (4, 3591, BpnfFault::TooMany(3584)),
    (8, 5624, BpnfFault::CutWord(5621)),
    (8, 5621, BpnfFault::TooFew(511)),
    (8, 5643, BpnfFault::TooMany(5632)),
];

// Whether 513 frames are refused for this fault, once they are cut to so many bytes.
fn cut_is_refused(
    alloc: Global,
    bits: u8,
    length: usize,
    fault: BpnfFault,
) -> Result<bool, AllocError> {
    let mut text = frames(alloc, bits, 513)?;
    text.truncate(length);
    Ok(text.len() == length && is_refused(alloc, &text, bits, fault))
}

#[test]
fn cut_and_overlong_texts_are_refused(rt: HostRuntime) -> Result<(), Fail> {
    for (bits, length, fault) in &CUTS {
        assert!(rt;
            cut_is_refused(rt.alloc(), *bits, *length, *fault)?,
            "{fault:?}"
        );
    }
    Ok(())
}

// A tape whose words have 4 bits, with a number before each.
fn numbered_tape(alloc: Global) -> Result<Vec<u8>, Fail> {
    let mut text = b"tape 1\r\n".to_vec(alloc)?;
    for address in 0..512 {
        let number = format!(in alloc; "{address} ")?;
        text.extend_from_slice(number.as_bytes())?;
        add_frame(&mut text, 4, address)?;
        text.extend_from_slice(b"\r\n")?;
    }
    Ok(text)
}

// Whether each word has 4 bits, the lowest of its address.
fn holds_addresses(prom: &Prom) -> bool {
    prom.bits() == 4
        && prom
            .words()
            .iter()
            .enumerate()
            .all(|(address, word)| *word as usize == address % 16)
}

#[test]
fn tape_with_numbers_is_read(rt: HostRuntime) -> Result<(), Fail> {
    let text = numbered_tape(rt.alloc())?;
    let prom = read(rt.alloc(), &text, 4)?;
    assert!(rt; holds_addresses(&prom));
    Ok(())
}

// Whether this is the canonical text of the image, which has 512 words.
fn is_printed(alloc: Global, prom: &Prom, text: &[u8]) -> bool {
    match print(alloc, prom) {
        Ok(printed) => prom.words().len() == 512 && printed.as_slice() == text,
        Err(_) => false,
    }
}

// Whether the text of words of these bits is read, and printed from what was read.
fn is_printed_again(alloc: Global, text: &[u8], bits: u8) -> bool {
    match image_of(alloc, text, bits) {
        Some(Ok(prom)) => is_printed(alloc, &prom, text),
        _ => false,
    }
}

#[test]
fn canonical_texts_are_printed_again(rt: HostRuntime) -> Result<(), Fail> {
    for bits in &[4, 8] {
        let text = frames(rt.alloc(), *bits, 512)?;
        assert!(rt; is_printed_again(rt.alloc(), &text, *bits), "{bits} bits");
    }
    Ok(())
}
