//! Tables of layouts, each with its declaration or its refusal.

use field_decl::{
    AsmKind, Decl, DeclFault, FieldValues, Fields, Name, gather, print_decl, prom_count, read_decl,
    spread, word_width,
};
use std::alloc::Global;
use std::test::Fail;

const ONE_SLICE: &[u8] = b"slices 1\nkbus 1\nprom 512 4\n";

const FOUR_SLICES: &[u8] = b"slices 4\nkbus 2\nfield wr 1 0\nfield io 3 5\nprom 512 8\nwrite wr\n";

/// A layout of 78 bits of K bits and fields, the most that fit.
const WIDEST: &[u8] = b"slices 16\nkbus 32\nfield a 32 4294967295\nfield b 14 0\nprom 512 4\n";

/// Each layout, the bits of its microword, its PROMs and the place of its write field.
const LAYOUTS: [(&[u8], u32, u32, Option<u8>); 3] = [
    (ONE_SLICE, 19, 5, None),
    (FOUR_SLICES, 24, 3, Some(0)),
    (WIDEST, 96, 24, None),
];

// Whether a declaration is printed as this text.
fn is_printed(alloc: Global, decl: &Decl, text: &[u8]) -> bool {
    match print_decl(alloc, decl) {
        Ok(printed) => printed.as_slice() == text,
        Err(_) => false,
    }
}

#[test]
fn layouts_are_read_and_printed(rt: HostRuntime) -> Result<(), Fail> {
    for (text, width, proms, write) in &LAYOUTS {
        let decl = read_decl(rt.alloc(), text)?;
        assert!(rt; word_width(&decl) == *width && prom_count(&decl) == *proms);
        assert!(rt; decl.write == *write);
        assert!(rt; is_printed(rt.alloc(), &decl, text));
    }
    Ok(())
}

#[test]
fn layouts_have_defaults(rt: HostRuntime) -> Result<(), Fail> {
    let decl = read_decl(rt.alloc(), b"# one slice\r\n\nslices 0x01#1")?;
    assert!(rt; is_printed(rt.alloc(), &decl, ONE_SLICE));
    Ok(())
}

/// A layout, and the line and the reason of its refusal.
const REFUSALS: [(&[u8], u32, AsmKind); 34] = [
    (b"", 0, AsmKind::Slices),
    (b"prom 512 4", 0, AsmKind::Slices),
    (b"slices 1\nkbus @", 2, AsmKind::BadByte(6)),
    (b"slices 1a", 1, AsmKind::BadNumber(8)),
    (
        b"slices 340282366920938463463374607431768211456",
        1,
        AsmKind::NumberTooWide(8),
    ),
    (
        b"field abcdefghijklmnopqrstuvwxyz_012345 1 0",
        1,
        AsmKind::NameTooLong(7),
    ),
    (b"rows 4", 1, AsmKind::UnknownDirective),
    (b"slices : 1", 1, AsmKind::UnknownDirective),
    (b"\n5", 2, AsmKind::UnknownDirective),
    (b"slices", 1, AsmKind::Shape),
    (b"slices 1 2", 1, AsmKind::Shape),
    (b"kbus one", 1, AsmKind::Shape),
    (b"field f 1", 1, AsmKind::Shape),
    (b"prom 512", 1, AsmKind::Shape),
    (b"write 1", 1, AsmKind::Shape),
    (b"slices 0", 1, AsmKind::Slices),
    (b"slices 17", 1, AsmKind::Slices),
    (b"slices 1\nslices 1", 2, AsmKind::Slices),
    (b"kbus 0", 1, AsmKind::Slices),
    (b"slices 2\nkbus 0", 2, AsmKind::KBus),
    (b"slices 2\nkbus 3", 2, AsmKind::KBus),
    (b"slices 2\nkbus 4\nkbus 4", 3, AsmKind::KBus),
    (b"field f 1 0\nfield f 0 0", 2, AsmKind::FieldTwice),
    (b"field f 0 9", 1, AsmKind::FieldWidth),
    (b"field f 33 0", 1, AsmKind::FieldWidth),
    (b"field f 3 8", 1, AsmKind::DefaultTooWide),
    (
        b"field a 32 0\nfield b 32 0\nfield c 14 0",
        3,
        AsmKind::WordTooWide,
    ),
    (
        b"field a 32 0\nfield b 32 0\nslices 16\nfield c 13 0\nkbus 2",
        5,
        AsmKind::WordTooWide,
    ),
    (b"prom 256 4", 1, AsmKind::Prom),
    (b"prom 512 16", 1, AsmKind::Prom),
    (b"prom 512 4\nprom 512 4", 2, AsmKind::Prom),
    (b"write f\nfield f 1 0", 1, AsmKind::WriteField),
    (b"field f 2 0\nwrite f", 2, AsmKind::WriteField),
    (b"field f 1 0\nwrite f\nwrite f", 3, AsmKind::WriteField),
];

// Whether the layout is refused at this line for this reason.
fn is_refused(alloc: Global, text: &[u8], line: u32, kind: AsmKind) -> bool {
    text.len() < 100 && read_decl(alloc, text).err() == Some(DeclFault::At { line, kind })
}

#[test]
fn layouts_are_refused(rt: HostRuntime) {
    for (text, line, kind) in &REFUSALS {
        assert!(rt;
            is_refused(rt.alloc(), text, *line, *kind),
            "{kind:?} in line {line}"
        );
    }
}

// Whether the K bits are spread to the mask and gathered from it, where there are two of them.
fn goes_both_ways(decl: &Decl, kbits: u32, mask: u32) -> bool {
    decl.kbus == 2
        && kbits < 4
        && spread(decl, kbits) == mask
        && gather(decl, mask as u128) == Some(kbits)
}

#[test]
fn k_bits_drive_their_share_of_the_bus(rt: HostRuntime) -> Result<(), Fail> {
    let decl = read_decl(rt.alloc(), b"slices 8\nkbus 2")?;
    for (kbits, mask) in &[(0, 0), (1, 0x00ff), (2, 0xff00), (3, 0xffff)] {
        assert!(rt; goes_both_ways(&decl, *kbits, *mask));
    }
    for mask in &[0x0ff0, 0x10000, 0x1_0000_0000_0000_0000] {
        assert!(rt; gather(&decl, *mask).is_none());
    }
    Ok(())
}

#[test]
fn names_and_values_are_lists(rt: HostRuntime) -> Result<(), Fail> {
    let name = Name::of(b"io_2".to_vec(rt.alloc())?);
    assert!(rt; name.is(b"io_2") && !name.is(b"io_3"));
    let fields = Fields::of(Vec::new(rt.alloc()));
    assert!(rt; fields.as_slice().is_empty());
    let mut values = FieldValues::new();
    values.push(7);
    assert_eq!(rt; values.as_slice(), [7].as_slice());
    Ok(())
}
