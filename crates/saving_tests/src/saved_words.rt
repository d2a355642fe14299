//! Files read back, and what the first of them that is not had is replied.
use bpnf::print;
use io_base::{CallKind, MemShelf, MemSink, OutOfMemory};
use micro_asm::assemble;
use place_model::pinned;
use prom_files::load_words;
use prom_split::{split, words_of};
use replies::{Status, say_stop};
use std::alloc::Global;
use std::test::Fail;

/// The layout of an array of one slice, whose microword has 19 bits.
const LAYOUT: &[u8] = b"slices 1\nkbus 1\nprom 512 4\n";

/// Its images.
const IMAGES: [&str; 5] = [
    "o.p0.bpnf",
    "o.p1.bpnf",
    "o.p2.bpnf",
    "o.p3.bpnf",
    "o.p4.bpnf",
];

// A text of 512 words of 0 in four bits.
fn blank(alloc: Global) -> Result<Vec<u8>, OutOfMemory> {
    let mut text = Vec::new(alloc);
    for _ in 0..512 {
        text.extend_from_slice(b"BNNNNF\n")?;
    }
    Ok(text)
}

// A shelf with the layout and five blank images of `o`, where one file has other bytes.
fn shelf_with(alloc: Global, name: &str, bytes: &[u8]) -> Result<MemShelf, OutOfMemory> {
    let image = blank(alloc)?;
    let mut shelf = MemShelf::new(alloc);
    shelf.put_file("o.lay", LAYOUT)?;
    for name in &IMAGES {
        shelf.put_file(name, &image)?;
    }
    shelf.put_file(name, bytes)?;
    Ok(shelf)
}

// Whether the words cannot be loaded, which ends with this status and prints this text.
fn load_stops(alloc: Global, shelf: &mut MemShelf, status: Status, text: &[u8]) -> bool {
    match load_words(alloc, shelf, "o") {
        Ok(_) => false,
        Err(stop) => {
            let mut out = MemSink::new(alloc);
            say_stop(&mut out, stop) == status && out.bytes() == text
        }
    }
}

// Whether the shelf is refused with this text where one file has other bytes.
fn is_refused(alloc: Global, name: &str, bytes: &[u8], text: &[u8]) -> Result<bool, OutOfMemory> {
    let mut shelf = shelf_with(alloc, name, bytes)?;
    Ok(load_stops(alloc, &mut shelf, Status::Input, text))
}

/// A file of few bytes, and the text that refuses it.
const SPOILED: [(&str, &[u8], &[u8]); 5] = [
    ("o.lay", b"", b"refused o.lay line 0 Slices\n"),
    (
        "o.lay",
        b"slices 1\nrows 4\n",
        b"refused o.lay line 2 UnknownDirective\n",
    ),
    (
        "o.lay",
        b"slices @\n",
        b"refused o.lay line 1 BadByte col 8\n",
    ),
    (
        "o.lay",
        b"slices 16\nkbus 4\n",
        b"refused o.p5.bpnf NoFile\n",
    ),
    ("o.p0.bpnf", b"BX", b"refused o.p0.bpnf byte 1 BadLetter\n"),
];

#[test]
fn refuses_the_first_file_that_is_not_had(rt: HostRuntime) -> Result<(), Fail> {
    for (name, bytes, text) in &SPOILED {
        assert!(rt; is_refused(rt.alloc(), name, bytes, text)?);
    }
    Ok(())
}

/// An image that is cut after so many bytes, and the text that refuses it.
const CUT: [(&str, usize, &[u8]); 2] = [
    ("o.p1.bpnf", 3580, b"refused o.p1.bpnf byte 3577 CutWord\n"),
    ("o.p2.bpnf", 3577, b"refused o.p2.bpnf words 511 TooFew\n"),
];

#[test]
fn refuses_an_image_of_another_length(rt: HostRuntime) -> Result<(), Fail> {
    let mut image = blank(rt.alloc())?;
    for (name, length, text) in &CUT {
        let bytes = image.get(..*length).ok_or("a longer image")?;
        assert!(rt; is_refused(rt.alloc(), name, bytes, text)?);
    }
    image.push(b'B')?;
    let text = b"refused o.p4.bpnf byte 3584 TooMany\n";
    assert!(rt; is_refused(rt.alloc(), "o.p4.bpnf", &image, text)?);
    Ok(())
}

#[test]
fn refuses_a_file_that_is_too_long(rt: HostRuntime) -> Result<(), Fail> {
    let long = vec![in rt.alloc(); b' '; 65_537]?;
    assert!(rt; is_refused(rt.alloc(), "o.lay", &long, b"refused o.lay TooLong\n")?);
    assert!(rt;
        is_refused(
            rt.alloc(),
            "o.p3.bpnf",
            &long,
            b"refused o.p3.bpnf TooLong\n"
        )?
    );
    Ok(())
}

/// A read that fails, and the text that tells it. Each file is read by one read, and by one more that finds its end.
const READS: [(u32, &[u8]); 3] = [
    (1, b"cannot read o.lay\n"),
    (3, b"cannot read o.p0.bpnf\n"),
    (12, b"cannot read o.p4.bpnf\n"),
];

// Whether a failing read is told with this text.
fn is_unread(alloc: Global, read: u32, text: &[u8]) -> Result<bool, OutOfMemory> {
    let mut shelf = shelf_with(alloc, "o.map", b"")?;
    shelf.fail(CallKind::Read, read)?;
    Ok(load_stops(alloc, &mut shelf, Status::ShelfFault, text))
}

#[test]
fn tells_the_file_that_is_not_read(rt: HostRuntime) -> Result<(), Fail> {
    for (read, text) in &READS {
        assert!(rt; is_unread(rt.alloc(), *read, text)?);
    }
    Ok(())
}

#[test]
fn reads_back_the_words_of_a_program(rt: HostRuntime) -> Result<(), Fail> {
    let alloc = rt.alloc();
    let source =
        b"slices 2\nfield u 5 9\nprom 512 8\nstart A\npin A 0 0\nA: SRA AC u=21 | goto A\n";
    let Ok(program) = assemble(alloc, source) else {
        return Err(Fail::from("not assembled"));
    };
    let Ok(placement) = pinned(alloc, &program) else {
        return Err(Fail::from("not placed"));
    };
    let words = words_of(alloc, &program, &placement)?;
    let mut shelf = MemShelf::new(alloc);
    shelf.put_file("o.lay", b"slices 2\nkbus 1\nfield u 5 9\nprom 512 8\n")?;
    let images = split(alloc, &words, program.decl())?;
    for (image, name) in images.iter().zip(["o.p0.bpnf", "o.p1.bpnf", "o.p2.bpnf"]) {
        let text = print(alloc, image)?;
        shelf.put_file(name, &text)?;
    }
    match load_words(alloc, &mut shelf, "o") {
        Ok(saved) => assert_eq!(rt; saved.words.as_slice(), words.as_slice()),
        Err(_) => assert!(rt; false),
    }
    Ok(())
}
