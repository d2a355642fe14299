//! What `make` and `run` print and save.

use super::{answers, end_of, shelf_with_script};
use io_base::{CallKind, MemShelf, MemSink, OutOfMemory};
use replies::Status;
use std::alloc::Global;
use std::test::Fail;

/// A source of one instruction, in its cell.
const LOOP: &[u8] = b"slices 1\nstart A\npin A 0 0\nA: NOP R0 | goto A\n";
/// What its `make` of two clocks prints.
const PLACED: &[u8] = b"placed\n\
0 0.0 A=0 D=0 T=0 R=0,0,0,0,0,0,0,0,0,0 C=000 L=0 P=- S=0 U=- Y=0\n\
1 0.0 A=0 D=0 T=0 R=0,0,0,0,0,0,0,0,0,0 C=000 L=0 P=- S=0 U=- Y=0\n";
/// The words of its `make`.
const MAKE: [&str; 6] = ["make", "s", "t", "o", "clocks=2", "conflicts=0"];

// Whether a file holds just these bytes.
fn holds(shelf: &MemShelf, name: &str, bytes: &[u8]) -> bool {
    match shelf.file(name) {
        Some(file) => file == bytes,
        None => false,
    }
}

#[test]
fn a_placement_is_saved_and_run(rt: HostRuntime) -> Result<(), Fail> {
    let mut shelf = shelf_with_script(rt.alloc(), LOOP, b"")?;
    assert!(rt; answers(rt.alloc(), &mut shelf, &MAKE, Status::Done, PLACED)?);
    assert!(rt; holds(&shelf, "o.map", b"A 0.0 00 JCC 0\n"));
    assert!(rt; holds(&shelf, "o.lay", b"slices 1\nkbus 1\nprom 512 4\n"));
    Ok(())
}

#[test]
fn saved_images_are_run(rt: HostRuntime) -> Result<(), Fail> {
    let mut shelf = shelf_with_script(rt.alloc(), LOOP, b"")?;
    assert!(rt; answers(rt.alloc(), &mut shelf, &MAKE, Status::Done, PLACED)?);
    let words = ["run", "o", "t", "clocks=1"];
    let text = b"0 0.0 A=0 D=0 T=0 R=0,0,0,0,0,0,0,0,0,0 C=000 L=0 P=- S=0 U=- Y=0\n";
    assert!(rt; answers(rt.alloc(), &mut shelf, &words, Status::Done, text)?);
    Ok(())
}

#[test]
fn a_run_without_a_layout_is_refused(rt: HostRuntime) -> Result<(), Fail> {
    let mut shelf = shelf_with_script(rt.alloc(), LOOP, b"")?;
    let words = ["run", "q", "t", "clocks=1"];
    let text = b"refused q.lay NoFile\n";
    assert!(rt; answers(rt.alloc(), &mut shelf, &words, Status::Input, text)?);
    Ok(())
}

// Whether `make` refuses these files with this text, and saves nothing.
fn refuses_make(
    alloc: Global,
    source: &[u8],
    script: &[u8],
    text: &[u8],
) -> Result<bool, OutOfMemory> {
    let mut shelf = shelf_with_script(alloc, source, script)?;
    let answers = answers(alloc, &mut shelf, &MAKE, Status::Input, text)?;
    Ok(answers && shelf.file("o.map").is_none())
}

#[test]
fn a_source_without_pins_is_placed(rt: HostRuntime) -> Result<(), Fail> {
    let source = b"slices 1\nstart A\nA: NOP R0 | goto A\n";
    let mut shelf = shelf_with_script(rt.alloc(), source, b"")?;
    assert!(rt; answers(rt.alloc(), &mut shelf, &MAKE, Status::Done, PLACED)?);
    Ok(())
}

#[test]
fn a_refutation_is_told_and_checked(rt: HostRuntime) -> Result<(), Fail> {
    let source = b"slices 1\nstart A\nA: NOP R0 | iff B B\nB: NOP R0 | goto B\n";
    let mut shelf = shelf_with_script(rt.alloc(), source, b"")?;
    assert!(rt;
        answers(
            rt.alloc(),
            &mut shelf,
            &MAKE,
            Status::Refuted,
            b"refuted 1\n"
        )?
    );
    let words = ["check", "s", "o.ref"];
    assert!(rt; answers(rt.alloc(), &mut shelf, &words, Status::Done, b"refutes 1\n")?);
    Ok(())
}

#[test]
fn the_first_file_that_is_refused_is_told(rt: HostRuntime) -> Result<(), Fail> {
    let script = b"clk px=16\n";
    assert!(rt; refuses_make(rt.alloc(), LOOP, script, b"refused t line 1 Value\n")?);
    assert!(rt; refuses_make(rt.alloc(), b"", script, b"refused s line 0 Empty\n")?);
    Ok(())
}

/// Words that are no `make`.
const NO_MAKES: [&[&str]; 4] = [
    &["make", "s", "t", "o", "clocks=3"],
    &["make", "s", "t", "o", "clocks=3", "conflicts=1000001"],
    &["make", "s", "t", "o", "conflicts=3", "clocks=3"],
    &["Make", "s", "t", "o", "clocks=3", "conflicts=1"],
];

#[test]
fn words_of_no_make_are_refused(rt: HostRuntime) -> Result<(), Fail> {
    for words in &NO_MAKES {
        let mut shelf = shelf_with_script(rt.alloc(), LOOP, b"")?;
        let text = b"refused words\n";
        assert!(rt; answers(rt.alloc(), &mut shelf, words, Status::Words, text)?);
    }
    Ok(())
}

#[test]
fn a_file_that_is_not_saved_is_told(rt: HostRuntime) -> Result<(), Fail> {
    let mut shelf = shelf_with_script(rt.alloc(), LOOP, b"")?;
    shelf.fail(CallKind::Append, 3)?;
    let text = b"cannot save o.p0.bpnf\n";
    assert!(rt; answers(rt.alloc(), &mut shelf, &MAKE, Status::ShelfFault, text)?);
    Ok(())
}

#[test]
fn a_first_read_that_fails_is_told_and_nothing_is_saved(rt: HostRuntime) -> Result<(), Fail> {
    let mut shelf = shelf_with_script(rt.alloc(), LOOP, b"")?;
    shelf.fail(CallKind::Read, 1)?;
    let text = b"cannot read s\n";
    assert!(rt; answers(rt.alloc(), &mut shelf, &MAKE, Status::ShelfFault, text)?);
    assert!(rt; shelf.file("o.map").is_none());
    Ok(())
}

#[test]
fn a_first_write_that_fails_leaves_the_saved_files(rt: HostRuntime) -> Result<(), Fail> {
    let mut shelf = shelf_with_script(rt.alloc(), LOOP, b"")?;
    let mut out = MemSink::new(rt.alloc());
    out.fail(1)?;
    assert!(rt; end_of(rt.alloc(), &mut shelf, &mut out, &MAKE)? == Status::SinkFault);
    assert!(rt; out.bytes().is_empty());
    assert!(rt; holds(&shelf, "o.map", b"A 0.0 00 JCC 0\n"));
    Ok(())
}

// Sets the highest K bit of the first word of a source with one K bit and PROMs of 4 bits, where it is saved as `o`.
fn set_first_mask(alloc: Global, shelf: &mut MemShelf) -> Result<(), OutOfMemory> {
    // Bit 18 of the word is bit 2 of the image 4, and the letters of a frame begin with bit 3.
    let mut image = Vec::from_slice(alloc, shelf.file("o.p4.bpnf").unwrap_or(&[]))?;
    if image.len() > 2 {
        image[2] = b'P';
    }
    shelf.put_file("o.p4.bpnf", &image)
}

#[test]
fn a_right_shift_with_a_mask_is_not_run(rt: HostRuntime) -> Result<(), Fail> {
    let source = b"slices 1\nstart A\npin A 0 0\nA: SRA AC | goto A\n";
    let mut shelf = shelf_with_script(rt.alloc(), source, b"")?;
    let mut out = MemSink::new(rt.alloc());
    assert!(rt; end_of(rt.alloc(), &mut shelf, &mut out, &MAKE)? == Status::Done);
    set_first_mask(rt.alloc(), &mut shelf)?;
    let words = ["run", "o", "t", "clocks=1"];
    let text = b"refused o cell 0.0 ShiftMask\n";
    assert!(rt; answers(rt.alloc(), &mut shelf, &words, Status::Input, text)?);
    Ok(())
}
