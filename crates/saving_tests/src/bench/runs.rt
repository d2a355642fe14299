//! What `run` prints of images that were saved.

use super::{LOOP, LOOP_CLOCKS, push_words, save_pinned};
use bench_answers::run_saved;
use io_base::{CallKind, MemShelf, MemSink, OutOfMemory};
use replies::Status;
use std::alloc::Global;
use std::test::Fail;

// A shelf with the files of LOOP under `o`, and an empty script `t`.
fn shelf_with_loop(alloc: Global) -> Result<MemShelf, OutOfMemory> {
    let mut shelf = MemShelf::new(alloc);
    let mut out = MemSink::new(alloc);
    let _ = save_pinned(alloc, &mut shelf, &mut out, LOOP, b"", 0);
    shelf.put_file("t", b"")?;
    Ok(shelf)
}

// Whether a run of the images saved under `o` ends with this status and text.
fn runs(alloc: Global, shelf: &mut MemShelf, clocks: u32, status: Status, text: &[u8]) -> bool {
    let mut out = MemSink::new(alloc);
    run_saved(alloc, shelf, &mut out, "o", "t", clocks) == status && out.bytes() == text
}

#[test]
fn saved_images_are_run(rt: HostRuntime) -> Result<(), Fail> {
    let alloc = rt.alloc();
    let mut shelf = shelf_with_loop(alloc)?;
    assert!(rt; runs(alloc, &mut shelf, 3, Status::Done, LOOP_CLOCKS));
    let one = LOOP_CLOCKS.get(..66).unwrap_or(&[]);
    assert!(rt; runs(alloc, &mut shelf, 1, Status::Done, one));
    assert!(rt; runs(alloc, &mut shelf, 0, Status::Done, b""));
    Ok(())
}

#[test]
fn a_failed_write_ends_the_run(rt: HostRuntime) -> Result<(), Fail> {
    let alloc = rt.alloc();
    let mut shelf = shelf_with_loop(alloc)?;
    let mut out = MemSink::new(alloc);
    out.fail(1)?;
    let ended = run_saved(alloc, &mut shelf, &mut out, "o", "t", 3);
    assert!(rt; ended == Status::SinkFault);
    assert!(rt; out.bytes().is_empty());
    Ok(())
}

// Gives an image of LOOP another first word.
fn put_first_frame(
    alloc: Global,
    shelf: &mut MemShelf,
    name: &'static str,
    first_bit: u32,
    frame: &[u8],
) -> Result<(), OutOfMemory> {
    let mut image = Vec::from_slice(alloc, frame)?;
    push_words(&mut image, first_bit, 1, 512)?;
    shelf.put_file(name, &image)
}

#[test]
fn a_right_shift_with_k_bits_is_refused(rt: HostRuntime) -> Result<(), Fail> {
    let alloc = rt.alloc();
    let mut shelf = shelf_with_loop(alloc)?;
    // The word at address 0 is 0x47180: function code 0x0e, and K bit 0 is 1.
    put_first_frame(alloc, &mut shelf, "o.p3.bpnf", 12, b"BNPPPF\n")?;
    put_first_frame(alloc, &mut shelf, "o.p4.bpnf", 16, b"BNPNNF\n")?;
    let text = b"refused o cell 0.0 ShiftMask\n";
    assert!(rt; runs(alloc, &mut shelf, 1, Status::Input, text));
    Ok(())
}

#[test]
fn a_layout_that_is_not_there_is_told(rt: HostRuntime) {
    let mut shelf = MemShelf::new(rt.alloc());
    let text = b"refused o.lay NoFile\n";
    assert!(rt; runs(rt.alloc(), &mut shelf, 1, Status::Input, text));
}

/// A file of LOOP with other bytes, and the text that refuses it.
const SPOILED: [(&str, &[u8], &[u8]); 3] = [
    ("o.lay", b"slices 17\n", b"refused o.lay line 1 Slices\n"),
    (
        "o.p2.bpnf",
        b"BNNNX",
        b"refused o.p2.bpnf byte 4 BadLetter\n",
    ),
    ("t", b"clk\nclk i=4\n", b"refused t line 2 Value\n"),
];

#[test]
fn a_file_that_is_refused_is_told(rt: HostRuntime) -> Result<(), Fail> {
    for (name, bytes, text) in &SPOILED {
        let mut shelf = shelf_with_loop(rt.alloc())?;
        shelf.put_file(name, bytes)?;
        assert!(rt; runs(rt.alloc(), &mut shelf, 1, Status::Input, text));
    }
    Ok(())
}

/// Reads in the order of `run`; the files of `o` were read when they were saved.
const READS: [(u32, &[u8]); 2] = [(13, b"cannot read o.lay\n"), (25, b"cannot read t\n")];

#[test]
fn a_file_that_is_not_read_is_told(rt: HostRuntime) -> Result<(), Fail> {
    for (read, text) in &READS {
        let mut shelf = shelf_with_loop(rt.alloc())?;
        shelf.fail(CallKind::Read, *read)?;
        assert!(rt; runs(rt.alloc(), &mut shelf, 1, Status::ShelfFault, text));
    }
    Ok(())
}
