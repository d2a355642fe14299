//! What is saved, what is printed, and what stands after a fault.

use super::{
    LOOP, LOOP_IMAGES, LOOP_LAYOUT, LOOP_PLACED, holds, push_words, save_pinned, saves_loop,
};
use bench_answers::{images_follow_the_flow, saved_is_read_back};
use io_base::{CallKind, MemShelf, MemSink, OutOfMemory};
use replies::Status;
use std::alloc::Global;
use std::test::Fail;

// Whether an image of LOOP stands byte for byte.
fn holds_image(
    alloc: Global,
    shelf: &MemShelf,
    name: &str,
    first_bit: u32,
) -> Result<bool, OutOfMemory> {
    let mut image = Vec::new(alloc);
    push_words(&mut image, first_bit, 0, 512)?;
    Ok(holds(shelf, name, &image))
}

// Whether the map and the layout of LOOP stand byte for byte.
fn holds_map_and_layout(shelf: &MemShelf) -> bool {
    holds(shelf, "o.map", b"A 0.0 00 JCC 0\n") && holds(shelf, "o.lay", LOOP_LAYOUT)
}

// Whether map, layout and images of LOOP stand byte for byte, and no further image.
fn holds_loop(alloc: Global, shelf: &MemShelf) -> Result<bool, OutOfMemory> {
    for (name, first_bit) in &LOOP_IMAGES {
        if !holds_image(alloc, shelf, name, *first_bit)? {
            return Ok(false);
        }
    }
    Ok(holds_map_and_layout(shelf) && shelf.file("o.p5.bpnf").is_none())
}

#[test]
fn a_placement_is_saved_and_run(rt: HostRuntime) -> Result<(), Fail> {
    let alloc = rt.alloc();
    let mut shelf = MemShelf::new(alloc);
    assert!(rt; saves_loop(alloc, &mut shelf, b"", 3, Status::Done, LOOP_PLACED));
    assert!(rt; holds_loop(alloc, &shelf)?);
    Ok(())
}

#[test]
fn older_files_give_way_and_others_stand(rt: HostRuntime) -> Result<(), Fail> {
    let alloc = rt.alloc();
    let mut shelf = MemShelf::new(alloc);
    shelf.put_file("o.p4.bpnf", b"an older file")?;
    shelf.put_file("o.p5.bpnfx", b"another file")?;
    assert!(rt; saves_loop(alloc, &mut shelf, b"", 0, Status::Done, b"placed\n"));
    assert!(rt; holds_loop(alloc, &shelf)?);
    assert!(rt; holds(&shelf, "o.p5.bpnfx", b"another file"));
    Ok(())
}

#[test]
fn the_laws_are_called() {
    saved_is_read_back();
    images_follow_the_flow();
}

// Whether the first half of the first image stands.
fn holds_half_an_image(alloc: Global, shelf: &MemShelf) -> Result<bool, OutOfMemory> {
    let mut half = Vec::new(alloc);
    push_words(&mut half, 0, 0, 256)?;
    Ok(holds(shelf, "o.p0.bpnf", &half))
}

#[test]
fn an_image_that_is_not_saved_is_told(rt: HostRuntime) -> Result<(), Fail> {
    let alloc = rt.alloc();
    let mut shelf = MemShelf::new(alloc);
    shelf.fail(CallKind::Append, 3)?;
    let text = b"cannot save o.p0.bpnf\n";
    assert!(rt; saves_loop(alloc, &mut shelf, b"", 3, Status::ShelfFault, text));
    assert!(rt; holds_map_and_layout(&shelf));
    assert!(rt; holds_half_an_image(alloc, &shelf)?);
    assert!(rt; shelf.file("o.p1.bpnf").is_none());
    Ok(())
}

#[test]
fn a_map_that_is_not_begun_is_told(rt: HostRuntime) -> Result<(), Fail> {
    let alloc = rt.alloc();
    let mut shelf = MemShelf::new(alloc);
    shelf.put_file("o.map", b"an older map")?;
    shelf.fail(CallKind::Create, 1)?;
    let text = b"cannot save o.map\n";
    assert!(rt; saves_loop(alloc, &mut shelf, b"", 3, Status::ShelfFault, text));
    assert!(rt; holds(&shelf, "o.map", b"an older map"));
    assert!(rt; shelf.file("o.lay").is_none());
    Ok(())
}

// Whether a failing read of what was saved is told with this text, and the files stand.
fn tells_read(alloc: Global, read: u32, text: &[u8]) -> Result<bool, OutOfMemory> {
    let mut shelf = MemShelf::new(alloc);
    shelf.fail(CallKind::Read, read)?;
    if !saves_loop(alloc, &mut shelf, b"", 3, Status::ShelfFault, text) {
        return Ok(false);
    }
    holds_loop(alloc, &shelf)
}

/// Layout and images are each read by one read, and by one more that finds the end.
const READS: [(u32, &[u8]); 3] = [
    (1, b"cannot read o.lay\n"),
    (5, b"cannot read o.p1.bpnf\n"),
    (12, b"cannot read o.p4.bpnf\n"),
];

#[test]
fn what_is_not_read_back_is_told(rt: HostRuntime) -> Result<(), Fail> {
    for (read, text) in &READS {
        assert!(rt; tells_read(rt.alloc(), *read, text)?);
    }
    Ok(())
}

#[test]
fn a_script_for_other_slices_is_refused(rt: HostRuntime) -> Result<(), Fail> {
    let alloc = rt.alloc();
    let mut shelf = MemShelf::new(alloc);
    let script = b"clk\nclk i=4\n";
    let text = b"refused t line 2 Value\n";
    assert!(rt; saves_loop(alloc, &mut shelf, script, 3, Status::Input, text));
    assert!(rt; holds_loop(alloc, &shelf)?);
    Ok(())
}

// Whether a failing write leaves a prefix of so many bytes, and the files.
fn leaves_prefix(alloc: Global, write: u32, bytes: usize) -> Result<bool, OutOfMemory> {
    let mut shelf = MemShelf::new(alloc);
    let mut out = MemSink::new(alloc);
    out.fail(write)?;
    let ended = save_pinned(alloc, &mut shelf, &mut out, LOOP, b"", 3);
    let is_prefix = LOOP_PLACED.get(..bytes) == Some(out.bytes());
    if ended != Some(Status::SinkFault) || !is_prefix {
        return Ok(false);
    }
    holds_loop(alloc, &shelf)
}

#[test]
fn a_failed_write_leaves_the_files(rt: HostRuntime) -> Result<(), Fail> {
    // The line `placed`, and each line of the trace, is one write.
    for (write, bytes) in &[(1, 0), (2, 7), (3, 73)] {
        assert!(rt; leaves_prefix(rt.alloc(), *write, *bytes)?);
    }
    Ok(())
}
