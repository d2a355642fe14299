//! What the words, the shelf and the sink decide.

use super::sources::{THREE_CELLS, THREE_CELLS_MAP};
use super::{answers, end_of, shelf_with};
use io_base::{CallKind, MemShelf, MemSink, OutOfMemory};
use replies::Status;
use std::alloc::Global;
use std::test::Fail;

/// Words that are no command.
const NO_COMMANDS: [&[&str]; 5] = [
    &[],
    &["map"],
    &["Map", "s"],
    &["map", "s", "s"],
    &["map", "s s"],
];

#[test]
fn words_that_are_no_command_are_refused(rt: HostRuntime) -> Result<(), Fail> {
    for words in &NO_COMMANDS {
        let mut shelf = shelf_with(rt.alloc(), THREE_CELLS)?;
        let text = b"refused words\n";
        assert!(rt; answers(rt.alloc(), &mut shelf, words, Status::Words, text)?);
    }
    Ok(())
}

#[test]
fn an_absent_file_is_refused(rt: HostRuntime) -> Result<(), Fail> {
    let mut shelf = MemShelf::new(rt.alloc());
    let text = b"refused s NoFile\n";
    assert!(rt; answers(rt.alloc(), &mut shelf, &["map", "s"], Status::Input, text)?);
    Ok(())
}

// Whether `map s` of three cells ends so where this read fails, and the file stands.
fn maps_unless_read_fails(
    alloc: Global,
    read: u32,
    status: Status,
    text: &[u8],
) -> Result<bool, OutOfMemory> {
    let mut shelf = shelf_with(alloc, THREE_CELLS)?;
    shelf.fail(CallKind::Read, read)?;
    let answers = answers(alloc, &mut shelf, &["map", "s"], status, text)?;
    Ok(answers && shelf.file("s") == Some(THREE_CELLS))
}

/// The source is read by one read, and by one more that finds its end.
const READS: [(u32, Status, &[u8]); 3] = [
    (1, Status::ShelfFault, b"cannot read s\n"),
    (2, Status::ShelfFault, b"cannot read s\n"),
    (3, Status::Done, THREE_CELLS_MAP),
];

#[test]
fn each_failing_read_is_told(rt: HostRuntime) -> Result<(), Fail> {
    for (read, status, text) in &READS {
        assert!(rt; maps_unless_read_fails(rt.alloc(), *read, *status, text)?);
    }
    Ok(())
}

// Whether `map s` of three cells ends so where this write fails.
fn maps_unless_write_fails(
    alloc: Global,
    write: u32,
    status: Status,
    text: &[u8],
) -> Result<bool, OutOfMemory> {
    let mut shelf = shelf_with(alloc, THREE_CELLS)?;
    let mut out = MemSink::new(alloc);
    out.fail(write)?;
    let ended = end_of(alloc, &mut shelf, &mut out, &["map", "s"])?;
    Ok(ended == status && out.bytes() == text)
}

#[test]
fn a_failing_write_is_told(rt: HostRuntime) -> Result<(), Fail> {
    // The map is written by one write.
    let alloc = rt.alloc();
    assert!(rt; maps_unless_write_fails(alloc, 1, Status::SinkFault, b"")?);
    assert!(rt; maps_unless_write_fails(alloc, 2, Status::Done, THREE_CELLS_MAP)?);
    Ok(())
}
