//! The step that reads a source.

use super::{shelf_with, source_stops};
use io_base::{CallKind, OutOfMemory};
use replies::{Status, load_source};
use std::alloc::Global;
use std::test::Fail;

/// A source of one instruction.
const LOOP: &[u8] = b"slices 1\nstart A\nA: NOP R0 | goto A\n";

// How many instructions the step that reads a source finds.
fn instructions_in(alloc: Global, source: &[u8]) -> Result<Option<u16>, OutOfMemory> {
    let mut shelf = shelf_with(alloc, "s", source)?;
    Ok(match load_source(alloc, &mut shelf, "s") {
        Ok(program) => Some(program.len()),
        Err(_) => None,
    })
}

#[test]
fn a_source_is_read(rt: HostRuntime) -> Result<(), Fail> {
    assert!(rt; instructions_in(rt.alloc(), LOOP)? == Some(1));
    Ok(())
}

#[test]
fn an_absent_source_is_refused(rt: HostRuntime) -> Result<(), Fail> {
    let mut shelf = shelf_with(rt.alloc(), "t", LOOP)?;
    assert!(rt; source_stops(rt.alloc(), &mut shelf, Status::Input, b"refused s NoFile\n"));
    Ok(())
}

// Whether LOOP is told as not read where this read fails.
fn is_unread(alloc: Global, read: u32) -> Result<bool, OutOfMemory> {
    let mut shelf = shelf_with(alloc, "s", LOOP)?;
    shelf.fail(CallKind::Read, read)?;
    Ok(source_stops(alloc, &mut shelf, Status::ShelfFault, b"cannot read s\n"))
}

#[test]
fn a_failing_read_is_told(rt: HostRuntime) -> Result<(), Fail> {
    // The source is read by one read, and by one more that finds its end.
    for (read, told) in &[(1, true), (2, true), (3, false)] {
        assert!(rt; is_unread(rt.alloc(), *read)? == *told);
    }
    Ok(())
}

// Whether a source of so many comment marks is refused with this text.
fn comments_are_refused(alloc: Global, count: usize, text: &[u8]) -> Result<bool, OutOfMemory> {
    let source = vec![in alloc; b'#'; count]?;
    let mut shelf = shelf_with(alloc, "s", &source)?;
    Ok(source_stops(alloc, &mut shelf, Status::Input, text))
}

#[test]
fn a_source_has_at_most_1048576_bytes(rt: HostRuntime) -> Result<(), Fail> {
    let alloc = rt.alloc();
    assert!(rt; comments_are_refused(alloc, 1_048_576, b"refused s line 0 Empty\n")?);
    assert!(rt; comments_are_refused(alloc, 1_048_577, b"refused s TooLong\n")?);
    Ok(())
}
