//! The objects in memory, and loading and writing over them.

use super::{append_answers, creates, front_answers, gives, load_answers};
use io_base::{CallKind, Failed, LoadFault, MemShelf, MemSink, OutOfMemory, Shelf, Sink, put_all};
use std::alloc::Global;
use std::test::Fail;

/// A place, the room for bytes, and what is read of `abcdef`.
const READS: [(u64, usize, &[u8]); 6] = [
    (0, 8, b"abcdef"),
    (2, 3, b"cde"),
    (4, 3, b"ef"),
    (6, 3, b""),
    (9, 3, b""),
    (1, 0, b""),
];

#[test]
fn reads_give_the_bytes_from_a_place(rt: HostRuntime) -> Result<(), Fail> {
    let mut shelf = MemShelf::new(rt.alloc());
    shelf.put_file("a", b"abcdef")?;
    for (at, room, want) in &READS {
        assert!(rt; gives(&mut shelf, "a", *at, *room, want), "at {at}");
    }
    assert!(rt; front_answers(&mut shelf, "b", Ok(None)));
    Ok(())
}

// Whether a file of the shelf holds just these bytes.
fn holds(shelf: &MemShelf, name: &str, bytes: &[u8]) -> bool {
    shelf.file(name).unwrap_or(b"none") == bytes
}

#[test]
fn files_are_created_and_added_to(rt: HostRuntime) {
    let mut shelf = MemShelf::new(rt.alloc());
    assert!(rt; creates(&mut shelf, "a"));
    assert!(rt; append_answers(&mut shelf, "a", b"abc", Ok(())));
    assert!(rt; append_answers(&mut shelf, "a", b"de", Ok(())));
    assert!(rt; append_answers(&mut shelf, "b", b"xy", Ok(())));
    assert!(rt; holds(&shelf, "a", b"abcde"));
    assert!(rt; holds(&shelf, "b", b"xy"));
    assert!(rt; creates(&mut shelf, "a"));
    assert!(rt; holds(&shelf, "a", b""));
    assert!(rt; shelf.file("c").is_none());
}

/// The calls that are to fail.
const PLAN: [(CallKind, u32); 4] = [
    (CallKind::Read, 1),
    (CallKind::Read, 3),
    (CallKind::Create, 1),
    (CallKind::Append, 2),
];

// A shelf with one file, on which the calls of the plan are to fail.
fn planned_shelf(alloc: Global) -> Result<MemShelf, OutOfMemory> {
    let mut shelf = MemShelf::new(alloc);
    shelf.put_file("a", b"ab")?;
    for (kind, number) in &PLAN {
        shelf.fail(*kind, *number)?;
    }
    Ok(shelf)
}

// Whether making the file empty fails.
fn create_fails(shelf: &mut MemShelf) -> bool {
    shelf.create("a") == Err(Failed)
}

#[test]
fn planned_calls_fail(rt: HostRuntime) -> Result<(), Fail> {
    let mut shelf = planned_shelf(rt.alloc())?;
    assert!(rt; front_answers(&mut shelf, "a", Err(Failed)));
    assert!(rt; front_answers(&mut shelf, "a", Ok(Some(2))));
    let failed = Err(LoadFault::Failed);
    assert!(rt; load_answers(rt.alloc(), &mut shelf, "a", 9, failed));
    assert!(rt; create_fails(&mut shelf));
    assert!(rt; append_answers(&mut shelf, "a", b"cd", Ok(())));
    // Half of five bytes are two.
    assert!(rt; append_answers(&mut shelf, "a", b"efghi", Err(Failed)));
    assert!(rt; holds(&shelf, "a", b"abcdef"));
    assert!(rt; append_answers(&mut shelf, "a", b"jk", Ok(())));
    assert!(rt; holds(&shelf, "a", b"abcdefjk"));
    Ok(())
}

// Whether one write of the piece answers this.
fn write_answers(sink: &mut MemSink, piece: &[u8], answer: Result<usize, Failed>) -> bool {
    sink.write(piece) == answer
}

// Whether writing the piece whole answers this.
fn put_answers(sink: &mut MemSink, piece: &[u8], answer: Result<(), Failed>) -> bool {
    put_all(sink, piece) == answer
}

#[test]
fn sink_keeps_what_was_written(rt: HostRuntime) -> Result<(), Fail> {
    let mut sink = MemSink::new(rt.alloc());
    sink.fail(2)?;
    assert!(rt; write_answers(&mut sink, b"ab", Ok(2)));
    assert!(rt; write_answers(&mut sink, b"cd", Err(Failed)));
    assert!(rt; put_answers(&mut sink, b"efg", Ok(())));
    assert!(rt; put_answers(&mut sink, b"", Ok(())));
    assert!(rt; sink.bytes() == b"abefg".as_slice());
    sink.fail(4)?;
    assert!(rt; put_answers(&mut sink, b"hi", Err(Failed)));
    assert!(rt; sink.bytes() == b"abefg".as_slice());
    Ok(())
}

/// A file of more than one piece.
const LONG: &[u8] = &[7; 5000];

/// A name, a limit, and the bytes or the fault.
const LOADS: [(&str, u64, Result<&[u8], LoadFault>); 7] = [
    ("long", 5000, Ok(LONG)),
    ("long", 4999, Err(LoadFault::TooLong)),
    ("long", 4096, Err(LoadFault::TooLong)),
    ("short", 3, Ok(b"abc")),
    ("short", 2, Err(LoadFault::TooLong)),
    ("empty", 0, Ok(b"")),
    ("absent", 9, Err(LoadFault::NoFile)),
];

// A shelf with the files that are there.
fn shelf_to_load(alloc: Global) -> Result<MemShelf, OutOfMemory> {
    let mut shelf = MemShelf::new(alloc);
    shelf.put_file("long", LONG)?;
    shelf.put_file("short", b"abc")?;
    shelf.put_file("empty", b"")?;
    Ok(shelf)
}

#[test]
fn loads_up_to_the_limit(rt: HostRuntime) -> Result<(), Fail> {
    let mut shelf = shelf_to_load(rt.alloc())?;
    for (name, limit, want) in &LOADS {
        let told = load_answers(rt.alloc(), &mut shelf, name, *limit, *want);
        assert!(rt; told, "{name} up to {limit}");
    }
    Ok(())
}
