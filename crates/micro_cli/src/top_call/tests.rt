//! Whole runs over shelves and sinks in memory: that they succeed with ample memory, and what they print.

mod damaged;
mod faults;
mod fetch_execute;
mod flows;
mod limits;
mod makes;
mod maps;
mod misread;
mod outcomes;
mod outside;
mod pin_refusals;
mod sources;

use super::top;
use crate::map_command::map_command;
use io_base::{MemShelf, MemSink, OutOfMemory, Shelf, Sink};
use replies::Status;
use std::alloc::Global;

// A shelf with the file `s`.
fn shelf_with(alloc: Global, bytes: &[u8]) -> Result<MemShelf, OutOfMemory> {
    let mut shelf = MemShelf::new(alloc);
    shelf.put_file("s", bytes)?;
    Ok(shelf)
}

// A shelf with the files `s` and `t`.
fn shelf_with_script(alloc: Global, source: &[u8], script: &[u8]) -> Result<MemShelf, OutOfMemory> {
    let mut shelf = shelf_with(alloc, source)?;
    shelf.put_file("t", script)?;
    Ok(shelf)
}

// What these words end with.
fn end_of<S: Shelf, K: Sink>(
    alloc: Global,
    shelf: &mut S,
    out: &mut K,
    words: &[&str],
) -> Result<Status, OutOfMemory> {
    let mut owned = Vec::new(alloc);
    for word in words {
        owned.push(String::from_str(alloc, word)?)?;
    }
    Ok(top(alloc, owned.as_slice(), shelf, out))
}

// Whether these words end with this status and print this text.
fn answers<S: Shelf>(
    alloc: Global,
    shelf: &mut S,
    words: &[&str],
    status: Status,
    text: &[u8],
) -> Result<bool, OutOfMemory> {
    let mut out = MemSink::new(alloc);
    let ended = end_of(alloc, shelf, &mut out, words)?;
    Ok(ended == status && out.bytes() == text)
}

// Whether the map of a source ends with this status and prints this text.
fn has_map(alloc: Global, source: &[u8], status: Status, text: &[u8]) -> Result<bool, OutOfMemory> {
    let mut shelf = shelf_with(alloc, source)?;
    let mut out = MemSink::new(alloc);
    let ended = map_command(alloc, &mut shelf, &mut out, "s");
    Ok(ended == status && out.bytes() == text)
}
