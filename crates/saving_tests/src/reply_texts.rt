//! Each reply's text, and each step's happy path.

mod endings;
mod files;
mod kinds;
mod scripts;
mod source_refusals;
mod sources;

use io_base::{MemShelf, MemSink, OutOfMemory};
use replies::{Status, Stop, load_source, say_stop};
use std::alloc::Global;

// Whether a command that is stopped ends with this status and prints this text.
fn says(alloc: Global, stop: Stop, status: Status, text: &[u8]) -> bool {
    let mut out = MemSink::new(alloc);
    say_stop(&mut out, stop) == status && out.bytes() == text
}

// A shelf with one file.
fn shelf_with(alloc: Global, name: &str, bytes: &[u8]) -> Result<MemShelf, OutOfMemory> {
    let mut shelf = MemShelf::new(alloc);
    shelf.put_file(name, bytes)?;
    Ok(shelf)
}

// Whether the step that reads the source `s` of this shelf stops with this status and text.
fn source_stops(alloc: Global, shelf: &mut MemShelf, status: Status, text: &[u8]) -> bool {
    match load_source(alloc, shelf, "s") {
        Ok(_) => false,
        Err(stop) => says(alloc, stop, status, text),
    }
}
