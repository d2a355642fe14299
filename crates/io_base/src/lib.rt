//! The outside as the program sees it: a shelf of named files and a sink of bytes, each with a count of its faults.
//! Layer: outside.
//!
//! Shelf and sink say exactly what their calls do. A call answers `Failed` only where its object's count of faults
//! rose in that call, and a shelf's last failed name is then the name of that call; a call that does not fail leaves
//! both. A loaded file is the whole file of a shelf that tells its files, and just its bytes were taken; a file is
//! refused as absent or too long exactly where a read said so or more bytes than the limit were taken. `put_all` adds
//! the whole piece to a sink, and where it does, no write failed.
//!
//! A shelf *tells its files* where contracts see their bytes, and is *honest* where `create` and `append` do to a
//! file what they say. `MemShelf`, in memory, does both. Of `FileShelf`, the system's files, neither is assumed.
//!
//! `Listed` is the list of every crate above that keeps values in order and nothing more.
//!
//! Contracts: `load`, `put_all`, `Listed`, the traits `Shelf` and `Sink`.
#![tactic(auto)]

mod call_plan;
mod faults;
mod file_shelf;
mod listed;
mod loading;
mod mem_files;
mod mem_shelf;
mod mem_sink;
mod names;
mod shelf_counts;
mod shelves;
mod sinks;
mod std_sink;

pub use faults::{Failed, OutOfMemory};
pub use file_shelf::FileShelf;
pub use listed::Listed;
pub use loading::{LoadFault, load};
pub use mem_shelf::{CallKind, MemShelf};
pub use mem_sink::MemSink;
pub use names::{GIVEN_NAME_LIMIT, NAME_LIMIT};
pub use shelves::Shelf;
pub use sinks::{Sink, put_all};
pub use std_sink::StdSink;
