//! What no clause says: that the calls succeed with ample memory, and what the real files hold.

mod in_memory;
mod on_the_system;

ghost use Rattle.std.specs.Prelude.{◌≤◌, length};

use io_base::{Failed, LoadFault, Shelf, load};
use std::alloc::Global;

// Whether a read with room for eight bytes from the front answers this.
fn front_answers<S: Shelf>(shelf: &mut S, name: &str, answer: Result<Option<usize>, Failed>) -> bool
    requires { length name.now ≤ 220 }
{
    let mut buf = [0u8; 8];
    shelf.read_at(name, 0, &mut buf) == answer
}

// Whether a read from a place, with room for at most eight bytes, gives just these.
fn gives<S: Shelf>(shelf: &mut S, name: &str, at: u64, room: usize, want: &[u8]) -> bool
    requires { length name.now ≤ 220 }
{
    let mut buf = [0u8; 8];
    let count = shelf.read_at(name, at, &mut buf[..room.min(8)]);
    count == Ok(Some(want.len())) && &buf[..want.len().min(8)] == want
}

// Whether the file is made empty.
fn creates<S: Shelf>(shelf: &mut S, name: &str) -> bool
    requires { length name.now ≤ 220 }
{
    shelf.create(name) == Ok(())
}

// Whether adding the piece answers this.
fn append_answers<S: Shelf>(
    shelf: &mut S,
    name: &str,
    piece: &[u8],
    answer: Result<(), Failed>,
) -> bool
    requires { length name.now ≤ 220 }
{
    shelf.append(name, piece) == answer
}

// Whether loading up to the limit gives these bytes, or this fault.
fn load_answers<S: Shelf>(
    alloc: Global,
    shelf: &mut S,
    name: &str,
    limit: u64,
    want: Result<&[u8], LoadFault>,
) -> bool {
    if name.len() > 220 {
        return false;
    }
    match load(alloc, shelf, name, limit) {
        Ok(bytes) => want == Ok(bytes.as_slice()),
        Err(fault) => want == Err(fault),
    }
}
