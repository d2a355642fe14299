//! How it is told that a file was not saved, without memory once saving has begun.
ghost use Rattle.std.specs.Prelude.{◌≡◌, ◌≤◌, [], IfOk, length, vec_capacity};
ghost use Rattle.saved_files.specs.Unsaved.{cannot_save};

use io_base::{NAME_LIMIT, OutOfMemory};
use std::alloc::Global;

/// The most bytes of a text that `say_unsaved` writes, and a few more.
const ROOM: usize = 240;

/// An empty text with room for what `say_unsaved` says of any name. It is taken before the first `create`.
pub fn room_for_unsaved(alloc: Global) -> Result<Vec<u8>, OutOfMemory>
    ensures empty { IfOk result (λ text. text.items ≡ []) }
    ensures room { IfOk result (λ text. 240 ≤ vec_capacity text) }
{
    let text = Vec::with_capacity(alloc, ROOM)?;
    Ok(text)
}

/// Writes `cannot save NAME` and LF into an empty text that has room for it. It takes no memory.
pub fn say_unsaved(text: &mut Vec<u8>, name: &str)
    requires empty { text.old.items ≡ [] }
    requires room { 240 ≤ vec_capacity text.old }
    requires short { length name.now ≤ NAME_LIMIT }
    ensures { text.new.items ≡ cannot_save name.now }
{
    let _ = text.extend_from_slice(b"cannot save ");
    let _ = text.extend_from_slice(name.as_bytes());
    let _ = text.extend_from_slice(b"\n");
}
