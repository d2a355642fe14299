//! The step that loads a file.
ghost use Rattle.std.specs.Prelude.{◌≡◌, ◌≤◌, MatchResult, length};
ghost use Rattle.io_base.specs.Shelf.{GoesOn, CountsNoChange};
ghost use Rattle.replies.specs.Ending.{StopsBy};
ghost use Rattle.replies.specs.FileStep.{HasFile, FileReply};

use crate::reply::{Stop, refuse, tell_unread};
use io_base::{LoadFault, NAME_LIMIT, Shelf, load};
use std::alloc::Global;

/// Loads a file of at most `limit` bytes, or stops: `refused NAME NoFile`, `refused NAME TooLong` or `cannot read
/// NAME`.
pub fn load_file<S: Shelf>(
    alloc: Global,
    shelf: &mut S,
    name: &str,
    limit: u64,
) -> Result<Vec<u8>, Stop>
    requires { length name.now ≤ NAME_LIMIT }
    ensures step { MatchResult result
        (λ bytes. HasFile name.now limit (S.state shelf.old) (S.state shelf.new) bytes.items)
        (StopsBy (FileReply name.now limit (S.state shelf.old) (S.state shelf.new))) }
    ensures same { (S.state shelf.new).file ≡ (S.state shelf.old).file }
    ensures no_change { CountsNoChange (S.state shelf.old) (S.state shelf.new) }
    ensures goes_on { GoesOn (S.state shelf.old) (S.state shelf.new) }
{
    match load(alloc, shelf, name, limit) {
        Ok(bytes) => Ok(bytes),
        Err(LoadFault::Failed) => Err(tell_unread(alloc, name)),
        Err(LoadFault::NoFile) => Err(refuse(alloc, name, b"NoFile")),
        Err(LoadFault::TooLong) => Err(refuse(alloc, name, b"TooLong")),
        Err(LoadFault::OutOfMemory) => Err(Stop::OutOfMemory),
    }
}
