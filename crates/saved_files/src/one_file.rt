//! One file, begun by a `create` and grown by appends.
//!
//! Each call says what stands since the start, the state before the file was begun: so a loop that grows
//! a file has one fact as its invariant, that the file is written with the text so far.
ghost use Rattle.std.specs.Prelude.{ℕ, List, [], ◌++◌, ◌≤◌, length, OnOk, OnErr};
ghost use Rattle.io_base.specs.Shelf.{ShelfState, HasCause, CountsChanges};
ghost use Rattle.saved_files.specs.OneFile.{WritesOnly, IsWritten, IsUnwritten};
ghost use Rattle.saved_files.specs.Saving.{TakesOneUpTo};

use io_base::{Failed, NAME_LIMIT, Shelf};

/// Begins the file `name`, of at most `NAME_LIMIT` bytes: it is empty then.
pub fn begin_file<S: Shelf>(shelf: &mut S, name: &str) -> Result<(), Failed>
    requires { length name.now ≤ NAME_LIMIT }
    ensures ok { OnOk result (IsWritten (S.state shelf.old) (S.state shelf.new) name.now []) }
    ensures err { OnErr result (IsUnwritten (S.state shelf.old) (S.state shelf.new) name.now []) }
    ensures calls { CountsChanges (S.state shelf.old) (S.state shelf.new) 1 0 }
{
    shelf.create(name)
}

/// Adds a piece to the file `name`, of at most `NAME_LIMIT` bytes, which was begun and holds the text so far.
pub fn grow_file<S: Shelf>(shelf: &mut S, name: &str, piece: &[u8]) -> Result<(), Failed>
    requires { length name.now ≤ NAME_LIMIT }
    ensures ok { (start : ShelfState) (text : List ℕ) → IsWritten start (S.state shelf.old) name.now text →
        OnOk result (IsWritten start (S.state shelf.new) name.now (text ++ piece.now)) }
    ensures err { (start : ShelfState) (text : List ℕ) → IsWritten start (S.state shelf.old) name.now text →
        OnErr result (IsUnwritten start (S.state shelf.new) name.now (text ++ piece.now)) }
    ensures only { WritesOnly (S.state shelf.old) (S.state shelf.new) name.now }
    ensures cause { HasCause (S.state shelf.old) (S.state shelf.new) name.now result }
    ensures calls { CountsChanges (S.state shelf.old) (S.state shelf.new) 0 1 }
{
    match shelf.append(name, piece) {
        Ok(()) => Ok(()),
        Err(Failed) => Err(Failed),
    }
}

/// Saves the file `name`, of at most `NAME_LIMIT` bytes, by one create and one append: it holds just these bytes then.
pub fn save_file<S: Shelf>(shelf: &mut S, name: &str, bytes: &[u8]) -> Result<(), Failed>
    requires { length name.now ≤ NAME_LIMIT }
    ensures ok { OnOk result (IsWritten (S.state shelf.old) (S.state shelf.new) name.now bytes.now) }
    ensures err { OnErr result (IsUnwritten (S.state shelf.old) (S.state shelf.new) name.now bytes.now) }
    ensures calls { OnOk result (CountsChanges (S.state shelf.old) (S.state shelf.new) 1 1) }
    ensures tries { OnErr result (TakesOneUpTo (S.state shelf.old) (S.state shelf.new) 0) }
{
    match begin_file(shelf, name) {
        Ok(()) => grow_file(shelf, name, bytes),
        Err(Failed) => Err(Failed),
    }
}
