//! A shelf of named files: what the program asks of a file system.
ghost use Rattle.std.specs.Prelude.{◌≡◌, ◌≤◌, [], length, IsTrue, Some, IfOk, IfSome, OnOk, OnErr};
ghost use Rattle.io_base.specs.Shelf.{ShelfState, GoesOn, HasCause, CountsRead, CountsNoRead, CountsChanges, CountsNoChange, Reads, KeepsOthers, IsTold, Appends, AppendsPrefix, IsKeptOrEmpty};

use crate::{Failed, NAME_LIMIT};

/// Named files that are read at any place, made empty, and added to at their end. A name has at most 220 bytes: the 200
/// of a name on the command line, a suffix of at most 10, and some to spare (this project's own choice).
///
/// A shelf that keeps its content to itself, as the files of the system do, promises nothing of what
/// reads give. One that is not honest promises nothing of a file after `create` and `append`.
pub trait Shelf {
    /// What the shelf means.
    ghost state: { Self → ShelfState };

    /// Reads bytes of the file `name` from the place `at` on into the front of `buf`.
    ///
    /// The answer is how many, or `None` where the name is not there, which is no fault. No file changes.
    fn read_at(&mut self, name: &str, at: u64, buf: &mut [u8]) -> Result<Option<usize>, Failed>
        requires { length name.now ≤ NAME_LIMIT }
        ensures bound { IfOk result (λ count. IfSome count (λ n. n ≤ length buf.new)) }
        ensures told { IsTrue (state self.old).tells → IfOk result
            (λ count. Reads ((state self.old).file name.now) at count buf.new) }
        ensures same { (state self.new).file ≡ (state self.old).file }
        ensures counts { CountsRead (state self.old) (state self.new) result }
        ensures no_change { CountsNoChange (state self.old) (state self.new) }
        ensures goes_on { GoesOn (state self.old) (state self.new) }
        ensures cause { HasCause (state self.old) (state self.new) name.now result };

    /// Makes the file `name` empty, whether or not it was there. After `Failed` the file of an honest shelf is as it was,
    /// or empty.
    fn create(&mut self, name: &str) -> Result<(), Failed>
        requires { length name.now ≤ NAME_LIMIT }
        ensures ok { IsTold (state self.old) →
            OnOk result ((state self.new).file name.now ≡ Some []) }
        ensures err { IsTold (state self.old) →
            OnErr result (IsKeptOrEmpty (state self.old) (state self.new) name.now) }
        ensures others { KeepsOthers (state self.old) (state self.new) name.now }
        ensures counts { CountsNoRead (state self.old) (state self.new) }
        ensures changes { CountsChanges (state self.old) (state self.new) 1 0 }
        ensures goes_on { GoesOn (state self.old) (state self.new) }
        ensures cause { HasCause (state self.old) (state self.new) name.now result };

    /// Adds the piece at the end of the file `name`. A name that is not there counts as an empty file. After `Failed` the
    /// file of an honest shelf is as it was, or its old bytes and a prefix of the piece.
    fn append(&mut self, name: &str, piece: &[u8]) -> Result<(), Failed>
        requires { length name.now ≤ NAME_LIMIT }
        ensures ok { IsTold (state self.old) →
            OnOk result (Appends (state self.old) (state self.new) name.now piece.now) }
        ensures err { IsTold (state self.old) →
            OnErr result (AppendsPrefix (state self.old) (state self.new) name.now piece.now) }
        ensures others { KeepsOthers (state self.old) (state self.new) name.now }
        ensures counts { CountsNoRead (state self.old) (state self.new) }
        ensures changes { CountsChanges (state self.old) (state self.new) 0 1 }
        ensures goes_on { GoesOn (state self.old) (state self.new) }
        ensures cause { HasCause (state self.old) (state self.new) name.now result };
}
