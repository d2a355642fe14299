//! A shelf in memory, for tests and for trying what follows a fault.
ghost use Rattle.std.specs.Prelude.{◌≡◌, ◌≢◌, ◌≤◌, ◌-◌, min, ◌↔◌, ◌⊎◌, [], length, Some, None, List, ℕ, IsErr, IfOk, IfSome, OnOk, OnErr, option_copied};
ghost use Rattle.io_base.specs.Calls.{FailsNext, PlansFault, IsUncalled};
ghost use Rattle.io_base.specs.Causes.{CountsFault};
ghost use Rattle.io_base.specs.Shelf.{IsTold, IsUncounted, SameButFiles, GoesOn, HasCause, CountsRead, CountsNoRead, CountsChanges, CountsNoChange, Reads, KeepsOthers, Appends};

use crate::call_plan::CallPlan;
use crate::mem_files::{MemFiles, add, copy_from, put};
use crate::shelf_counts::ShelfCounts;
use crate::{Failed, NAME_LIMIT, OutOfMemory, Shelf};
use std::alloc::Global;
use std::collections::BTreeMap;

/// A kind of call on a shelf.
#[derive(Clone, Copy, Debug, PartialEq, Eq)]
pub enum CallKind {
    /// A `read_at`.
    Read,
    /// A `create`.
    Create,
    /// An `append`.
    Append,
}

/// Files in memory, and the calls that are to fail. It tells its files and is honest.
///
/// A growth that is refused counts as a fault.
#[derive(Drop)]
pub struct MemShelf {
    alloc: Global,
    files: MemFiles,
    counts: ShelfCounts,
    reads: CallPlan,
    creates: CallPlan,
    appends: CallPlan,
    piece: usize,
    ghost valid: { 1 ≤ piece },
}

impl MemShelf {
    ghost use Rattle.io_base.specs.declared.mem_shelf.CallKind.{CallKind};
    ghost use Rattle.io_base.specs.MemShelf.{shelf_of, calls_of, piece_of};

    /// No files, and no calls that are to fail.
    pub fn new(alloc: Global) -> Self
        ensures told { IsTold (shelf_of result) }
        ensures uncounted { IsUncounted (shelf_of result) }
        ensures no_files { (name : List ℕ) → (shelf_of result).file name ≡ None }
        ensures uncalled { (kind : CallKind) → IsUncalled (calls_of result kind) }
        ensures piece { piece_of result ≡ usize.MAX }
    {
        MemShelf {
            alloc,
            files: BTreeMap::new(alloc),
            counts: ShelfCounts::new(),
            reads: CallPlan::new(alloc),
            creates: CallPlan::new(alloc),
            appends: CallPlan::new(alloc),
            piece: usize::MAX,
        }
    }

    /// Puts a file that holds just these bytes, without a call that is counted. It fails only for want of memory.
    pub fn put_file(&mut self, name: &str, bytes: &[u8]) -> Result<(), OutOfMemory>
        ensures ok { OnOk result ((shelf_of self.new).file name.now ≡ Some bytes.now) }
        ensures err { OnErr result ((shelf_of self.new).file name.now ≡ (shelf_of self.old).file name.now) }
        ensures others { KeepsOthers (shelf_of self.old) (shelf_of self.new) name.now }
        ensures counts { SameButFiles (shelf_of self.old) (shelf_of self.new) }
        ensures calls { (kind : CallKind) → calls_of self.new kind ≡ calls_of self.old kind }
        ensures piece { piece_of self.new ≡ piece_of self.old }
    {
        let copy = Vec::from_slice(self.alloc, bytes)?;
        put(self.alloc, &mut self.files, name, copy)
    }

    /// The bytes of a file, or None where no file has the name.
    pub fn file(&self, name: &str) -> Option<&[u8]>
        ensures { option_copied result ≡ (shelf_of self.now).file name.now }
    {
        match self.files.get(name) {
            Some(bytes) => Some(bytes.as_slice()),
            None => None,
        }
    }

    /// Adds a call of this kind to those that are to fail. The first call of each kind has number 1.
    pub fn fail(&mut self, kind: CallKind, number: u32) -> Result<(), OutOfMemory>
        ensures shelf { shelf_of self.new ≡ shelf_of self.old }
        ensures ok { OnOk result (PlansFault (calls_of self.old kind) (calls_of self.new kind) number) }
        ensures err { OnErr result (calls_of self.new kind ≡ calls_of self.old kind) }
        ensures others { (other : CallKind) → other ≢ kind →
            calls_of self.new other ≡ calls_of self.old other }
        ensures piece { piece_of self.new ≡ piece_of self.old }
    {
        match kind {
            CallKind::Read => self.reads.add(number),
            CallKind::Create => self.creates.add(number),
            CallKind::Append => self.appends.add(number),
        }
    }

    /// From now on a read gives at most so many bytes, at least 1. It takes no memory.
    pub fn set_piece(&mut self, most: usize)
        requires { 1 ≤ most }
        ensures shelf { shelf_of self.new ≡ shelf_of self.old }
        ensures calls { (kind : CallKind) → calls_of self.new kind ≡ calls_of self.old kind }
        ensures piece { piece_of self.new ≡ most }
    {
        self.piece = most;
    }
}

impl Shelf for MemShelf {
    ghost use Rattle.io_base.specs.MemShelf.{shelf_of, calls_of, piece_of, CountsCallOf, AppendsHalf};

    ghost state = { shelf_of };

    /// Fails just where this read is to fail. It gives as many bytes as there are, fit and may be given at a time.
    fn read_at(&mut self, name: &str, at: u64, buf: &mut [u8]) -> Result<Option<usize>, Failed>
        requires { length name.now ≤ NAME_LIMIT }
        ensures bound { IfOk result (λ count. IfSome count (λ n. n ≤ length buf.new)) }
        ensures told { IfOk result
            (λ count. Reads ((shelf_of self.old).file name.now) at count buf.new) }
        ensures same { (shelf_of self.new).file ≡ (shelf_of self.old).file }
        ensures counts { CountsRead (shelf_of self.old) (shelf_of self.new) result }
        ensures no_change { CountsNoChange (shelf_of self.old) (shelf_of self.new) }
        ensures goes_on { GoesOn (shelf_of self.old) (shelf_of self.new) }
        ensures cause { HasCause (shelf_of self.old) (shelf_of self.new) name.now result }
        ensures faults { CountsFault (shelf_of self.old).faults (shelf_of self.new).faults result }
        ensures fails { IsErr result ↔ FailsNext (calls_of self.old CallKind.Read) }
        ensures calls { CountsCallOf self.old self.new CallKind.Read }
        ensures count { (bytes : List ℕ) → (shelf_of self.old).file name.now ≡ Some bytes →
            OnOk result (result ≡ Ok (Some (min (length bytes - at) (min (length buf.new) (piece_of self.old))))) }
        ensures piece { piece_of self.new ≡ piece_of self.old }
    {
        if self.reads.count_call() {
            self.counts.count_fault(name);
            return Err(Failed);
        }
        match self.files.get(name) {
            None => {
                self.counts.count_absent();
                Ok(None)
            }
            Some(bytes) => {
                let room = buf.len().min(self.piece);
                let count = copy_from(bytes.as_slice(), at, &mut buf[..room]);
                self.counts.count_taken(count);
                Ok(Some(count))
            }
        }
    }

    /// Fails where this create is to fail, and where memory is refused. The file is then as before.
    fn create(&mut self, name: &str) -> Result<(), Failed>
        requires { length name.now ≤ NAME_LIMIT }
        ensures ok { OnOk result ((shelf_of self.new).file name.now ≡ Some []) }
        ensures err { OnErr result
            ((shelf_of self.new).file name.now ≡ (shelf_of self.old).file name.now) }
        ensures others { KeepsOthers (shelf_of self.old) (shelf_of self.new) name.now }
        ensures counts { CountsNoRead (shelf_of self.old) (shelf_of self.new) }
        ensures changes { CountsChanges (shelf_of self.old) (shelf_of self.new) 1 0 }
        ensures goes_on { GoesOn (shelf_of self.old) (shelf_of self.new) }
        ensures cause { HasCause (shelf_of self.old) (shelf_of self.new) name.now result }
        ensures faults { CountsFault (shelf_of self.old).faults (shelf_of self.new).faults result }
        ensures fails { FailsNext (calls_of self.old CallKind.Create) → IsErr result }
        ensures calls { CountsCallOf self.old self.new CallKind.Create }
        ensures piece { piece_of self.new ≡ piece_of self.old }
    {
        self.counts.count_create();
        if self.creates.count_call()
            || put(self.alloc, &mut self.files, name, Vec::new(self.alloc)).is_err()
        {
            self.counts.count_fault(name);
            return Err(Failed);
        }
        Ok(())
    }

    /// Fails where this append is to fail, which keeps the first half of the piece, and where memory is
    /// refused, which keeps nothing of it.
    fn append(&mut self, name: &str, piece: &[u8]) -> Result<(), Failed>
        requires { length name.now ≤ NAME_LIMIT }
        ensures ok { OnOk result
            (Appends (shelf_of self.old) (shelf_of self.new) name.now piece.now) }
        ensures err { OnErr result (AppendsHalf self.old self.new name.now piece.now) }
        ensures others { KeepsOthers (shelf_of self.old) (shelf_of self.new) name.now }
        ensures counts { CountsNoRead (shelf_of self.old) (shelf_of self.new) }
        ensures changes { CountsChanges (shelf_of self.old) (shelf_of self.new) 0 1 }
        ensures goes_on { GoesOn (shelf_of self.old) (shelf_of self.new) }
        ensures cause { HasCause (shelf_of self.old) (shelf_of self.new) name.now result }
        ensures faults { CountsFault (shelf_of self.old).faults (shelf_of self.new).faults result }
        ensures fails { FailsNext (calls_of self.old CallKind.Append) → IsErr result }
        ensures refused { OnErr result (FailsNext (calls_of self.old CallKind.Append)
            ⊎ ((shelf_of self.new).file name.now ≡ (shelf_of self.old).file name.now)) }
        ensures calls { CountsCallOf self.old self.new CallKind.Append }
        ensures piece { piece_of self.new ≡ piece_of self.old }
    {
        self.counts.count_append();
        if self.appends.count_call() {
            let _ = add(self.alloc, &mut self.files, name, &piece[..piece.len() / 2]);
            self.counts.count_fault(name);
            return Err(Failed);
        }
        if add(self.alloc, &mut self.files, name, piece).is_err() {
            self.counts.count_fault(name);
            return Err(Failed);
        }
        Ok(())
    }
}
