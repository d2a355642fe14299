//! What a shelf counts: its faults, with the name of the last one, what its reads gave, and its other calls.
ghost use Rattle.std.specs.Prelude.{◌≡◌, ◌≤◌, [], length};
ghost use Rattle.io_base.specs.Causes.{counted};

use crate::NAME_LIMIT;
use arrayvec::ArrayVec;
use std::marker::Model;

/// The counts of a shelf. Each stands still at its end, 2^64 - 1.
#[derive(Drop)]
pub struct ShelfCounts {
    faults: u64,
    last_failed: ArrayVec<u8, NAME_LIMIT>,
    taken: u64,
    absent: u64,
    creates: u64,
    appends: u64,
}

impl Model for ShelfCounts {
    ghost use Rattle.io_base.specs.ShelfCounts.{Counts};

    ghost Value = { Counts };

    ghost view = { λ c. record {
      faults = c.faults;
      last_failed = c.last_failed.items;
      taken = c.taken;
      absent = c.absent;
      creates = c.creates;
      appends = c.appends;
    } };
}

impl ShelfCounts {
    /// Nothing was counted yet.
    pub fn new() -> Self
        ensures { result ≡ record { faults = 0; last_failed = []; taken = 0; absent = 0; creates = 0; appends = 0 } }
    {
        ShelfCounts {
            faults: 0,
            last_failed: ArrayVec::new(),
            taken: 0,
            absent: 0,
            creates: 0,
            appends: 0,
        }
    }

    /// Counts a call with this name that failed.
    pub fn count_fault(&mut self, name: &str)
        requires { length name.now ≤ NAME_LIMIT }
        ensures { self.new ≡ record self.old {
          faults = counted self.old.faults 1;
          last_failed = name.now;
        } }
    {
        self.faults = self.faults.saturating_add(1);
        self.last_failed.clear();
        let _ = self.last_failed.try_extend_from_slice(name.as_bytes());
    }

    /// Counts a read that gave so many bytes.
    pub fn count_taken(&mut self, bytes: usize)
        ensures { self.new ≡ record self.old { taken = counted self.old.taken bytes } }
    {
        self.taken = self.taken.saturating_add(bytes as u64);
    }

    /// Counts a read of a name that is not there.
    pub fn count_absent(&mut self)
        ensures { self.new ≡ record self.old { absent = counted self.old.absent 1 } }
    {
        self.absent = self.absent.saturating_add(1);
    }

    /// Counts a call of `create`.
    pub fn count_create(&mut self)
        ensures { self.new ≡ record self.old { creates = counted self.old.creates 1 } }
    {
        self.creates = self.creates.saturating_add(1);
    }

    /// Counts a call of `append`.
    pub fn count_append(&mut self)
        ensures { self.new ≡ record self.old { appends = counted self.old.appends 1 } }
    {
        self.appends = self.appends.saturating_add(1);
    }
}
