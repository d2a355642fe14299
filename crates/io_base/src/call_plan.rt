//! The calls of one kind on an object in memory, counted from 1, and those of them that are to fail.
ghost use Rattle.std.specs.Prelude.{◌≡◌, ◌↔◌, IsTrue, OnOk, OnErr};
ghost use Rattle.io_base.specs.Calls.{FailsNext, CountsCall, PlansFault, IsUncalled};

use crate::OutOfMemory;
use std::alloc::Global;
use std::marker::Model;

/// How many calls were made, and the numbers of those that are to fail.
#[derive(Drop)]
pub struct CallPlan {
    made: u64,
    to_fail: Vec<u64>,
}

impl Model for CallPlan {
    ghost use Rattle.io_base.specs.Calls.{Calls};

    ghost Value = { Calls };

    ghost view = { λ plan. record { made = plan.made; to_fail = plan.to_fail.items } };
}

impl CallPlan {
    /// No call was made, and none is to fail.
    pub fn new(alloc: Global) -> Self
        ensures { IsUncalled result }
    {
        CallPlan {
            made: 0,
            to_fail: Vec::new(alloc),
        }
    }

    /// Counts a call, and says whether it is to fail.
    pub fn count_call(&mut self) -> bool
        ensures fails { IsTrue result ↔ FailsNext self.old }
        ensures counted { CountsCall self.old self.new }
    {
        self.made = self.made.saturating_add(1);
        self.to_fail.contains(&self.made)
    }

    /// Adds a call, numbered from 1, to those that are to fail. It fails only for want of memory.
    pub fn add(&mut self, number: u32) -> Result<(), OutOfMemory>
        ensures ok { OnOk result (PlansFault self.old self.new number) }
        ensures err { OnErr result (self.new ≡ self.old) }
    {
        match self.to_fail.push(u64::from(number)) {
            Ok(()) => Ok(()),
            Err(_) => Err(OutOfMemory),
        }
    }
}
