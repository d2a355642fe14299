//! A list of clauses as a source.
ghost use Rattle.std.specs.Prelude.{◌≡◌, ◌<◌, ◌^◌};
ghost use Rattle.clause_encode.specs.Given.{AreGivable};

use crate::ClauseSource;
use clause_base::{ClauseList, Lit};
use io_base::OutOfMemory;
use smallvec::SmallVec;
use std::alloc::Global;

/// The clauses of a list.
#[derive(Drop)]
pub struct ListSource<'a> {
    list: &'a ClauseList,
    vars: u32,
    given: u128,
    ghost over: { vars ≡ list.now.vars },
    ghost givable: { AreGivable list.now },
}

impl<'a> ListSource<'a> {
    /// The clauses of this list, none of them given.
    pub fn new(list: &'a ClauseList) -> ListSource<'a>
        ensures list { result.list.now ≡ list.now }
        ensures given { result.given ≡ 0 }
        ensures few { list.now.vars < 2 ^ 31 }
    {
        ListSource {
            list,
            vars: list.vars(),
            given: 0,
        }
    }

    /// How many literals were given.
    pub fn given(&self) -> u128
        ensures { result ≡ self.now.given }
    {
        self.given
    }
}

impl ClauseSource for ListSource<'_> {
    ghost list = { λ source. source.list.now };

    ghost given = { λ source. source.given };

    fn vars(&self) -> u32 {
        self.vars
    }

    fn len(&self) -> u32 {
        self.list.len()
    }

    fn clause(&mut self, alloc: Global, number: u32) -> Result<SmallVec<Lit, 8>, OutOfMemory> {
        let clause = SmallVec::from_slice(alloc, self.list.get(number))?;
        self.given += clause.len() as u128;
        Ok(clause)
    }
}
