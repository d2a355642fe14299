//! Where the blocks of a program's list end, for one who asks for many of its clauses.
ghost use Rattle.std.specs.Prelude.{◌≡◌, ◌<◌, ◌≤◌, ◌-◌, length, slice_get, slice_index, Some, IfOk};
ghost use Rattle.flow_graph.specs.Graph.{graph_of};
ghost use Rattle.placement_clauses.specs.Clauses.{clauses_of};
ghost use Rattle.clause_encode.specs.Blocks.{AreEnds};

use crate::block_numbers::{block_at, blocks_of};
use clause_base::Lit;
use flow_graph::Program;
use io_base::OutOfMemory;
use smallvec::SmallVec;
use std::alloc::Global;
use std::marker::Model;

/// For each block of a program's list of clauses, how many clauses there are up to its end. Made once, it finds each
/// clause in a few steps.
#[derive(Drop)]
pub struct BlockEnds {
    items: Vec<u32>,
}

impl Model for BlockEnds {
    ghost use Rattle.std.specs.Prelude.{ℕ, List};

    ghost Value = { List ℕ };

    ghost view = { λ ends. ends.items.items };
}

// The first number of a rising list that is above a place.
fn first_above(ends: &[u32], place: u32) -> usize
    requires some { 0 < length ends.now }
    requires last { place < slice_index ends.now (length ends.now - 1) }
    ensures within { result < length ends.now }
    ensures before { 0 < result → slice_index ends.now (result - 1) ≤ place }
    ensures above { place < slice_index ends.now result }
{
    let mut first = 0;
    let mut last = ends.len() - 1;
    while first < last {
        let middle = first + (last - first) / 2;
        if ends[middle] <= place {
            first = middle + 1;
        } else {
            last = middle;
        }
    }
    first
}

// How many clauses there are before a block, by the ends of the blocks.
fn clauses_before(ends: &[u32], number: usize) -> u32
    requires { number < length ends.now }
    ensures first { number ≡ 0 → result ≡ 0 }
    ensures later { 0 < number → result ≡ slice_index ends.now (number - 1) }
{
    if number == 0 { 0 } else { ends[number - 1] }
}

impl BlockEnds {
    /// The ends of a program's blocks. It fails only for want of memory.
    pub fn of(alloc: Global, program: &Program) -> Result<BlockEnds, OutOfMemory>
        ensures { IfOk result (AreEnds (graph_of program.now)) }
    {
        let mut items = Vec::new(alloc);
        let mut end = 0;
        for number in 0..blocks_of(program) {
            end += block_at(program, number).count(program);
            items.push(end)?;
        }
        Ok(BlockEnds { items })
    }

    /// The clause of a number, which counts from 1: the same as that of the whole list. Up to eight literals lie in
    /// place, so that most clauses take no memory. It fails only for want of memory.
    pub fn clause(
        &self,
        alloc: Global,
        program: &Program,
        number: u32,
    ) -> Result<SmallVec<Lit, 8>, OutOfMemory>
        requires ends { AreEnds (graph_of program.now) self.now }
        requires above { 0 < number }
        requires number { number ≤ length (clauses_of (graph_of program.now)) }
        ensures { IfOk result (λ lits. slice_get (clauses_of (graph_of program.now)) (number - 1) ≡ Some lits.items) }
    {
        let place = number - 1;
        let ends = self.items.as_slice();
        let found = first_above(ends, place);
        let left = place - clauses_before(ends, found);
        block_at(program, found as u32)
            .clause(program, left)
            .lits(alloc)
    }
}
