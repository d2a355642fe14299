//! One clause of the list by its number, without the list.
ghost use Rattle.std.specs.Prelude.{◌≡◌, ◌<◌, ◌≤◌, ◌-◌, length, slice_get, Some, IfOk};
ghost use Rattle.flow_graph.specs.Graph.{graph_of};
ghost use Rattle.placement_clauses.specs.Clauses.{clauses_of};
ghost use Rattle.clause_encode.specs.Shapes.{IsAt};

use crate::block_numbers::{block_at, blocks_of};
use crate::clause_shape::ClauseShape;
use clause_base::Lit;
use flow_graph::Program;
use io_base::OutOfMemory;
use smallvec::SmallVec;
use std::alloc::Global;

// The clause at a place of the list: the block that has it, and the place there.
fn clause_shape_at(program: &Program, place: u32) -> ClauseShape
    requires { place < length (clauses_of (graph_of program.now)) }
    ensures { IsAt (clauses_of (graph_of program.now)) place result }
{
    let mut left = place;
    for number in 0..blocks_of(program) {
        let block = block_at(program, number);
        let count = block.count(program);
        if left < count {
            return block.clause(program, left);
        }
        left -= count;
    }
    unreachable!()
}

/// The clause of a number, which counts from 1: the same as that of the whole list. Up to eight literals lie in place,
/// so that most clauses take no memory. It fails only for want of memory.
pub fn clause_at(
    alloc: Global,
    program: &Program,
    number: u32,
) -> Result<SmallVec<Lit, 8>, OutOfMemory>
    requires above { 0 < number }
    requires number { number ≤ length (clauses_of (graph_of program.now)) }
    ensures { IfOk result (λ lits. slice_get (clauses_of (graph_of program.now)) (number - 1) ≡ Some lits.items) }
{
    clause_shape_at(program, number - 1).lits(alloc)
}
