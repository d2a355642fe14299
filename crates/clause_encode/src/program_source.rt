//! The placement clauses of a program as a source.
ghost use Rattle.std.specs.Prelude.{◌≡◌, ◌≤◌, length, IfOk};
ghost use Rattle.std.specs.Option.{ForSome};
ghost use Rattle.flow_graph.specs.Graph.{graph_of};
ghost use Rattle.placement_clauses.specs.Clauses.{clauses_of};
ghost use Rattle.placement_clauses.specs.PinCells.{HavePinCells};
ghost use Rattle.clause_encode.specs.Blocks.{AreEnds};

use crate::decoding::pin_cells;
use crate::{BlockEnds, ClauseSource, clause_count, var_count};
use clause_base::Lit;
use flow_graph::Program;
use io_base::OutOfMemory;
use smallvec::SmallVec;
use std::alloc::Global;

/// The placement clauses of a program, each made where it is asked for. Where its blocks end is counted once, for the first
/// clause that is asked for.
#[derive(Drop)]
pub struct ProgramSource<'a> {
    program: &'a Program,
    len: u32,
    given: u128,
    ends: Option<BlockEnds>,
    ghost counted: { len ≡ length (clauses_of (graph_of program.now)) },
    ghost cells: { HavePinCells (graph_of program.now).pins },
    ghost ended: { ForSome ends (AreEnds (graph_of program.now)) },
}

impl<'a> ProgramSource<'a> {
    /// The clauses of this program, of which there are at most 16,000,000; none of them is given.
    pub fn new(program: &'a Program) -> ProgramSource<'a>
        ensures program { result.program.now ≡ program.now }
        ensures given { result.given ≡ 0 }
        ensures few { length (clauses_of (graph_of program.now)) ≤ 16000000 }
    {
        pin_cells(program.pins().as_slice());
        ProgramSource {
            program,
            len: clause_count(program),
            given: 0,
            ends: None,
        }
    }
}

// The ends of a program's blocks, counted where that was not done yet.
fn ends_of(
    alloc: Global,
    program: &Program,
    kept: Option<BlockEnds>,
) -> Result<BlockEnds, OutOfMemory>
    requires { ForSome kept (AreEnds (graph_of program.now)) }
    ensures { IfOk result (AreEnds (graph_of program.now)) }
{
    match kept {
        Some(ends) => Ok(ends),
        None => BlockEnds::of(alloc, program),
    }
}

impl ClauseSource for ProgramSource<'_> {
    ghost use Rattle.clause_encode.specs.PlacementList.{list_of};

    ghost list = { λ source. list_of (graph_of source.program.now) };

    ghost given = { λ source. source.given };

    fn vars(&self) -> u32 {
        var_count(self.program)
    }

    fn len(&self) -> u32 {
        self.len
    }

    fn clause(&mut self, alloc: Global, number: u32) -> Result<SmallVec<Lit, 8>, OutOfMemory> {
        let ends = ends_of(alloc, self.program, self.ends.take())?;
        let clause = ends.clause(alloc, self.program, number)?;
        self.ends = Some(ends);
        self.given += clause.len() as u128;
        Ok(clause)
    }
}
