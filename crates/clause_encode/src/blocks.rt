//! The blocks of the list: clauses that stand together, as those of one label or of one instruction.
ghost use Rattle.std.specs.Prelude.{◌≡◌, ◌<◌, length};
ghost use Rattle.flow_graph.specs.Graph.{graph_of};
ghost use Rattle.clause_encode.specs.Shapes.{IsAt};
ghost use Rattle.clause_encode.specs.Blocks.{block_clauses, IsBlock};

use crate::cells::{apart_clause, cell_clause};
use crate::clause_shape::ClauseShape;
use crate::flows::{flow_clause, flow_count};
use crate::givens::{at_clause, bound_clause};
use crate::traps::{instr_trap_clause, instr_traps_count};
use flow_graph::Program;

/// A block of clauses. Labels count from 0.
#[derive(Clone, Copy)]
pub(crate) enum Block {
    /// A label has one cell.
    Cell(u32),
    /// The cell of a label is not that of an earlier label.
    Apart(u32),
    /// A label has this row and this column.
    At(u32, u32, u32),
    /// A label has no row from the bound on.
    Bound(u32),
    /// The jump of an instruction lands on its labels.
    Flow(u16),
    /// The cells where the trap outcomes of an instruction land are free.
    Traps(u16),
}

impl Block {
    /// How many clauses the block has.
    pub(crate) fn count(self, program: &Program) -> u32
        requires { IsBlock (graph_of program.now) self }
        ensures { length (block_clauses (graph_of program.now) self) ≡ result }
    {
        match self {
            Block::Cell(_) => 618,
            Block::Apart(label) => 48 * label,
            Block::At(_, _, _) => 2,
            Block::Bound(_) => 32 - u32::from(program.rows()),
            Block::Flow(label) => flow_count(program.instr(label)),
            Block::Traps(label) => {
                instr_traps_count(u32::from(program.len()), program.instr(label))
            }
        }
    }

    /// Of its clauses, the one at a place.
    pub(crate) fn clause(self, program: &Program, place: u32) -> ClauseShape
        requires block { IsBlock (graph_of program.now) self }
        requires place { place < length (block_clauses (graph_of program.now) self) }
        ensures { IsAt (block_clauses (graph_of program.now) self) place result }
    {
        let labels = u32::from(program.len());
        match self {
            Block::Cell(label) => cell_clause(label, place),
            Block::Apart(label) => apart_clause(labels, label, place),
            Block::At(label, row, col) => at_clause(label, row, col, place),
            Block::Bound(label) => bound_clause(u32::from(program.rows()), label, place),
            Block::Flow(label) => {
                flow_clause(labels, u32::from(label), program.instr(label), place)
            }
            Block::Traps(label) => instr_trap_clause(labels, program.instr(label), place),
        }
    }
}
