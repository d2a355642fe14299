//! The blocks of a program by their numbers, counted from 0.
ghost use Rattle.std.specs.Prelude.{◌≡◌, ◌<◌, ◌≤◌, ◌+◌, length};
ghost use Rattle.flow_graph.specs.Graph.{graph_of};
ghost use Rattle.clause_encode.specs.Blocks.{block_clauses, block_count, numbered_block, given_block, instr_block, IsBlock};

use crate::blocks::Block;
use flow_graph::Program;

// How many pins there are.
fn pin_count(program: &Program) -> u32
    ensures count { result ≡ length (graph_of program.now).pins }
    ensures few { result ≤ 512 }
{
    program.pins().as_slice().len() as u32
}

/// How many blocks there are: one for each label in each class, in the third one for each pin and for the start too.
pub(crate) fn blocks_of(program: &Program) -> u32
    ensures { result ≡ block_count (graph_of program.now) }
{
    let labels = u32::from(program.len());
    2 * labels + pin_count(program) + 1 + 3 * labels
}

// A block of the last two classes.
fn instr_block_at(program: &Program, number: u32) -> Block
    requires { number < length (graph_of program.now).instrs + length (graph_of program.now).instrs }
    ensures block { IsBlock (graph_of program.now) result }
    ensures clauses { block_clauses (graph_of program.now) result ≡ instr_block (graph_of program.now) number }
{
    let labels = u32::from(program.len());
    if number < labels {
        Block::Flow(number as u16)
    } else {
        Block::Traps((number - labels) as u16)
    }
}

// A block of the third class, or of a later one.
fn given_block_at(program: &Program, number: u32) -> Block
    requires { number + (length (graph_of program.now).instrs + length (graph_of program.now).instrs) < block_count (graph_of program.now) }
    ensures block { IsBlock (graph_of program.now) result }
    ensures clauses { block_clauses (graph_of program.now) result ≡ given_block (graph_of program.now) number }
{
    let labels = u32::from(program.len());
    let pins = pin_count(program);
    if number < pins {
        let pin = &program.pins().as_slice()[number as usize];
        return Block::At(
            u32::from(pin.label),
            u32::from(pin.cell.row()),
            u32::from(pin.cell.col()),
        );
    }
    if number == pins {
        return Block::At(u32::from(program.start()), 0, 0);
    }
    let left = number - pins - 1;
    if left < labels {
        Block::Bound(left)
    } else {
        instr_block_at(program, left - labels)
    }
}

/// The block of a number.
pub(crate) fn block_at(program: &Program, number: u32) -> Block
    requires { number < block_count (graph_of program.now) }
    ensures block { IsBlock (graph_of program.now) result }
    ensures clauses { block_clauses (graph_of program.now) result ≡ numbered_block (graph_of program.now) number }
{
    let labels = u32::from(program.len());
    if number < labels {
        return Block::Cell(number);
    }
    let left = number - labels;
    if left < labels {
        Block::Apart(left)
    } else {
        given_block_at(program, left - labels)
    }
}
