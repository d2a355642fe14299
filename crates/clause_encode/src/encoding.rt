//! The whole list of clauses of a program.
ghost use Rattle.std.specs.Prelude.{◌≡◌, ◌<◌, ◌≤◌, ◌+◌, ◌-◌, ◌^◌, List, [], ◌∷◌, IfOk, OnOk, length};
ghost use Rattle.mcu_jumps.specs.Position.{Position};
ghost use Rattle.clause_base.specs.Clauses.{IsClause};
ghost use Rattle.flow_graph.specs.Graph.{graph_of};
ghost use Rattle.place_model.specs.Legal.{IsLegal};
ghost use Rattle.clause_base.specs.TruthValues.{AllHold, truth_in};
ghost use Rattle.placement_clauses.specs.Number.{var_count_of};
ghost use Rattle.placement_clauses.specs.Clauses.{clauses_of};
ghost use Rattle.placement_clauses.specs.Meaning.{meaning};
ghost use Rattle.clause_encode.specs.Adds.{Adds};
ghost use Rattle.clause_encode.specs.Shapes.{lits_of, IsShape};
ghost use Rattle.clause_encode.specs.Blocks.{block_clauses, IsBlock};
ghost use Rattle.clause_encode.specs.PlacementList.{list_of};

use crate::block_numbers::{block_at, blocks_of};
use crate::blocks::Block;
use crate::clause_shape::ClauseShape;
use crate::variable_numbers::vars_of;
use clause_base::ClauseList;
use flow_graph::Program;
use io_base::OutOfMemory;
use std::alloc::Global;

/// The number of variables: 48 for the cell of each label, one for each pair of labels, and three for each instruction,
/// the ways of a `goto`, which the others leave unused.
pub fn var_count(program: &Program) -> u32
    ensures { result ≡ var_count_of (length (graph_of program.now).instrs) }
{
    vars_of(u32::from(program.len()))
}

/// The number of clauses, of which there are at most 16,000,000.
pub fn clause_count(program: &Program) -> u32
    ensures count { result ≡ length (clauses_of (graph_of program.now)) }
    ensures few { result ≤ 16000000 }
{
    let mut count = 0;
    for number in 0..blocks_of(program) {
        count += block_at(program, number).count(program);
    }
    count
}

// Adds one clause.
fn add_clause(alloc: Global, list: &mut ClauseList, clause: ClauseShape) -> Result<(), OutOfMemory>
    requires few { length list.old.clauses < 2 ^ 32 - 1 }
    requires shape { IsShape clause }
    requires valid { IsClause list.old.vars (lits_of clause) }
    ensures { OnOk result (Adds list.old list.new (lits_of clause ∷ [])) }
{
    match clause {
        ClauseShape::One(a) => list.add(&[a]),
        ClauseShape::Two(a, b) => list.add(&[a, b]),
        ClauseShape::Three(a, b, c) => list.add(&[a, b, c]),
        longer => list.add(longer.lits(alloc)?.as_slice()),
    }
}

// Adds the clauses of a block, each by its place.
fn add_block(
    alloc: Global,
    list: &mut ClauseList,
    program: &Program,
    block: Block,
) -> Result<(), OutOfMemory>
    requires vars { list.old.vars ≡ var_count_of (length (graph_of program.now).instrs) }
    requires block { IsBlock (graph_of program.now) block }
    requires few { length list.old.clauses + length (block_clauses (graph_of program.now) block) < 2 ^ 32 }
    ensures { OnOk result (Adds list.old list.new (block_clauses (graph_of program.now) block)) }
{
    for place in 0..block.count(program) {
        add_clause(alloc, list, block.clause(program, place))?;
    }
    Ok(())
}

/// The placement clauses of a program, in their order (this project's own choice). The values that a
/// legal placement gives the variables make each of them true. It fails only for want of memory.
pub fn encode(alloc: Global, program: &Program) -> Result<ClauseList, OutOfMemory>
    ensures clauses { IfOk result (λ list. list ≡ list_of (graph_of program.now)) }
    ensures sound { (place : List Position) → IsLegal (graph_of program.now) place → IfOk result (λ list. AllHold (truth_in (meaning (graph_of program.now) place)) list.clauses) }
    ensures few { IfOk result (λ list. length list.clauses ≤ 16000000) }
{
    let mut list = ClauseList::new(alloc, var_count(program))?;
    for number in 0..blocks_of(program) {
        add_block(alloc, &mut list, program, block_at(program, number))?;
    }
    Ok(list)
}
