//! Worked examples: maps, refusals and legality, worked out by hand from the 3001's jump table.
ghost use Rattle.flow_graph.specs.Graph.{graph_of};
ghost use Rattle.place_model.specs.Legal.{IsLegal};

use crate::texts::assembled;
use flow_graph::Program;
use mcu_jumps::Cell;
use place_model::{MapFault, MapKind, Placement, jump_of, legal, map_text, pinned};
use std::alloc::Global;
use std::test::Fail;

/// A source whose placement by its pins has this map text, and whose last label has this AC value.
const MAPS: [(&[u8], &[u8], u8); 3] = [
    (
        b"slices 1\nstart A\npin A 0 0\npin B 0 15\npin C 5 15\n\
A: NOP R0 | goto B\nB: NOP R0 | goto C\nC: NOP R0 | goto B\n",
        b"A 0.0 3f JCR 15\nB 0.15 05 JCC 5\nC 5.15 00 JCC 0\n",
        0x00,
    ),
    (
        b"slices 1\nstart A\npin A 0 0\npin B 0 15\npin C 5 15\n\
A: NOP R0 | goto B\nB: NOP R0 | goto C\nC: NOP R0 | strobe B\n",
        b"A 0.0 3f JCR 15\nB 0.15 05 JCC 5\nC 5.15 2f JZR 15\n",
        0x2f,
    ),
    // The trap outcome of A lands at row 3, column 2, which no label has.
    (
        b"slices 1\nstart A\npin A 0 0\npin B 3 3\n\
A: NOP R0 | iff - B\nB: NOP R0 | enable B\n",
        b"A 0.0 43 JFL 3\nB 3.3 73 JCE 3\n",
        0x73,
    ),
];

/// A source whose pins are refused at a line.
const REFUSALS: [(&[u8], u32, MapKind); 7] = [
    (
        b"slices 1\nstart A\npin A 0 0\npin B 0 15\npin C 0 15\n\
A: NOP R0 | goto B\nB: NOP R0 | goto C\nC: NOP R0 | goto B\n",
        8,
        MapKind::SameCell,
    ),
    (
        b"slices 1\nrows 5\nstart A\npin A 0 0\npin B 0 15\npin C 5 15\n\
A: NOP R0 | goto B\nB: NOP R0 | goto C\nC: NOP R0 | goto B\n",
        9,
        MapKind::RowBound,
    ),
    // The start at a wrong cell that is not below the row bound either.
    (
        b"slices 1\nrows 1\nstart A\npin A 1 0\npin B 0 15\npin C 5 15\n\
A: NOP R0 | goto B\nB: NOP R0 | goto C\nC: NOP R0 | goto B\n",
        7,
        MapKind::RowBound,
    ),
    (
        b"slices 1\nstart A\npin A 0 1\npin B 0 15\npin C 5 15\n\
A: NOP R0 | goto B\nB: NOP R0 | goto C\nC: NOP R0 | goto B\n",
        6,
        MapKind::StartCell,
    ),
    (
        b"slices 1\nstart A\npin A 0 0\npin B 0 15\npin C 5 14\n\
A: NOP R0 | goto B\nB: NOP R0 | goto C\nC: NOP R0 | goto B\n",
        7,
        MapKind::NoJump,
    ),
    // B has no pin, and that comes before the start's wrong cell.
    (
        b"slices 1\nstart A\npin A 0 1\n\
A: NOP R0 | goto B\nB: NOP R0 | goto C\nC: NOP R0 | goto B\n",
        5,
        MapKind::Unpinned,
    ),
    // The trap outcome of A would land at row 3, column 2, the cell of C.
    (
        b"slices 1\nstart A\npin A 0 0\npin B 3 3\npin C 3 2\n\
A: NOP R0 | iff - B\nB: NOP R0 | enable B\nC: NOP R0 | goto B\n",
        6,
        MapKind::NoJump,
    ),
];

/// Three gotos under the row bound 6, with C pinned to row 5, column 15.
const THREE_GOTOS: &[u8] = b"slices 1\nrows 6\nstart A\npin C 5 15\n\
A: NOP R0 | goto B\nB: NOP R0 | goto C\nC: NOP R0 | goto B\n";

/// Row and column of each label of THREE_GOTOS, and whether those cells are legal.
const CELLS: [([(u8, u8); 3], bool); 6] = [
    ([(0, 0), (0, 15), (5, 15)], true),
    // Two labels share a cell, and C leaves its pin.
    ([(0, 0), (0, 15), (0, 15)], false),
    // C leaves its pin.
    ([(0, 0), (0, 15), (4, 15)], false),
    // The start is elsewhere.
    ([(2, 0), (2, 15), (5, 15)], false),
    // B is not below the row bound.
    ([(0, 0), (6, 0), (5, 15)], false),
    // No jump leads from B to C.
    ([(0, 0), (0, 14), (5, 15)], false),
];

// Whether the program and its placement have this map text.
fn has_map(alloc: Global, program: &Program, placement: &Placement, text: &[u8]) -> bool
    requires { IsLegal (graph_of program.now) placement.now }
{
    match map_text(alloc, program, placement) {
        Ok(map) => map.as_slice() == text,
        Err(_) => false,
    }
}

// Whether the pins of the source give this map text, and the last label this AC value.
fn is_mapped(alloc: Global, source: &[u8], text: &[u8], ac: u8) -> bool {
    let Some(program) = assembled(alloc, source) else {
        return false;
    };
    let Ok(placement) = pinned(alloc, &program) else {
        return false;
    };
    let last = program.len() - 1;
    legal(&program, &placement)
        && jump_of(&program, &placement, last).encode() == ac
        && has_map(alloc, &program, &placement, text)
}

#[test]
fn pins_give_a_map(rt: HostRuntime) {
    for (source, text, ac) in &MAPS {
        assert!(rt; is_mapped(rt.alloc(), source, text, *ac));
    }
}

// Whether the pins of the source are refused at this line.
fn is_refused(alloc: Global, source: &[u8], line: u32, kind: MapKind) -> bool {
    let Some(program) = assembled(alloc, source) else {
        return false;
    };
    pinned(alloc, &program).err() == Some(MapFault::At { line, kind })
}

#[test]
fn pins_are_refused_at_their_line(rt: HostRuntime) {
    for (source, line, kind) in &REFUSALS {
        assert!(rt; is_refused(rt.alloc(), source, *line, *kind), "line {line}");
    }
}

// The placement of these rows and columns.
fn placement_of(alloc: Global, cells: &[(u8, u8)]) -> Option<Placement> {
    let mut placed = Vec::new(alloc);
    for (row, col) in cells {
        placed.push(Cell::new(*row, *col)?).ok()?;
    }
    Some(Placement::new(placed))
}

// Whether these cells of the labels are legal, where each label has one.
fn are_legal(alloc: Global, program: &Program, cells: &[(u8, u8)]) -> Option<bool> {
    let placement = placement_of(alloc, cells)?;
    if placement.as_slice().len() == program.len() as usize {
        Some(legal(program, &placement))
    } else {
        None
    }
}

#[test]
fn cells_are_legal(rt: HostRuntime) -> Result<(), Fail> {
    let program = assembled(rt.alloc(), THREE_GOTOS).ok_or("a program")?;
    for (cells, answer) in &CELLS {
        assert!(rt; are_legal(rt.alloc(), &program, cells) == Some(*answer));
    }
    Ok(())
}
