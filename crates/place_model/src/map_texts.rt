//! The map text: a line for each label, with its cell and its jump.
ghost use Rattle.std.specs.Prelude.{◌≡◌, ◌<◌, ◌++◌, IfOk, OnOk};
ghost use Rattle.flow_graph.specs.Graph.{graph_of};
ghost use Rattle.place_model.specs.Legal.{IsLegal};
ghost use Rattle.place_model.specs.MapText.{IsMapText, cell_text, hex_digit, jump_text, map_line};

use crate::{Placement, jump_of};
use flow_graph::Program;
use io_base::OutOfMemory;
use itoa::Buffer;
use mcu_jumps::{Cell, Jump};
use std::alloc::{AllocError, Global};

// A hexadecimal digit in lower case.
fn hex_digit(value: u8) -> u8
    requires { value < 16 }
    ensures { result ≡ hex_digit value }
{
    if value < 10 {
        b'0' + value
    } else {
        b'a' + (value - 10)
    }
}

// Adds the row and the column of a cell.
fn add_cell(out: &mut Vec<u8>, cell: Cell) -> Result<(), AllocError>
    ensures { OnOk result (out.new.items ≡ out.old.items ++ cell_text cell) }
{
    let mut number = Buffer::new();
    out.extend_from_slice(number.format(cell.row()).as_bytes())?;
    out.extend_from_slice(b".")?;
    out.extend_from_slice(number.format(cell.col()).as_bytes())
}

// Adds the AC value of a jump, and its code and operand.
fn add_jump(out: &mut Vec<u8>, jump: Jump) -> Result<(), AllocError>
    ensures { OnOk result (out.new.items ≡ out.old.items ++ jump_text jump) }
{
    let ac = jump.encode();
    out.extend_from_slice(&[hex_digit(ac / 16), hex_digit(ac % 16)])?;
    out.extend_from_slice(b" ")?;
    out.extend_from_slice(jump.code().name().as_bytes())?;
    out.extend_from_slice(b" ")?;
    out.extend_from_slice(Buffer::new().format(jump.operand()).as_bytes())
}

// Adds the line of a label.
fn add_line(out: &mut Vec<u8>, name: &[u8], cell: Cell, jump: Jump) -> Result<(), AllocError>
    ensures { OnOk result (out.new.items ≡ out.old.items ++ map_line name.now cell jump) }
{
    out.extend_from_slice(name)?;
    out.extend_from_slice(b" ")?;
    add_cell(out, cell)?;
    out.extend_from_slice(b" ")?;
    add_jump(out, jump)?;
    out.extend_from_slice(b"\n")
}

/// The map text of a legal placement: for each label, in source order, its name, its row and column in
/// decimal, the AC value of its jump as two hexadecimal digits, the jump code's name and the operand in
/// decimal. The format is this project's own.
pub fn map_text(
    alloc: Global,
    program: &Program,
    placement: &Placement,
) -> Result<Vec<u8>, OutOfMemory>
    requires { IsLegal (graph_of program.now) placement.now }
    ensures { IfOk result (λ text. IsMapText (graph_of program.now) placement.now text.items) }
{
    let mut text = Vec::new(alloc);
    for label in 0..program.len() {
        let name = program.instr(label).name.as_slice();
        let cell = placement.cell(label);
        let jump = jump_of(program, placement, label);
        add_line(&mut text, name, cell, jump).map_err(|_| OutOfMemory)?;
    }
    Ok(text)
}
