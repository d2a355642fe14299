//! The microwords of a program at the cells of a placement.
ghost use Rattle.std.specs.Prelude.{◌≡◌, ◌<◌, ◌≤◌, ◌^◌, IfOk, IfNone, IfSome, IsTrue, None, Some, length, slice_get};
ghost use Rattle.field_decl.specs.Decls.{declaration_of};
ghost use Rattle.field_decl.specs.KBits.{gathered_bits, has_kbits};
ghost use Rattle.flow_graph.specs.Graph.{graph_of};
ghost use Rattle.flow_graph.specs.Microwords.{FitsDeclaration};
ghost use Rattle.place_model.specs.Cells.{IsAt};
ghost use Rattle.place_model.specs.Legal.{IsLegal};
ghost use Rattle.prom_split.specs.Images.{FitWords};
ghost use Rattle.prom_split.specs.Microword.{AreWords, IsWordOf, free_jump, free_word, share_in, word_with};
ghost use Rattle.prom_split.specs.Parts.{width_of};

use crate::Words;
use crate::field_bits::defaults_of;
use crate::word_parts::{common_bits, word_from};
use cpe_slice::{Fn7, Reg};
use field_decl::{Decl, gather, kbits_give_masks};
use flow_graph::{Instr, Program};
use io_base::OutOfMemory;
use mcu_chip::{FlagCtl, FlagIn, FlagOut};
use mcu_jumps::{Cell, Jump};
use place_model::{Placement, jump_of};
use std::alloc::Global;

// The label that is placed at a cell.
fn label_at(placement: &Placement, cell: Cell) -> Option<u16>
    requires { length placement.now ≤ 512 }
    ensures some { IfSome result (λ label. slice_get placement.now label ≡ Some cell) }
    ensures none { IfNone result (IsAt placement.now None cell) }
{
    for label in 0..placement.as_slice().len() as u16 {
        if placement.cell(label) == cell {
            return Some(label);
        }
    }
    None
}

// The K bits that give an instruction's mask.
fn kbits_of(decl: &Decl, mask: u32) -> u32
    requires { IsTrue (has_kbits decl.now.slices decl.now.kbus mask) }
    ensures kbits { result ≡ gathered_bits (share_in (declaration_of decl.now)) decl.now.kbus mask }
    ensures few { result < 2 ^ decl.now.kbus }
{
    kbits_give_masks();
    match gather(decl, u128::from(mask)) {
        Some(kbits) => kbits,
        None => unreachable!(),
    }
}

// The word of an instruction that becomes this jump.
#[tactic(auto, unfolding(crate::specs::Parts::word_by))]
fn instr_word(decl: &Decl, instr: &Instr, jump: Jump) -> u128
    requires { FitsDeclaration (declaration_of decl.now) instr.now }
    ensures word { result ≡ word_with (declaration_of decl.now) (Some instr.now) jump }
    ensures below { result < 2 ^ width_of (declaration_of decl.now) }
{
    let common = common_bits(jump, instr.ctl, instr.func);
    let kbits = kbits_of(decl, instr.mask);
    word_from(decl, common, kbits, instr.values.as_slice())
}

// JCC to the cell's own row.
fn free_jump(cell: Cell) -> Jump
    ensures { result ≡ free_jump cell }
{
    match Jump::decode(cell.row()) {
        Some(jump) => jump,
        None => unreachable!(),
    }
}

// Function 6 of group 1 on R0.
fn free_function() -> Fn7
    ensures { result ≡ 0x60 }
{
    match Fn7::of(6, 1, Reg::R(0)) {
        Some(func) => func,
        None => unreachable!(),
    }
}

// The word of a free cell.
#[tactic(auto, using(crate::proofs::WordSum::gathered_zero), unfolding(crate::specs::Parts::word_by))]
fn free_word(decl: &Decl, cell: Cell) -> u128
    ensures word { result ≡ free_word (declaration_of decl.now) cell }
    ensures below { result < 2 ^ width_of (declaration_of decl.now) }
{
    let ctl = FlagCtl {
        input: FlagIn::Hcz,
        output: FlagOut::Ff0,
    };
    let common = common_bits(free_jump(cell), ctl, free_function());
    word_from(
        decl,
        common,
        0,
        defaults_of(decl.fields.as_slice()).as_slice(),
    )
}

/// The microword of a cell: at a label's cell that of its instruction, with the jump that the
/// instruction becomes there; at every other cell that of a free cell.
pub fn word_of(program: &Program, placement: &Placement, cell: Cell) -> u128
    requires { IsLegal (graph_of program.now) placement.now }
    ensures word { IsWordOf (graph_of program.now) placement.now cell result }
    ensures fits { result < 2 ^ width_of (graph_of program.now).decl }
{
    match label_at(placement, cell) {
        Some(label) => instr_word(
            program.decl(),
            program.instr(label),
            jump_of(program, placement, label),
        ),
        None => free_word(program.decl(), cell),
    }
}

/// The microwords of all cells, in the order of their addresses. It fails only for want of memory.
pub fn words_of(
    alloc: Global,
    program: &Program,
    placement: &Placement,
) -> Result<Words, OutOfMemory>
    requires { IsLegal (graph_of program.now) placement.now }
    ensures words { IfOk result (AreWords (graph_of program.now) placement.now) }
    ensures fit { IfOk result (FitWords (graph_of program.now).decl) }
{
    let mut words = Vec::new(alloc);
    for address in 0..512u16 {
        let cell = Cell::at((address / 16) as u8, (address % 16) as u8);
        words.push(word_of(program, placement, cell))?;
    }
    Ok(Words::of(words))
}
