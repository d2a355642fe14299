//! The function code and the mask of an operation.

ghost use Rattle.std.specs.Prelude.{◌≡◌, ◌+◌, ◌*◌, ◌≤◌, ◌<◌, IfOk, IfSome, find};
ghost use Rattle.std.specs.Str.{bytes_eq};
ghost use Rattle.cpe_slice.specs.FunctionCode.{IsRegister, HasRegister, selector_of, function_of, group_of};
ghost use Rattle.field_decl.specs.KBits.{IsShared};
ghost use Rattle.micro_asm.specs.Mnemonics.{mnemonic_table};
ghost use Rattle.micro_asm.specs.Operations.{numbered_register, register_named, is_in_group, is_masked_shift, coded_for, all_or_none, mnemonic_code, operation_code, FitsBus};

use crate::mnemonics::find_mnemonic;
use crate::operation::Operation;
use cpe_slice::{Fn7, Reg};
use field_decl::{AsmKind, Name, has_kbits};

// R0 to R9.
fn numbered_register(name: &[u8]) -> Option<Reg>
    ensures register { result ≡ numbered_register name.now }
    ensures ten { IfSome result IsRegister }
{
    match name {
        [letter, digit] => {
            if *letter == b'R' && digit.is_ascii_digit() {
                Some(Reg::R(*digit - b'0'))
            } else {
                None
            }
        }
        _ => None,
    }
}

// The register of a name: R0 to R9, T, AC.
#[tactic(auto, unfolding(crate::specs::Operations::register_named))]
fn register_named(name: &Name) -> Option<Reg>
    ensures register { result ≡ register_named name.now }
    ensures ten { IfSome result IsRegister }
{
    if name.is(b"T") {
        Some(Reg::T)
    } else if name.is(b"AC") {
        Some(Reg::Ac)
    } else {
        numbered_register(name.as_slice())
    }
}

fn is_in_group(group: u8, register: Reg) -> bool
    ensures { result ≡ is_in_group group register }
{
    match register {
        Reg::R(_) => group == 1,
        Reg::T | Reg::Ac => true,
    }
}

// Whether this is the right shift with a mask.
fn is_masked_shift(function: u8, group: u8, mask: u128) -> bool
    ensures { result ≡ is_masked_shift function group mask }
{
    function == 0 && group == 3 && mask != 0
}

// The code of a function of a register that its group has.
fn code_in_group(function: u8, group: u8, register: Reg) -> Fn7
    requires function { function < 8 }
    requires group { (1 ≤ group) × (group ≤ 3) }
    requires register { HasRegister group register }
    ensures code { result ≡ 16 * function + selector_of group register }
    ensures below { result < 128 }
    ensures function { function_of result ≡ function }
    ensures group { group_of result ≡ group }
{
    match Fn7::of(function, group, register) {
        Some(code) => code,
        None => unreachable!(),
    }
}

// A function of a register in a group under a mask: tests the register, the mask's shape, and that the
// right shift has no mask.
fn coded(
    slices: u8,
    kbus: u8,
    function: u8,
    group: u8,
    mask: u128,
    register: &Name,
) -> Result<(Fn7, u32), AsmKind>
    requires shared { IsShared slices kbus }
    requires function { function < 8 }
    requires group { (1 ≤ group) × (group ≤ 3) }
    ensures code { result ≡ coded_for slices kbus function group mask (register_named register.now) }
    ensures fits { IfOk result (FitsBus slices kbus) }
{
    let Some(register) = register_named(register) else {
        return Err(AsmKind::Register);
    };
    if !is_in_group(group, register) {
        return Err(AsmKind::Register);
    }
    if !has_kbits(slices, kbus, mask) {
        return Err(AsmKind::MaskShape);
    }
    if is_masked_shift(function, group, mask) {
        return Err(AsmKind::ShiftMask);
    }
    Ok((code_in_group(function, group, register), mask as u32))
}

// The mask of all ones, or of none.
fn all_or_none(slices: u8, ones: bool) -> u128
    requires { slices ≤ 16 }
    ensures { result ≡ all_or_none slices ones }
{
    if ones {
        (1u128 << (2 * slices as u32)) - 1
    } else {
        0
    }
}

fn mnemonic_code(slices: u8, kbus: u8, name: &Name, register: &Name) -> Result<(Fn7, u32), AsmKind>
    requires { IsShared slices kbus }
    ensures code { result ≡ mnemonic_code slices kbus register.now (find (λ row. bytes_eq name.now row.name) mnemonic_table) }
    ensures fits { IfOk result (FitsBus slices kbus) }
{
    let Some(row) = find_mnemonic(name) else {
        return Err(AsmKind::Mnemonic);
    };
    coded(
        slices,
        kbus,
        row.function,
        row.group,
        all_or_none(slices, row.ones),
        register,
    )
}

/// The function code and the mask of an operation on so many slices, which so many K bits share.
#[tactic(auto, unfolding(crate::specs::Operations::operation_code))]
pub fn operation_code(slices: u8, kbus: u8, operation: &Operation) -> Result<(Fn7, u32), AsmKind>
    requires { IsShared slices kbus }
    ensures code { result ≡ operation_code slices kbus operation.now }
    ensures fits { IfOk result (FitsBus slices kbus) }
{
    match operation {
        Operation::Mnemonic(name, register) => mnemonic_code(slices, kbus, name, register),
        Operation::Code(function, group, register, mask) => {
            if *function > 7 || *group < 1 || *group > 3 {
                return Err(AsmKind::Function);
            }
            coded(slices, kbus, *function as u8, *group as u8, *mask, register)
        }
    }
}
