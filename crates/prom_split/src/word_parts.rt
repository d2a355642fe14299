//! The parts of a microword.
ghost use Rattle.std.specs.Prelude.{◌≡◌, ◌+◌, ◌*◌, ◌<◌, ◌≤◌, ◌^◌};
ghost use Rattle.mcu_jumps.specs.JumpWord.{ac_of};
ghost use Rattle.mcu_chip.specs.FlagWord.{fc_of};
ghost use Rattle.field_decl.specs.Decls.{declaration_of};
ghost use Rattle.flow_graph.specs.Microwords.{AreValues};
ghost use Rattle.prom_split.specs.Codes.{jump_at, ctl_at};
ghost use Rattle.prom_split.specs.Parts.{joined, parts_of, width_of};

use crate::field_bits::{joined_values, taken_values};
use crate::low_bits::low_bits;
use cpe_slice::Fn7;
use field_decl::{Decl, FieldValues};
use mcu_chip::FlagCtl;
use mcu_jumps::Jump;

/// What a microword says. Where each part stands is this project's own choice.
#[derive(Drop)]
pub struct WordParts {
    /// The jump: AC6..AC0 in bits 0 to 6.
    pub jump: Jump,
    /// The flag functions: FC3..FC0 in bits 7 to 10.
    pub ctl: FlagCtl,
    /// The function code of the slices: F6..F0 in bits 11 to 17.
    pub func: Fn7,
    /// The K bits, from bit 18 on, K bit 0 lowest.
    pub kbits: u32,
    /// The values of the user fields, above the K bits, in the fields' order.
    pub values: FieldValues,
}

// The jump of an AC value.
fn jump_at(ac: u8) -> Jump
    requires { ac < 128 }
    ensures { result ≡ jump_at ac }
{
    match Jump::decode(ac) {
        Some(jump) => jump,
        None => unreachable!(),
    }
}

// The flag functions of the bits FC3..FC0.
fn ctl_at(fc: u8) -> FlagCtl
    requires { fc < 16 }
    ensures { result ≡ ctl_at fc }
{
    match FlagCtl::decode(fc) {
        Some(ctl) => ctl,
        None => unreachable!(),
    }
}

// The function code of the bits F6..F0.
fn func_at(code: u8) -> Fn7
    requires { code < 128 }
    ensures { result ≡ code }
{
    match Fn7::new(code) {
        Some(func) => func,
        None => unreachable!(),
    }
}

/// The parts of a word. Bits past the width of the declaration's words are not looked at.
#[tactic(auto, unfolding(crate::specs::Parts::parts_of))]
pub fn parts(word: u128, decl: &Decl) -> WordParts
    ensures { result ≡ parts_of (declaration_of decl.now) word }
{
    let kbus = u32::from(decl.kbus);
    WordParts {
        jump: jump_at(low_bits(word, 7) as u8),
        ctl: ctl_at(low_bits(word >> 7, 4) as u8),
        func: func_at(low_bits(word >> 11, 7) as u8),
        kbits: low_bits(word >> 18, kbus) as u32,
        values: taken_values(decl.fields.as_slice(), word >> (18 + kbus)),
    }
}

/// The bits that every declaration's words have: jump, flag functions and function.
pub(crate) fn common_bits(jump: Jump, ctl: FlagCtl, func: Fn7) -> u32
    ensures bits { result ≡ ac_of jump + 2 ^ 7 * fc_of ctl + 2 ^ 11 * func }
    ensures below { result < 2 ^ 18 }
{
    u32::from(jump.encode()) + (u32::from(ctl.encode()) << 7) + (u32::from(func.code()) << 11)
}

/// The word of these common bits, K bits and values of the user fields.
pub(crate) fn word_from(decl: &Decl, common: u32, kbits: u32, values: &[u32]) -> u128
    requires common { common < 2 ^ 18 }
    requires kbits { kbits < 2 ^ decl.now.kbus }
    requires values { AreValues decl.now.fields values.now }
    ensures word { result ≡ common + 2 ^ 18 * kbits + 2 ^ (18 + decl.now.kbus) * joined decl.now.fields values.now }
    ensures below { result < 2 ^ width_of (declaration_of decl.now) }
{
    let fields = joined_values(decl.fields.as_slice(), values);
    let above = (fields << decl.kbus) + u128::from(kbits);
    (above << 18) + u128::from(common)
}
