//! A declaration whose parts fit together.

ghost use Rattle.field_decl.specs.Declaration.{IsDeclaration};

use crate::field::Fields;

/// The chips and the microword that a program is for.
#[derive(Drop)]
pub struct Decl {
    /// 3002 slices side by side, 1 to 16; each is 2 bits wide.
    pub slices: u8,
    /// K bits of the microword, a divisor of twice the slices.
    pub kbus: u8,
    /// The user fields, in the order of their bits from the lowest.
    pub fields: Fields,
    /// Words of a PROM, 512.
    pub prom_words: u16,
    /// Bits of a PROM's word, 4 or 8.
    pub prom_bits: u8,
    /// The place of the field that writes memory, from 0. It is one bit wide.
    pub write: Option<u8>,
    pub ghost valid: { IsDeclaration slices kbus fields prom_words prom_bits write },
}
