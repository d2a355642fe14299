//! The size of a microword, and of the PROMs that hold it.

ghost use Rattle.std.specs.Prelude.{◌≡◌};
ghost use Rattle.field_decl.specs.Decls.{proms_for};
ghost use Rattle.field_decl.specs.Fields.{word_bits};

use crate::decl::Decl;
use crate::field::widths;

/// The bits of a microword, 19 to 96: 18 for jump (7), flags (4) and function (7), then the K bits and the fields.
pub fn word_width(decl: &Decl) -> u32
    ensures { result ≡ word_bits decl.now.kbus decl.now.fields }
{
    18 + decl.kbus as u32 + widths(decl.fields.as_slice())
}

/// How many PROMs stand side by side to hold a microword, 3 to 24.
pub fn prom_count(decl: &Decl) -> u32
    ensures { result ≡ proms_for (word_bits decl.now.kbus decl.now.fields) decl.now.prom_bits }
{
    let bits = decl.prom_bits as u32;
    (word_width(decl) + bits - 1) / bits
}
