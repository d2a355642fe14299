//! The test that every word can be run.
ghost use Rattle.std.specs.Prelude.{◌≡◌, IfNone, IfSome, IsTrue, false};
ghost use Rattle.field_decl.specs.Decls.{declaration_of};
ghost use Rattle.prom_split.specs.Parts.{parts_of};
ghost use Rattle.prom_split.specs.Microword.{HasNoBadShift};
ghost use Rattle.bus_bench.specs.BadShift.{ShiftsMasked, ShiftsUnmasked, IsFirstBadShift};

use crate::word_at::{cell_at, word_at};
use field_decl::Decl;
use mcu_jumps::Cell;
use prom_split::{Words, parts};

// Whether a word orders the right shift with K bits other than 0.
fn shifts_masked(word: u128, decl: &Decl) -> bool
    ensures masked { IsTrue result → ShiftsMasked (parts_of (declaration_of decl.now) word) }
    ensures unmasked { result ≡ false → ShiftsUnmasked (parts_of (declaration_of decl.now) word) }
{
    let parts = parts(word, decl);
    parts.func.is_shift() && parts.kbits != 0
}

/// The first cell, in the order of the addresses, whose word orders the right shift with K bits other than 0,
/// which is not modelled.
pub fn bad_shift(words: &Words, decl: &Decl) -> Option<Cell>
    ensures found { IfSome result (IsFirstBadShift words.now (declaration_of decl.now)) }
    ensures none { IfNone result (HasNoBadShift words.now (declaration_of decl.now)) }
{
    for address in 0..512 {
        let cell = cell_at(address);
        if shifts_masked(word_at(words, cell), decl) {
            return Some(cell);
        }
    }
    None
}
