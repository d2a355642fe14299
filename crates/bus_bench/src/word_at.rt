//! The word at a cell, and the cell of an address.
ghost use Rattle.std.specs.Prelude.{◌≡◌, ◌/◌, ◌%◌, ◌<◌};
ghost use Rattle.prom_split.specs.Microword.{word_at};

use mcu_jumps::Cell;
use prom_split::Words;

/// The word at a cell.
pub(crate) fn word_at(words: &Words, cell: Cell) -> u128
    ensures { result ≡ word_at words.now cell }
{
    words.as_slice()[cell.address() as usize]
}

/// The cell of an address.
pub(crate) fn cell_at(address: u16) -> Cell
    requires { address < 512 }
    ensures { result ≡ record { row = address / 16; col = address % 16 } }
{
    Cell::at((address / 16) as u8, (address % 16) as u8)
}
