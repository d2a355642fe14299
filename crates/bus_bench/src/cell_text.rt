//! A cell as a trace shows it.
ghost use Rattle.std.specs.Prelude.{◌≡◌, ◌+◌, ◌≤◌, ◌++◌, length};
ghost use Rattle.place_model.specs.MapText.{cell_text};

use arrayvec::ArrayVec;
use itoa::Buffer;
use mcu_jumps::Cell;

/// The most bytes that are kept of a cell's text.
pub(crate) const CELL_BYTES: usize = 8;

fn add_text(out: &mut ArrayVec<u8, CELL_BYTES>, text: &[u8])
    requires { length out.old.items + length text.now ≤ 8 }
    ensures { out.new.items ≡ out.old.items ++ text.now }
{
    out.try_extend_from_slice(text).unwrap();
}

/// `row.column` in decimal.
pub(crate) fn cell_text(cell: Cell) -> ArrayVec<u8, CELL_BYTES>
    ensures text { result.items ≡ cell_text cell }
    ensures short { length result.items ≤ 8 }
{
    let mut text = ArrayVec::new();
    let mut number = Buffer::new();
    add_text(&mut text, number.format(cell.row()).as_bytes());
    add_text(&mut text, b".");
    add_text(&mut text, number.format(cell.col()).as_bytes());
    text
}
