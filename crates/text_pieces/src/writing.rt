//! Writes the pieces that are numbers.

ghost use Rattle.std.specs.Prelude.{◌≡◌, ◌++◌, OnOk};
ghost use Rattle.text_pieces.specs.Pieces as pieces;

use itoa::Buffer;
use std::alloc::AllocError;

/// Writes a decimal number at the end of a text. After a refusal of memory nothing is known of the text.
pub fn write_number(text: &mut Vec<u8>, number: u128) -> Result<(), AllocError>
    ensures { OnOk result (text.new.items ≡ text.old.items ++ pieces.piece_text (pieces.Number number)) }
{
    let mut buffer = Buffer::new();
    text.extend_from_slice(buffer.format(number).as_bytes())?;
    Ok(())
}
