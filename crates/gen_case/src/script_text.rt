//! The bus script of a case.

ghost use Rattle.std.specs.Prelude.{◌≡◌, ◌++◌, IfOk, OnOk};
ghost use Rattle.text_pieces.specs.PieceLines.{line_text};
ghost use Rattle.gen_case.specs.ScriptText.{clock_line, script_from};

use crate::draws::Draws;
use std::alloc::{AllocError, Global};
use text_pieces::write_number;

/// How many clocks a script gives.
const CLOCKS: u8 = 64;

// Writes a clock with this word on the I bus.
fn write_clock(text: &mut Vec<u8>, word: u64) -> Result<(), AllocError>
    ensures { OnOk result (text.new.items ≡ text.old.items ++ line_text (clock_line word)) }
{
    text.extend_from_slice(b"clk i=")?;
    write_number(text, word as u128)?;
    text.push(b'\n')?;
    Ok(())
}

/// The script: for each clock a word, with a draw for each.
pub fn script_of(alloc: Global, draws: &mut Draws) -> Result<Vec<u8>, AllocError>
    ensures { IfOk result (λ text. text.items ≡ script_from draws.old.state) }
{
    let mut text = Vec::new(alloc);
    for _clock in 0..CLOCKS {
        write_clock(&mut text, draws.draw(65536))?;
    }
    Ok(text)
}
