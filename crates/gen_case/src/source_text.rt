//! The source of a case.

ghost use Rattle.std.specs.Prelude.{◌≡◌, ◌++◌, IfOk, OnOk, map};
ghost use Rattle.text_pieces.specs.PieceLines.{lines_text};
ghost use Rattle.gen_case.specs.Draws.{state_after};
ghost use Rattle.gen_case.specs.Labels.{labels, pinned_labels};
ghost use Rattle.gen_case.specs.SourceText.{header_lines, pin_line, case_line, source_text};

use crate::choices::choose;
use crate::draws::Draws;
use crate::instruction_text::{write_instruction, write_pin};
use std::alloc::{AllocError, Global};

/// How many labels a case has.
const LABELS: u8 = 128;

// Writes the declarations.
fn write_header(text: &mut Vec<u8>) -> Result<(), AllocError>
    ensures { OnOk result (text.new.items ≡ text.old.items ++ lines_text header_lines) }
{
    text.extend_from_slice(b"slices 8\nkbus 2\nfield u 4 0\nstart L0\n")
}

// Writes a pin for each label whose number is not 7 in its row's half.
fn write_pins(text: &mut Vec<u8>) -> Result<(), AllocError>
    ensures { OnOk result (text.new.items ≡ text.old.items ++ lines_text (map pin_line pinned_labels)) }
{
    for label in 0..LABELS {
        if label % 8 != 7 {
            write_pin(text, label)?;
        }
    }
    Ok(())
}

// Writes an instruction for each label, with five draws for each.
fn write_instructions(text: &mut Vec<u8>, draws: &mut Draws) -> Result<(), AllocError>
    ensures text { OnOk result
        (text.new.items ≡ text.old.items ++ lines_text (map (case_line draws.old.state) labels)) }
    ensures state { OnOk result (draws.new.state ≡ state_after draws.old.state 640) }
{
    for label in 0..LABELS {
        let choice = choose(draws);
        write_instruction(text, label, &choice)?;
    }
    Ok(())
}

/// The source, with the draws that it takes.
pub fn source_of(alloc: Global, draws: &mut Draws) -> Result<Vec<u8>, AllocError>
    ensures text { IfOk result (λ text. text.items ≡ source_text draws.old.state) }
    ensures state { OnOk result (draws.new.state ≡ state_after draws.old.state 640) }
{
    let mut text = Vec::new(alloc);
    write_header(&mut text)?;
    write_pins(&mut text)?;
    write_instructions(&mut text, draws)?;
    Ok(text)
}
