//! The lines of the source that depend on a label.

ghost use Rattle.std.specs.Prelude.{◌≡◌, ◌<◌, ◌++◌, OnOk};
ghost use Rattle.text_pieces.specs.Pieces.{pieces_text};
ghost use Rattle.text_pieces.specs.PieceLines.{line_text};
ghost use Rattle.gen_case.specs.Choices.{IsFlow, IsChoice};
ghost use Rattle.gen_case.specs.Labels.{label_name, targets_of};
ghost use Rattle.gen_case.specs.SourceText.{mnemonic_of, operand_of, flag_of, flag_pieces, target_pieces};
ghost use Rattle.gen_case.specs.SourceText.{statement_of, instruction_line, pin_line};

use crate::choices::{Choice, Flow, Operation};
use std::alloc::AllocError;
use text_pieces::write_number;

/// Writes the name of a label: L and its number.
pub fn write_label(text: &mut Vec<u8>, label: u8) -> Result<(), AllocError>
    ensures { OnOk result (text.new.items ≡ text.old.items ++ label_name label) }
{
    text.push(b'L')?;
    write_number(text, label as u128)
}

/// Writes the line that pins a label to its cell.
pub fn write_pin(text: &mut Vec<u8>, label: u8) -> Result<(), AllocError>
    ensures { OnOk result (text.new.items ≡ text.old.items ++ line_text (pin_line label)) }
{
    text.extend_from_slice(b"pin ")?;
    write_label(text, label)?;
    text.push(b' ')?;
    write_number(text, (label / 16) as u128)?;
    text.push(b' ')?;
    write_number(text, (label % 16) as u128)?;
    text.push(b'\n')?;
    Ok(())
}

fn mnemonic_of(operation: Operation) -> &'static [u8]
    ensures { result.now ≡ mnemonic_of operation }
{
    match operation {
        Operation::Ilr => b"ILR",
        Operation::Alr => b"ALR",
        Operation::Inr => b"INR",
        Operation::Adr => b"ADR",
        Operation::Ldi => b"LDI",
        Operation::Xnr => b"XNR",
        Operation::Sra => b"SRA",
        Operation::Lmi => b"LMI",
    }
}

// Writes the register of an operation.
fn write_operand(text: &mut Vec<u8>, operation: Operation, register: u8) -> Result<(), AllocError>
    ensures { OnOk result (text.new.items ≡ text.old.items ++ operand_of operation register) }
{
    match operation {
        Operation::Ldi | Operation::Sra => text.extend_from_slice(b"AC"),
        _ => {
            text.push(b'R')?;
            write_number(text, register as u128)
        }
    }
}

// The flag function of an operation with a space before it, or nothing.
fn flag_of(operation: Operation) -> &'static [u8]
    ensures { result.now ≡ pieces_text (flag_pieces (flag_of operation)) }
{
    match operation {
        Operation::Ilr => b"",
        Operation::Alr => b"",
        Operation::Inr => b" FF1",
        Operation::Adr => b" STC",
        Operation::Ldi => b" FF1",
        Operation::Xnr => b" STZ",
        Operation::Sra => b" FFC",
        Operation::Lmi => b" FFZ",
    }
}

// Writes a flow statement and its targets.
fn write_flow(text: &mut Vec<u8>, label: u8, flow: Flow) -> Result<(), AllocError>
    requires label { label < 128 }
    requires flow { IsFlow flow }
    ensures { OnOk result (text.new.items ≡
        text.old.items ++ (statement_of flow ++ pieces_text (target_pieces (targets_of label flow)))) }
{
    match flow {
        Flow::SameRow(col) => {
            text.extend_from_slice(b"goto ")?;
            write_label(text, 16 * (label / 16) + col)
        }
        Flow::SameColumn(row) => {
            text.extend_from_slice(b"goto ")?;
            write_label(text, 16 * row + label % 16)
        }
        Flow::OnFlag(row) => {
            let half = 16 * row + 8 * (label / 8 % 2);
            text.extend_from_slice(b"iff ")?;
            write_label(text, half + 2)?;
            text.push(b' ')?;
            write_label(text, half + 3)
        }
    }
}

/// Writes the instruction of a label: its operation, its field and its flow statement.
pub fn write_instruction(text: &mut Vec<u8>, label: u8, choice: &Choice) -> Result<(), AllocError>
    requires label { label < 128 }
    requires choice { IsChoice choice.now }
    ensures { OnOk result (text.new.items ≡ text.old.items ++ line_text (instruction_line label choice.now)) }
{
    write_label(text, label)?;
    text.extend_from_slice(b": ")?;
    text.extend_from_slice(mnemonic_of(choice.operation))?;
    text.push(b' ')?;
    write_operand(text, choice.operation, choice.register)?;
    text.extend_from_slice(flag_of(choice.operation))?;
    text.extend_from_slice(b" u=")?;
    write_number(text, choice.value as u128)?;
    text.extend_from_slice(b" | ")?;
    write_flow(text, label, choice.flow)?;
    text.push(b'\n')?;
    Ok(())
}
