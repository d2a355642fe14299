//! What a line of a source says, by its form alone.

use crate::written_instruction::WrittenInstr;
use field_decl::{Directive, Name};

/// What a line says. Its numbers and names are not judged yet.
#[derive(Drop)]
pub enum SourceLine {
    /// No word: the line is blank, or a comment alone.
    Nothing,
    /// A directive that layout files have too.
    Declares(Directive),
    /// The row bound.
    Rows(u128),
    /// The label where the flow begins.
    Start(Name),
    /// A label with its row and column.
    Pin(Name, u128, u128),
    /// An instruction.
    Instruct(WrittenInstr),
}
