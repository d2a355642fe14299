//! Why a script is refused.

use field_decl::{LineRefusal, Refusal};

/// Why a line of a script is refused.
///
/// The first four are faults of the line's tokens, with the column from 1.
#[derive(Clone, Copy, Debug, PartialEq, Eq)]
pub enum ScriptKind {
    /// A byte outside comments that no token has.
    BadByte(u32),
    /// A run that begins with a digit and is no number.
    BadNumber(u32),
    /// A number of 2^128 or more.
    NumberTooWide(u32),
    /// A name of more than 32 bytes.
    NameTooLong(u32),
    /// A line beyond the 65,536 that a script may have.
    Lines,
    /// The first word is neither `clk` nor `mem`.
    Word,
    /// The words are not of the line's form.
    Shape,
    /// An address above 4095, or a value that the bus or the word does not hold.
    Value,
    /// An address of an earlier line, or a key given before in the line.
    Twice,
    /// A key other than `m`, `i`, `px` and `sx`.
    Key,
}

/// Why one line of a script is not taken.
pub(crate) type LineFault = LineRefusal<ScriptKind>;

/// Why a text gives no script.
pub type ScriptFault = Refusal<ScriptKind>;
