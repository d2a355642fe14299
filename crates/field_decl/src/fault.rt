//! Why a source or a layout is refused.

use crate::refusal::{LineRefusal, Refusal};

/// Why a line of a source is refused. A layout has the lines of a source that declare, so the kinds of
/// both stand here, below the assembler.
///
/// The first four are faults of the line's tokens, with the column from 1.
#[derive(Clone, Copy, Debug, PartialEq, Eq)]
pub enum AsmKind {
    /// A byte outside comments that no token has.
    BadByte(u32),
    /// A run that begins with a digit and is no number.
    BadNumber(u32),
    /// A number of 2^128 or more.
    NumberTooWide(u32),
    /// A name of more than 32 bytes.
    NameTooLong(u32),
    /// The first word names no directive; in a layout also a first word with `:` after it.
    UnknownDirective,
    /// The words are not of the form of the directive, or of an instruction.
    Shape,
    /// A declaration after an instruction.
    Late,
    /// Slices given twice, not 1 to 16, or missing.
    Slices,
    /// A K bus given twice, of no bits, or that the slices' bits cannot share.
    KBus,
    /// A microword of more than 96 bits.
    WordTooWide,
    /// A field of a name that a field has.
    FieldTwice,
    /// A field of no bits, or of more than 32.
    FieldWidth,
    /// A default that the field does not hold.
    DefaultTooWide,
    /// PROMs given twice, or not of 512 words of 4 or 8 bits.
    Prom,
    /// A write field given twice, or that is no field of one bit declared above.
    WriteField,
    /// A row bound given twice, or not 1 to 32.
    Rows,
    /// A start given twice.
    StartTwice,
    /// A pin outside the matrix.
    PinRange,
    /// A label pinned twice.
    PinTwice,
    /// A label that an instruction has.
    LabelTwice,
    /// More than 128 instructions.
    TooMany,
    /// A function above 7, or a register group that is not 1 to 3, behind `fn`.
    Function,
    /// No mnemonic of the table.
    Mnemonic,
    /// A register that the group does not have.
    Register,
    /// A mask that the K bits cannot give.
    MaskShape,
    /// A right shift with a mask other than 0.
    ShiftMask,
    /// No flag function.
    FlagName,
    /// A setting given twice.
    SettingTwice,
    /// A setting of a field that is not declared.
    UnknownField,
    /// A value that the field does not hold.
    FieldValue,
    /// No flow statement.
    UnknownFlow,
    /// Not as many targets as the statement has outcomes.
    TargetCount,
    /// No target that is a label.
    NoTarget,
    /// A source without instructions.
    Empty,
    /// A source without a start.
    NoStart,
    /// A label that no instruction has.
    UnknownLabel,
}

/// Why one line of a layout or of a source is not taken.
pub type LineFault = LineRefusal<AsmKind>;

/// Why a layout gives no declaration.
pub type DeclFault = Refusal<AsmKind>;
