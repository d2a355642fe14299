//! How refusals of lines are called in texts.
ghost use Rattle.std.specs.Prelude.{◌≡◌, IfOk};
ghost use Rattle.replies.specs.KindTexts.{asm_text, script_text, in_column};
ghost use Rattle.replies.specs.Texts.{Refuses, line_reason};
ghost use Rattle.replies.specs.SourceStep.{RefusesLine};
ghost use Rattle.replies.specs.Ending.{StopsBy};

use crate::reply::{Stop, refuse_line};
use bus_script::ScriptKind;
use field_decl::AsmKind;
use io_base::OutOfMemory;
use itoa::Buffer;
use std::alloc::Global;

// A fault of a token, in a column.
fn in_column(alloc: Global, kind: &[u8], col: u32) -> Result<Vec<u8>, OutOfMemory>
    ensures { IfOk result (λ text. text.items ≡ in_column kind.now col) }
{
    let mut text = Vec::from_slice(alloc, kind)?;
    text.extend_from_slice(b" col ")?;
    text.extend_from_slice(Buffer::new().format(col).as_bytes())?;
    Ok(text)
}

// Why a line of a source or of a layout is refused.
fn asm_text(alloc: Global, kind: AsmKind) -> Result<Vec<u8>, OutOfMemory>
    ensures { IfOk result (λ text. text.items ≡ asm_text kind) }
{
    let name: &'static [u8] = match kind {
        AsmKind::BadByte(col) => return in_column(alloc, b"BadByte", col),
        AsmKind::BadNumber(col) => return in_column(alloc, b"BadNumber", col),
        AsmKind::NumberTooWide(col) => return in_column(alloc, b"NumberTooWide", col),
        AsmKind::NameTooLong(col) => return in_column(alloc, b"NameTooLong", col),
        AsmKind::UnknownDirective => b"UnknownDirective",
        AsmKind::Shape => b"Shape",
        AsmKind::Late => b"Late",
        AsmKind::Slices => b"Slices",
        AsmKind::KBus => b"KBus",
        AsmKind::WordTooWide => b"WordTooWide",
        AsmKind::FieldTwice => b"FieldTwice",
        AsmKind::FieldWidth => b"FieldWidth",
        AsmKind::DefaultTooWide => b"DefaultTooWide",
        AsmKind::Prom => b"Prom",
        AsmKind::WriteField => b"WriteField",
        AsmKind::Rows => b"Rows",
        AsmKind::StartTwice => b"StartTwice",
        AsmKind::PinRange => b"PinRange",
        AsmKind::PinTwice => b"PinTwice",
        AsmKind::LabelTwice => b"LabelTwice",
        AsmKind::TooMany => b"TooMany",
        AsmKind::Function => b"Function",
        AsmKind::Mnemonic => b"Mnemonic",
        AsmKind::Register => b"Register",
        AsmKind::MaskShape => b"MaskShape",
        AsmKind::ShiftMask => b"ShiftMask",
        AsmKind::FlagName => b"FlagName",
        AsmKind::SettingTwice => b"SettingTwice",
        AsmKind::UnknownField => b"UnknownField",
        AsmKind::FieldValue => b"FieldValue",
        AsmKind::UnknownFlow => b"UnknownFlow",
        AsmKind::TargetCount => b"TargetCount",
        AsmKind::NoTarget => b"NoTarget",
        AsmKind::Empty => b"Empty",
        AsmKind::NoStart => b"NoStart",
        AsmKind::UnknownLabel => b"UnknownLabel",
    };
    let text = Vec::from_slice(alloc, name)?;
    Ok(text)
}

// Why a line of a script is refused.
fn script_text(alloc: Global, kind: ScriptKind) -> Result<Vec<u8>, OutOfMemory>
    ensures { IfOk result (λ text. text.items ≡ script_text kind) }
{
    let name: &'static [u8] = match kind {
        ScriptKind::BadByte(col) => return in_column(alloc, b"BadByte", col),
        ScriptKind::BadNumber(col) => return in_column(alloc, b"BadNumber", col),
        ScriptKind::NumberTooWide(col) => return in_column(alloc, b"NumberTooWide", col),
        ScriptKind::NameTooLong(col) => return in_column(alloc, b"NameTooLong", col),
        ScriptKind::Lines => b"Lines",
        ScriptKind::Word => b"Word",
        ScriptKind::Shape => b"Shape",
        ScriptKind::Value => b"Value",
        ScriptKind::Twice => b"Twice",
        ScriptKind::Key => b"Key",
    };
    let text = Vec::from_slice(alloc, name)?;
    Ok(text)
}

/// Refuses a source or a layout for what is wrong in a line.
pub fn refuse_asm(alloc: Global, name: &str, line: u32, kind: AsmKind) -> Stop
    ensures { StopsBy (RefusesLine name.now line kind) result }
{
    match asm_text(alloc, kind) {
        Ok(kind) => refuse_line(alloc, name, line, &kind),
        Err(OutOfMemory) => Stop::OutOfMemory,
    }
}

/// Refuses a script for what is wrong in a line.
pub fn refuse_script(alloc: Global, name: &str, line: u32, kind: ScriptKind) -> Stop
    ensures { StopsBy (Refuses name.now (line_reason line (script_text kind))) result }
{
    match script_text(alloc, kind) {
        Ok(kind) => refuse_line(alloc, name, line, &kind),
        Err(OutOfMemory) => Stop::OutOfMemory,
    }
}
