//! The forms of the lines of a source.

ghost use Rattle.std.specs.Prelude.{◌≡◌};
ghost use Rattle.field_decl.specs.Results.{Gives, GivesKind};
ghost use Rattle.micro_asm.specs.SourceLines.{rows_form, start_form, pin_form, named_form, source_line_form};

use crate::instruction_form::instruction_form;
use crate::source_line::SourceLine;
use field_decl::{AsmKind, LineFault, Name, Word, directive_form};
use std::alloc::Global;

fn rows_form(words: &[Word]) -> Result<SourceLine, AsmKind>
    ensures { GivesKind (λ source_line. source_line) result (rows_form words.now) }
{
    match words {
        [Word::Number(rows)] => Ok(SourceLine::Rows(*rows)),
        _ => Err(AsmKind::Shape),
    }
}

fn start_form(words: &[Word]) -> Result<SourceLine, AsmKind>
    ensures { GivesKind (λ source_line. source_line) result (start_form words.now) }
{
    match words {
        [Word::Name(label)] => Ok(SourceLine::Start(*label)),
        _ => Err(AsmKind::Shape),
    }
}

fn pin_form(words: &[Word]) -> Result<SourceLine, AsmKind>
    ensures { GivesKind (λ source_line. source_line) result (pin_form words.now) }
{
    match words {
        [Word::Name(label), Word::Number(row), Word::Number(col)] => Ok(SourceLine::Pin(
            *label, *row, *col,
        )),
        _ => Err(AsmKind::Shape),
    }
}

// The line that begins with this name and no `:`.
#[tactic(auto, unfolding(crate::specs::SourceLines::named_form))]
fn named_form(name: &Name, words: &[Word]) -> Result<SourceLine, AsmKind>
    ensures { GivesKind (λ source_line. source_line) result (named_form name.now words.now) }
{
    if name.is(b"rows") {
        rows_form(words)
    } else if name.is(b"start") {
        start_form(words)
    } else if name.is(b"pin") {
        pin_form(words)
    } else {
        match directive_form(name, words) {
            Ok(directive) => Ok(SourceLine::Declares(directive)),
            Err(kind) => Err(kind),
        }
    }
}

/// What a line of these words says.
pub fn source_line_form(alloc: Global, words: &[Word]) -> Result<SourceLine, LineFault>
    ensures { Gives (λ source_line. source_line) result (source_line_form words.now) }
{
    match words {
        [] => Ok(SourceLine::Nothing),
        [Word::Name(label), Word::Colon, rest @ ..] => instruction_form(alloc, *label, rest),
        [Word::Name(name), rest @ ..] => match named_form(name, rest) {
            Ok(source_line) => Ok(source_line),
            Err(kind) => Err(LineFault::Kind(kind)),
        },
        _ => Err(LineFault::Kind(AsmKind::UnknownDirective)),
    }
}
