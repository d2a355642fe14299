//! The layout file, read line by line.

ghost use Rattle.std.specs.Prelude.{◌≡◌, ◌<◌, ◌^◌, [], length};
ghost use Rattle.micro_lex.specs.Lines.{lines};
ghost use Rattle.field_decl.specs.Decls.{declaration_of};
ghost use Rattle.field_decl.specs.Earlier.{declared_by};
ghost use Rattle.field_decl.specs.Layout.{line_form, layout_of};
ghost use Rattle.field_decl.specs.LayoutSteps.{after_line, after_lines};
ghost use Rattle.field_decl.specs.Results.{Gives, GivesText};

use crate::decl::Decl;
use crate::decl_state::DeclState;
use crate::directive::{Directive, directive_form};
use crate::fault::{AsmKind, DeclFault, LineFault};
use crate::refusal::fault_at;
use crate::word::{Word, line_words};
use micro_lex::next_line;
use std::alloc::Global;

// The directive of a line with these words, or None where the line says nothing.
fn line_form(words: &[Word]) -> Result<Option<Directive>, AsmKind>
    ensures { result ≡ line_form words.now }
{
    match words {
        [] => Ok(None),
        [Word::Name(_), Word::Colon, ..] => Err(AsmKind::UnknownDirective),
        [Word::Name(name), rest @ ..] => match directive_form(name, rest) {
            Ok(directive) => Ok(Some(directive)),
            Err(kind) => Err(kind),
        },
        _ => Err(AsmKind::UnknownDirective),
    }
}

// Takes one line more of a layout.
#[tactic(auto, unfolding(crate::specs::LayoutSteps::after_line))]
fn take_line(alloc: Global, state: &mut DeclState, line: &[u8]) -> Result<(), LineFault>
    requires { length line.now < 2 ^ 32 }
    ensures { Gives (λ _. state.new) result (after_line state.old line.now) }
{
    let words = line_words(alloc, line)?;
    match line_form(&words) {
        Ok(Some(directive)) => state.take(directive),
        Ok(None) => Ok(()),
        Err(kind) => Err(LineFault::Kind(kind)),
    }
}

// Takes all lines of a layout.
#[tactic(auto, unfolding(crate::specs::LineByLine::lines_taken))]
fn take_lines(alloc: Global, bytes: &[u8]) -> Result<DeclState, DeclFault>
    requires { length bytes.now < 2 ^ 32 }
    ensures { GivesText (λ state. state) result (after_lines (declared_by []) 1 (lines bytes.now)) }
{
    let mut state = DeclState::new(alloc);
    let mut at = 0;
    let mut number = 0u32;
    while let Some(span) = next_line(bytes, at) {
        number += 1;
        match take_line(alloc, &mut state, &bytes[span.start..span.end]) {
            Ok(()) => {}
            Err(fault) => return Err(fault_at(number, fault)),
        }
        at = span.after;
    }
    Ok(state)
}

/// Reads a layout file: what it declares, or its first refused line.
///
/// Its lines are `slices N`, `kbus B`, `field NAME WIDTH DEFAULT`, `prom 512 4` or `prom 512 8`,
/// `write NAME`, and empty ones. A layout without slices is refused at line 0. The format is this
/// project's own.
pub fn read_decl(alloc: Global, bytes: &[u8]) -> Result<Decl, DeclFault>
    requires { length bytes.now < 2 ^ 32 }
    ensures { GivesText declaration_of result (layout_of bytes.now) }
{
    let state = match take_lines(alloc, bytes) {
        Ok(state) => state,
        Err(fault) => return Err(fault),
    };
    match state.finish() {
        Ok(decl) => Ok(decl),
        Err(kind) => Err(DeclFault::At { line: 0, kind }),
    }
}
