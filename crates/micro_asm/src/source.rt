//! A source, read line by line.

ghost use Rattle.std.specs.Prelude.{◌≡◌, ◌<◌, ◌^◌, [], length};
ghost use Rattle.micro_lex.specs.Lines.{lines};
ghost use Rattle.field_decl.specs.Results.{Gives, GivesText};
ghost use Rattle.flow_graph.specs.Graph.{graph_of};
ghost use Rattle.micro_asm.specs.Earlier.{facts_of};
ghost use Rattle.micro_asm.specs.Source.{source_of};
ghost use Rattle.micro_asm.specs.SourceSteps.{after_line, after_lines};

use crate::fault::AsmFault;
use crate::source_line_form::source_line_form;
use crate::source_state::SourceState;
use field_decl::{LineFault, fault_at, line_words};
use flow_graph::Program;
use micro_lex::next_line;
use std::alloc::Global;

// Takes one line more of a source.
#[tactic(auto, unfolding(crate::specs::SourceSteps::after_line))]
fn take_line(
    alloc: Global,
    state: &mut SourceState,
    number: u32,
    line: &[u8],
) -> Result<(), LineFault>
    requires { length line.now < 2 ^ 32 }
    ensures { Gives (λ _. state.new) result (after_line state.old number line.now) }
{
    let words = line_words(alloc, line)?;
    let source_line = source_line_form(alloc, &words)?;
    state.take(number, source_line)
}

// Takes all lines of a source.
#[tactic(auto, unfolding(field_decl::specs::LineByLine::lines_taken))]
fn take_lines(alloc: Global, bytes: &[u8]) -> Result<SourceState, AsmFault>
    requires { length bytes.now < 2 ^ 32 }
    ensures { GivesText (λ state. state) result (after_lines (facts_of []) 1 (lines bytes.now)) }
{
    let mut state = SourceState::new(alloc);
    let mut at = 0;
    let mut number = 0u32;
    while let Some(span) = next_line(bytes, at) {
        number += 1;
        match take_line(alloc, &mut state, number, &bytes[span.start..span.end]) {
            Ok(()) => {}
            Err(fault) => return Err(fault_at(number, fault)),
        }
        at = span.after;
    }
    Ok(state)
}

/// Reads a source: the program that it means, or its first refused line.
///
/// A source without instructions or without a start is refused at line 0. Then a label that no
/// instruction has is told at the first line that names it.
pub fn assemble(alloc: Global, bytes: &[u8]) -> Result<Program, AsmFault>
    requires { length bytes.now < 2 ^ 32 }
    ensures { GivesText graph_of result (source_of bytes.now) }
{
    match take_lines(alloc, bytes) {
        Ok(state) => state.finish(alloc),
        Err(fault) => Err(fault),
    }
}
