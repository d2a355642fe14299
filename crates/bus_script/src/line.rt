//! One line of a script, judged after the lines before it.

ghost use Rattle.std.specs.Prelude.{◌≡◌, ◌<◌, ◌≤◌, ◌^◌, length};
ghost use Rattle.field_decl.specs.Results.{Gives};
ghost use Rattle.bus_script.specs.Script.{memory_word_line, memory_line, clock_line, keyword_line, words_said, line_said};
ghost use Rattle.bus_script.specs.ScriptSteps.{with_said};
ghost use Rattle.bus_script.specs.Words.{lexical_fault, words_of};

use crate::clock_line::clock_buses;
use crate::fault::{LineFault, ScriptKind};
use crate::script::Script;
use crate::setting::word_limit;
use field_decl::{Name, Word, words_from};
use micro_lex::{LexFault, tokens};
use std::alloc::Global;

/// The most lines that a script may have.
const LINE_LIMIT: u32 = 65_536;

// The line's refusal for a lexical fault.
fn lexical_fault(fault: LexFault) -> LineFault
    ensures { result ≡ lexical_fault fault }
{
    match fault {
        LexFault::BadByte(column) => LineFault::Kind(ScriptKind::BadByte(column)),
        LexFault::BadNumber(column) => LineFault::Kind(ScriptKind::BadNumber(column)),
        LexFault::NumberTooWide(column) => LineFault::Kind(ScriptKind::NumberTooWide(column)),
        LexFault::NameTooLong(column) => LineFault::Kind(ScriptKind::NameTooLong(column)),
        LexFault::OutOfMemory => LineFault::OutOfMemory,
    }
}

// The words of a line, or its refusal for its first lexical fault.
#[tactic(auto, unfolding(crate::specs::Words::words_of))]
fn line_words(alloc: Global, line: &[u8]) -> Result<Vec<Word>, LineFault>
    requires { length line.now < 2 ^ 32 }
    ensures { Gives (λ words. words.items) result (words_of line.now) }
{
    let tokens = match tokens(alloc, line) {
        Ok(tokens) => tokens,
        Err(fault) => return Err(lexical_fault(fault)),
    };
    match words_from(alloc, line, &tokens) {
        Ok(words) => Ok(words),
        Err(_) => Err(LineFault::OutOfMemory),
    }
}

// Takes a line of `mem` and these words.
fn take_memory(slices: u8, script: &mut Script, words: &[Word]) -> Result<(), LineFault>
    requires { slices ≤ 16 }
    ensures { Gives (λ _. script.new) result (with_said script.old (memory_line slices script.old.memory words.now)) }
{
    match words {
        [Word::Number(address), Word::Number(value)] => take_memory_word(
            slices, script, *address, *value,
        ),
        _ => Err(LineFault::Kind(ScriptKind::Shape)),
    }
}

// Takes a line of `mem`, an address and a value.
fn take_memory_word(
    slices: u8,
    script: &mut Script,
    address: u128,
    value: u128,
) -> Result<(), LineFault>
    requires { slices ≤ 16 }
    ensures { Gives (λ _. script.new) result (with_said script.old (memory_word_line slices script.old.memory address value)) }
{
    if address > 4095 || value >= word_limit(slices) {
        return Err(LineFault::Kind(ScriptKind::Value));
    }
    if script.value_at(address as u16).is_some() {
        return Err(LineFault::Kind(ScriptKind::Twice));
    }
    script.add_memory_word(address as u16, value as u32)?;
    Ok(())
}

// Takes a line of `clk` and these words.
fn take_clock(
    alloc: Global,
    slices: u8,
    script: &mut Script,
    words: &[Word],
) -> Result<(), LineFault>
    requires { slices ≤ 16 }
    ensures { Gives (λ _. script.new) result (with_said script.old (clock_line slices words.now)) }
{
    match clock_buses(alloc, slices, words) {
        Ok(buses) => {
            script.add_clock(buses)?;
            Ok(())
        }
        Err(fault) => Err(fault),
    }
}

// Takes a line of a keyword and these words.
#[tactic(auto, unfolding(crate::specs::Script::keyword_line))]
fn take_keyword(
    alloc: Global,
    slices: u8,
    script: &mut Script,
    keyword: &Name,
    words: &[Word],
) -> Result<(), LineFault>
    requires { slices ≤ 16 }
    ensures { Gives (λ _. script.new) result (with_said script.old (keyword_line slices script.old.memory keyword.now words.now)) }
{
    if keyword.is(b"mem") {
        take_memory(slices, script, words)
    } else if keyword.is(b"clk") {
        take_clock(alloc, slices, script, words)
    } else {
        Err(LineFault::Kind(ScriptKind::Word))
    }
}

// Takes a line of these words.
fn take_words(
    alloc: Global,
    slices: u8,
    script: &mut Script,
    words: &[Word],
) -> Result<(), LineFault>
    requires { slices ≤ 16 }
    ensures { Gives (λ _. script.new) result (with_said script.old (words_said slices script.old.memory words.now)) }
{
    match words {
        [] => Ok(()),
        [Word::Name(keyword), rest @ ..] => take_keyword(alloc, slices, script, keyword, rest),
        _ => Err(LineFault::Kind(ScriptKind::Word)),
    }
}

/// Takes the line of this number. After a refusal nothing is known of the script.
#[tactic(auto, unfolding(crate::specs::Script::line_said))]
pub(crate) fn take_line(
    alloc: Global,
    slices: u8,
    script: &mut Script,
    number: u32,
    line: &[u8],
) -> Result<(), LineFault>
    requires slices { slices ≤ 16 }
    requires small { length line.now < 2 ^ 32 }
    ensures { Gives (λ _. script.new) result (with_said script.old (line_said slices number script.old.memory line.now)) }
{
    if number > LINE_LIMIT {
        return Err(LineFault::Kind(ScriptKind::Lines));
    }
    let words = line_words(alloc, line)?;
    take_words(alloc, slices, script, &words)
}
