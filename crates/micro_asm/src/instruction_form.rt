//! The form of an instruction: operation, settings, and flow statement with its targets.

ghost use Rattle.std.specs.Prelude.{◌≡◌, [], map, None, Some, IfOk, MatchOption};
ghost use Rattle.std.specs.List.{list_all};
ghost use Rattle.field_decl.specs.Results.{Gives};
ghost use Rattle.micro_asm.specs.SourceLines.{code_form, operation_form, settings_form, IsFirstSetting, is_target, target_of, flow_form, instruction_form};

use crate::operation::Operation;
use crate::setting::{Setting, Settings};
use crate::source_line::SourceLine;
use crate::written_instruction::{TargetNames, WrittenInstr};
use field_decl::{AsmKind, LineFault, Name, Word};
use std::alloc::{AllocError, Global};

// The function code behind `fn` and the number of its function, and the words behind it.
fn code_form(function: u128, words: &[Word]) -> Option<(Operation, &[Word])>
    ensures { MatchOption result (code_form function words.now ≡ None) (λ read. code_form function words.now ≡ Some (read.0, read.1.now)) }
{
    match words {
        [
            Word::Number(group),
            Word::Name(register),
            Word::Number(mask),
            rest @ ..,
        ] => Some((Operation::Code(function, *group, *register, *mask), rest)),
        _ => None,
    }
}

// The operation at the front, and the words behind it.
fn operation_form(words: &[Word]) -> Option<(Operation, &[Word])>
    ensures { MatchOption result (operation_form words.now ≡ None) (λ read. operation_form words.now ≡ Some (read.0, read.1.now)) }
{
    match words {
        [Word::Name(name), Word::Number(function), rest @ ..] => {
            if name.is(b"fn") {
                code_form(*function, rest)
            } else {
                None
            }
        }
        [Word::Name(mnemonic), Word::Name(register), rest @ ..] => Some((
            Operation::Mnemonic(*mnemonic, *register),
            rest,
        )),
        _ => None,
    }
}

// The setting at the front, and the words behind it.
#[tactic(auto, unfolding(crate::specs::SourceLines::settings_form))]
fn setting_form(words: &[Word]) -> Option<(Setting, &[Word])>
    ensures { MatchOption result (settings_form words.now ≡ ([], words.now)) (λ read. IsFirstSetting words.now read.0 read.1.now) }
{
    match words {
        [
            Word::Name(name),
            Word::Equals,
            Word::Number(value),
            rest @ ..,
        ] => Some((Setting::Value(*name, *value), rest)),
        [Word::Name(name), rest @ ..] => Some((Setting::Flag(*name), rest)),
        _ => None,
    }
}

// The settings at the front, and the words behind them.
fn settings_form(alloc: Global, words: &[Word]) -> Result<(Settings, &[Word]), AllocError>
    ensures { IfOk result (λ read. (read.0, read.1.now) ≡ settings_form words.now) }
{
    let mut settings = Vec::new(alloc);
    let mut rest = words;
    while let Some((setting, after)) = setting_form(rest) {
        settings.push(setting)?;
        rest = after;
    }
    Ok((Settings::of(settings), rest))
}

fn is_target(word: &Word) -> bool
    ensures { result ≡ is_target word.now }
{
    match word {
        Word::Name(_) | Word::Minus => true,
        _ => false,
    }
}

fn are_targets(words: &[Word]) -> bool
    ensures { result ≡ list_all is_target words.now }
{
    words.iter().all(is_target)
}

fn target_of(word: &Word) -> Option<Name>
    ensures { result ≡ target_of word.now }
{
    match word {
        Word::Name(label) => Some(*label),
        _ => None,
    }
}

fn targets_of(alloc: Global, words: &[Word]) -> Result<TargetNames, AllocError>
    ensures { IfOk result (λ targets. targets ≡ map target_of words.now) }
{
    let mut targets = Vec::new(alloc);
    for word in words {
        targets.push(target_of(word))?;
    }
    Ok(TargetNames::of(targets))
}

// The flow statement behind the operation and the settings of an instruction.
fn flow_form(
    alloc: Global,
    label: Name,
    operation: Operation,
    settings: Settings,
    words: &[Word],
) -> Result<SourceLine, LineFault>
    ensures { Gives (λ source_line. source_line) result (flow_form label operation settings words.now) }
{
    match words {
        [Word::Bar, Word::Name(flow), targets @ ..] => {
            if !are_targets(targets) {
                return Err(LineFault::Kind(AsmKind::Shape));
            }
            Ok(SourceLine::Instruct(WrittenInstr {
                label,
                operation,
                settings,
                flow: *flow,
                targets: targets_of(alloc, targets)?,
            }))
        }
        _ => Err(LineFault::Kind(AsmKind::Shape)),
    }
}

/// The instruction of a label with these words behind the `:`.
pub fn instruction_form(alloc: Global, label: Name, words: &[Word]) -> Result<SourceLine, LineFault>
    ensures { Gives (λ source_line. source_line) result (instruction_form label words.now) }
{
    let Some((operation, rest)) = operation_form(words) else {
        return Err(LineFault::Kind(AsmKind::Shape));
    };
    let (settings, rest) = settings_form(alloc, rest)?;
    flow_form(alloc, label, operation, settings, rest)
}
