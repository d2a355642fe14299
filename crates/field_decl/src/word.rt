//! The words of a line: its tokens with the text of each name.

ghost use Rattle.std.specs.Prelude.{◌≡◌, ◌<◌, ◌^◌, length, map, All, IfOk, IfErr};
ghost use Rattle.micro_lex.specs.Names.{IsTokenOf};
ghost use Rattle.field_decl.specs.declared.refusal.LineRefusal.TheVariants as faults;
ghost use Rattle.field_decl.specs.Results.{Gives};
ghost use Rattle.field_decl.specs.Words.{word_from, lexical_fault, words_of};

use crate::fault::{AsmKind, LineFault};
use crate::name::Name;
use micro_lex::{LexFault, Token, TokenKind, tokens};
use std::alloc::Global;

/// A token as the forms of lines see it.
#[derive(Clone, Copy)]
pub enum Word {
    /// A name, with its text.
    Name(Name),
    /// A number, below 2^128.
    Number(u128),
    /// `:`
    Colon,
    /// `|`
    Bar,
    /// `=`
    Equals,
    /// `-`, which stands for the trap.
    Minus,
}

fn word_from(line: &[u8], token: &Token) -> Word
    requires { IsTokenOf line.now token.now }
    ensures { result ≡ word_from line.now token.now }
{
    match token.kind {
        TokenKind::Name => Word::Name(Name::from_bytes(&line[token.start..token.end])),
        TokenKind::Number(number) => Word::Number(number),
        TokenKind::Colon => Word::Colon,
        TokenKind::Bar => Word::Bar,
        TokenKind::Equals => Word::Equals,
        TokenKind::Minus => Word::Minus,
    }
}

/// The words of these tokens of a line. It fails only for want of memory.
pub fn words_from(alloc: Global, line: &[u8], tokens: &[Token]) -> Result<Vec<Word>, LineFault>
    requires { All (IsTokenOf line.now) tokens.now }
    ensures ok { IfOk result (λ words. words.items ≡ map (word_from line.now) tokens.now) }
    ensures err { IfErr result (λ fault. fault ≡ faults.OutOfMemory) }
{
    let mut words = Vec::new(alloc);
    for token in tokens {
        words.push(word_from(line, token))?;
    }
    Ok(words)
}

// The line's refusal for a lexical fault.
fn lexical_fault(fault: LexFault) -> LineFault
    ensures { result ≡ lexical_fault fault }
{
    match fault {
        LexFault::BadByte(column) => LineFault::Kind(AsmKind::BadByte(column)),
        LexFault::BadNumber(column) => LineFault::Kind(AsmKind::BadNumber(column)),
        LexFault::NumberTooWide(column) => LineFault::Kind(AsmKind::NumberTooWide(column)),
        LexFault::NameTooLong(column) => LineFault::Kind(AsmKind::NameTooLong(column)),
        LexFault::OutOfMemory => LineFault::OutOfMemory,
    }
}

/// The words of a line, or its refusal for its first lexical fault.
#[tactic(auto, unfolding(crate::specs::Words::words_of))]
pub fn line_words(alloc: Global, line: &[u8]) -> Result<Vec<Word>, LineFault>
    requires { length line.now < 2 ^ 32 }
    ensures { Gives (λ words. words.items) result (words_of line.now) }
{
    match tokens(alloc, line) {
        Ok(tokens) => words_from(alloc, line, &tokens),
        Err(fault) => Err(lexical_fault(fault)),
    }
}
