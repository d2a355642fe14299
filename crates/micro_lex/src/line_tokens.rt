//! The tokens of a line, from left to right.

ghost use Rattle.std.specs.Prelude.{◌≡◌, ◌≤◌, ◌<◌, ◌+◌, ◌-◌, ◌^◌, false, true, length, take, drop, slice_index, All, IfOk, IfSome};
ghost use Rattle.std.specs.List.{prefix_len};
ghost use Rattle.micro_lex.specs.Alphabet.{is_run_byte, is_space};
ghost use Rattle.micro_lex.specs.Faults.{Gives, in_column};
ghost use Rattle.micro_lex.specs.Names.{IsTokenOf};
ghost use Rattle.micro_lex.specs.Reading.{token_at};
ghost use Rattle.micro_lex.specs.Runs.{run_kind};
ghost use Rattle.micro_lex.specs.Tokens.{mark_kind, tokens_of};

use crate::alphabet::{is_run_byte, is_space, run_len};
use crate::fault::LexFault;
use crate::runs::run_kind;
use crate::token::{Token, TokenKind};
use std::alloc::Global;

fn mark_kind(column: u32, byte: u8) -> Result<TokenKind, LexFault>
    ensures { Gives (λ kind. kind) result (in_column column (mark_kind byte)) }
{
    match byte {
        b':' => Ok(TokenKind::Colon),
        b'|' => Ok(TokenKind::Bar),
        b'=' => Ok(TokenKind::Equals),
        b'-' => Ok(TokenKind::Minus),
        _ => Err(LexFault::BadByte(column)),
    }
}

// Where the run that stands at this place ends.
fn run_end(line: &[u8], start: usize) -> usize
    requires { start ≤ length line.now }
    ensures end { result ≡ start + prefix_len is_run_byte (drop start line.now) }
    ensures within { result ≤ length line.now }
{
    start + run_len(&line[start..])
}

// What the run between these places is.
fn kind_between(line: &[u8], start: usize, end: usize) -> Result<TokenKind, LexFault>
    requires some { start < end }
    requires within { end ≤ length line.now }
    requires small { length line.now < 2 ^ 32 }
    ensures { Gives (λ kind. kind) result (in_column (start + 1) (run_kind (take (end - start) (drop start line.now)))) }
{
    run_kind(start as u32 + 1, &line[start..end])
}

// The token that begins at this place, or None at a space.
#[tactic(auto, unfolding(crate::specs::Reading::token_at))]
fn token_at(line: &[u8], start: usize) -> Result<Option<Token>, LexFault>
    requires within { start < length line.now }
    requires small { length line.now < 2 ^ 32 }
    ensures { Gives (λ token. token) result (token_at line.now start) }
{
    let byte = line[start];
    if is_space(byte) {
        return Ok(None);
    }
    let (kind, end) = if is_run_byte(byte) {
        let end = run_end(line, start);
        (kind_between(line, start, end)?, end)
    } else {
        (mark_kind(start as u32 + 1, byte)?, start + 1)
    };
    Ok(Some(Token { kind, start, end }))
}

/// The tokens of a line without its LF, from left to right, or its first faulty place.
///
/// Space and tab separate tokens, `#` begins a comment that may hold any bytes. The marks are
/// `:`, `|`, `=` and `-`. A maximal run of letters, digits and underscores is a number where it
/// begins with a digit, and else a name. The lexical form is this project's own choice.
pub fn tokens(alloc: Global, line: &[u8]) -> Result<Vec<Token>, LexFault>
    requires { length line.now < 2 ^ 32 }
    ensures exact { Gives (λ found. found.items) result (tokens_of line.now) }
    ensures spans { IfOk result (λ found. All (IsTokenOf line.now) found.items) }
{
    let mut found = Vec::new(alloc);
    let mut at = 0;
    while at < line.len() && line[at] != b'#' {
        match token_at(line, at)? {
            Some(token) => {
                found.push(token)?;
                at = token.end;
            }
            None => at += 1,
        }
    }
    Ok(found)
}
