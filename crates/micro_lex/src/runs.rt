//! What a run is: a number or a name.

ghost use Rattle.std.specs.Prelude.{◌≡◌, ◌≤◌, ◌<◌, IsTrue, length};
ghost use Rattle.std.specs.List.{list_all};
ghost use Rattle.std.specs.Char.{is_ascii_hexdigit};
ghost use Rattle.micro_lex.specs.Faults.{Gives, in_column};
ghost use Rattle.micro_lex.specs.Runs.{number_kind, run_kind};

use crate::alphabet::{are_digits, are_hex_digits};
use crate::digits::value;
use crate::fault::LexFault;
use crate::token::TokenKind;

/// The most bytes that a name may have.
const LONGEST_NAME: usize = 32;

fn number_kind(column: u32, radix: u128, digits: &[u8]) -> Result<TokenKind, LexFault>
    requires radix { 2 ≤ radix }
    requires digits { IsTrue (list_all is_ascii_hexdigit digits.now) }
    ensures { Gives (λ kind. kind) result (in_column column (number_kind radix digits.now)) }
{
    match value(radix, digits) {
        Some(value) => Ok(TokenKind::Number(value)),
        None => Err(LexFault::NumberTooWide(column)),
    }
}

/// What the run that begins in this column is.
#[tactic(auto, unfolding(crate::specs::Runs::run_kind))]
pub fn run_kind(column: u32, run: &[u8]) -> Result<TokenKind, LexFault>
    requires { 0 < length run.now }
    ensures { Gives (λ kind. kind) result (in_column column (run_kind run.now)) }
{
    if run[0].is_ascii_digit() {
        if are_digits(run) {
            number_kind(column, 10, run)
        } else if run.len() > 2 && run[0] == b'0' && run[1] == b'x' && are_hex_digits(&run[2..]) {
            number_kind(column, 16, &run[2..])
        } else {
            Err(LexFault::BadNumber(column))
        }
    } else if run.len() > LONGEST_NAME {
        Err(LexFault::NameTooLong(column))
    } else {
        Ok(TokenKind::Name)
    }
}
