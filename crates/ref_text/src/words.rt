//! The words of a line, and the numbers that they stand for.

ghost use Rattle.std.specs.Prelude.{◌≡◌, ◌<◌, ◌+◌, ◌*◌, ◌^◌, IsTrue};
ghost use Rattle.std.specs.List.{list_all};
ghost use Rattle.std.specs.Char.{is_ascii_digit, digit_value};
ghost use Rattle.std.specs.Option.{SomeIff};
ghost use Rattle.std.specs.Str.Parse.{digits_value};
ghost use Rattle.ref_text.specs.Words.{has_no_leading_zero, is_numeral, number_of, plain, negated, value_of};

/// A number that may stand behind a minus sign.
#[derive(Clone, Copy, PartialEq, Eq, Debug)]
pub(crate) struct Signed {
    /// Whether the minus sign is there.
    pub minus: bool,
    /// The number without it.
    pub size: u32,
}

/// What a word stands for, or None where it is no number.
pub(crate) fn value_of(word: &[u8]) -> Option<Signed>
    ensures { result ≡ value_of word.now }
{
    match word {
        [] => None,
        [b'-', digits @ ..] => negated(number_of(digits)),
        [..] => plain(number_of(word)),
    }
}

fn plain(number: Option<u32>) -> Option<Signed>
    ensures { result ≡ plain number }
{
    match number {
        None => None,
        Some(size) => Some(Signed { minus: false, size }),
    }
}

fn negated(number: Option<u32>) -> Option<Signed>
    ensures { result ≡ negated number }
{
    match number {
        None | Some(0) => None,
        Some(size) => Some(Signed { minus: true, size }),
    }
}

// The number that a word of digits stands for: decimal without leading zeros, and below 2^32.
fn number_of(word: &[u8]) -> Option<u32>
    ensures { result ≡ number_of word.now }
{
    if is_numeral(word) {
        digits_value(word)
    } else {
        None
    }
}

fn is_numeral(word: &[u8]) -> bool
    ensures { result ≡ is_numeral word.now }
{
    has_no_leading_zero(word) && are_digits(word)
}

fn are_digits(word: &[u8]) -> bool
    ensures { result ≡ list_all is_ascii_digit word.now }
{
    word.iter().all(|byte| byte.is_ascii_digit())
}

fn has_no_leading_zero(word: &[u8]) -> bool
    ensures { result ≡ has_no_leading_zero word.now }
{
    match word {
        [] => false,
        [_] => true,
        [first, ..] => *first != b'0',
    }
}

// The number that the digits stand for, or None where it is 2^32 or more.
fn digits_value(digits: &[u8]) -> Option<u32>
    requires { IsTrue (list_all is_ascii_digit digits.now) }
    ensures { SomeIff result (digits_value 10 digits.now < 2 ^ 32) (digits_value 10 digits.now) }
{
    let mut value = 0u32;
    for byte in digits {
        match with_digit(value, digit(*byte)) {
            Some(more) => value = more,
            None => return None,
        }
    }
    Some(value)
}

fn digit(byte: u8) -> u32
    requires { IsTrue (is_ascii_digit byte) }
    ensures { result ≡ digit_value byte }
{
    (byte - b'0') as u32
}

// The number with one digit more, or None where it is 2^32 or more.
fn with_digit(value: u32, digit: u32) -> Option<u32>
    ensures { SomeIff result (value * 10 + digit < 2 ^ 32) (value * 10 + digit) }
{
    match value.checked_mul(10) {
        Some(shifted) => shifted.checked_add(digit),
        None => None,
    }
}
