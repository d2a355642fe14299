//! Numbers in the words of the command line.
ghost use Rattle.std.specs.Prelude.{◌≡◌, ◌<◌, ◌≤◌, ◌^◌, true, IfSome, IfNone, length};
ghost use Rattle.std.specs.Char.{is_ascii_digit};
ghost use Rattle.std.specs.List.{list_all};
ghost use Rattle.std.specs.Str.Parse.{digits_value};
ghost use Rattle.micro_cli.specs.Command.{is_number, number_up_to, number_after};

fn are_digits(bytes: &[u8]) -> bool
    ensures { result ≡ list_all is_ascii_digit bytes.now }
{
    bytes.iter().all(|byte| byte.is_ascii_digit())
}

// Whether these bytes are a number: 1 to 20 decimal digits.
fn is_number(digits: &[u8]) -> bool
    ensures { result ≡ is_number digits.now }
{
    let plain = are_digits(digits);
    !digits.is_empty() && digits.len() <= 20 && plain
}

// The number that digits write, where it has at most 64 bits.
fn number_of(digits: &str) -> Option<u64>
    requires digits { list_all is_ascii_digit digits.now ≡ true }
    requires some { 0 < length digits.now }
    ensures number { IfSome result (λ number. number ≡ digits_value 10 digits.now) }
    ensures wide { IfNone result (2 ^ 64 ≤ digits_value 10 digits.now) }
{
    match digits.parse::<u64>() {
        Ok(number) => Some(number),
        Err(_) => None,
    }
}

// The number up to this limit.
fn number_up_to(limit: u64, digits: &str) -> Option<u64>
    ensures { result ≡ number_up_to limit digits.now }
{
    if !is_number(digits.as_bytes()) {
        return None;
    }
    match number_of(digits) {
        Some(number) => { if number <= limit { Some(number) } else { None } }
        None => None,
    }
}

/// The number after a key in a word, up to a limit, as in `clocks=3`: 1 to 20 decimal digits. None of any other word.
pub fn number_after(key: &str, limit: u64, word: &str) -> Option<u64>
    ensures { result ≡ number_after key.now limit word.now }
{
    match word.strip_prefix(key) {
        Some(digits) => number_up_to(limit, digits),
        None => None,
    }
}
