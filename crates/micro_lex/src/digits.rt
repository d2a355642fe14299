//! The value of a row of digits, up to 128 bits.

ghost use Rattle.std.specs.Prelude.{◌≡◌, ◌≤◌, ◌<◌, ◌+◌, ◌*◌, ◌^◌, IsTrue};
ghost use Rattle.std.specs.List.{list_all};
ghost use Rattle.std.specs.Char.{is_ascii_hexdigit, digit_value};
ghost use Rattle.std.specs.Option.{SomeIff};
ghost use Rattle.std.specs.Str.Parse.{digits_value};

fn digit(byte: u8) -> u128
    requires { IsTrue (is_ascii_hexdigit byte) }
    ensures { result ≡ digit_value byte }
{
    match byte {
        b'0'..=b'9' => (byte - b'0') as u128,
        b'A'..=b'F' => (byte - b'A') as u128 + 10,
        _ => (byte - b'a') as u128 + 10,
    }
}

// The number with one digit more, or None where it is 2^128 or more.
fn with_digit(value: u128, radix: u128, digit: u128) -> Option<u128>
    ensures { SomeIff result (value * radix + digit < 2 ^ 128) (value * radix + digit) }
{
    match value.checked_mul(radix) {
        Some(shifted) => shifted.checked_add(digit),
        None => None,
    }
}

/// The number that the digits stand for, or None where it is 2^128 or more.
pub fn value(radix: u128, digits: &[u8]) -> Option<u128>
    requires radix { 2 ≤ radix }
    requires digits { IsTrue (list_all is_ascii_hexdigit digits.now) }
    ensures { SomeIff result (digits_value radix digits.now < 2 ^ 128) (digits_value radix digits.now) }
{
    let mut value = 0u128;
    for byte in digits {
        match with_digit(value, radix, digit(*byte)) {
            Some(more) => value = more,
            None => return None,
        }
    }
    Some(value)
}
