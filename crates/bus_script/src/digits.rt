//! Digits, added at the end of a trace line.

ghost use Rattle.std.specs.Prelude.{◌≡◌, ◌+◌, ◌*◌, ◌<◌, ◌≤◌, ◌++◌, length, decimal};
ghost use Rattle.bus_script.specs.TraceLine.{hex_digit, hex_digits, bit_digit, link_digits};

use arrayvec::ArrayVec;
use itoa::{Buffer, Integer};

/// The most bytes that a trace line may have.
pub(crate) const LINE_BYTES: usize = 2048;

/// Adds a text.
pub(crate) fn add_text(line: &mut ArrayVec<u8, LINE_BYTES>, text: &[u8])
    requires { length line.old.items + length text.now ≤ 2048 }
    ensures text { line.new.items ≡ line.old.items ++ text.now }
    ensures len { length line.new.items ≡ length line.old.items + length text.now }
{
    line.try_extend_from_slice(text).unwrap();
}

/// A hexadecimal digit in lower case.
pub(crate) fn hex_digit(value: u8) -> u8
    requires { value < 16 }
    ensures { result ≡ hex_digit value }
{
    if value < 10 {
        b'0' + value
    } else {
        b'a' + (value - 10)
    }
}

/// `1` for true, `0` for false.
pub(crate) fn bit_digit(bit: bool) -> u8
    ensures { result ≡ bit_digit bit }
{
    if bit { b'1' } else { b'0' }
}

/// Adds a number in decimal.
pub(crate) fn add_decimal(line: &mut ArrayVec<u8, LINE_BYTES>, number: u32)
    requires { length line.old.items + 10 ≤ 2048 }
    ensures text { line.new.items ≡ line.old.items ++ decimal number }
    ensures len { length line.new.items ≤ length line.old.items + 10 }
{
    add_text(line, Buffer::new().format(number).as_bytes());
}

/// Adds so many hexadecimal digits of a word, the highest first.
#[tactic(auto, unfolding(crate::specs::TraceLine::hex_digits))]
pub(crate) fn add_hex(line: &mut ArrayVec<u8, LINE_BYTES>, digits: u32, word: u32)
    requires most { digits ≤ 8 }
    requires room { length line.old.items + digits ≤ 2048 }
    ensures text { line.new.items ≡ line.old.items ++ hex_digits digits word }
    ensures len { length line.new.items ≡ length line.old.items + digits }
{
    for place in (0..digits).rev() {
        line.push(hex_digit(((word >> (4 * place)) % 16) as u8));
    }
}

/// Adds the links of so many slices, the highest slice first.
#[tactic(auto, unfolding(crate::specs::TraceLine::link_digits))]
pub(crate) fn add_links(line: &mut ArrayVec<u8, LINE_BYTES>, slices: u32, links: u32)
    requires most { slices ≤ 16 }
    requires room { length line.old.items + slices ≤ 2048 }
    ensures text { line.new.items ≡ line.old.items ++ link_digits slices links }
    ensures len { length line.new.items ≡ length line.old.items + slices }
{
    for slice in (0..slices).rev() {
        line.push(b'0' + (links >> slice & 1) as u8);
    }
}
