//! A frame that is begun, and how a byte carries it on.

ghost use Rattle.std.specs.Prelude.{◌≡◌, ◌<◌, ◌≤◌, ◌^◌, Option, Some, None, IfSome, IfOk};
ghost use Rattle.bpnf.specs.Reading.{bit_of, with_letter};

use crate::BpnfFault;

/// A frame of which the `B` and some letters are read.
#[derive(Clone, Copy)]
pub(crate) struct OpenFrame {
    /// The position of its `B`.
    pub(crate) start: usize,
    /// How many letters are read.
    pub(crate) letters: u8,
    /// The number that they spell.
    pub(crate) word: u8,
}

// The bit that a letter stands for.
fn bit_of_letter(byte: u8) -> Option<u8>
    ensures bit { result ≡ bit_of byte }
    ensures below { IfSome result (λ bit. bit < 2) }
{
    match byte {
        b'P' => Some(1),
        b'N' => Some(0),
        _ => None,
    }
}

impl OpenFrame {
    /// The frame with one letter more.
    pub(crate) fn with_letter(self, position: usize, byte: u8) -> Result<OpenFrame, BpnfFault>
        requires room { self.letters < 8 }
        requires fits { self.word < 2 ^ self.letters }
        ensures frame { result ≡ with_letter position self (bit_of byte) }
        ensures fits { IfOk result (λ frame. frame.word < 2 ^ frame.letters) }
    {
        let Some(bit) = bit_of_letter(byte) else {
            return Err(BpnfFault::BadLetter(position));
        };
        Ok(OpenFrame {
            start: self.start,
            letters: self.letters + 1,
            word: self.word * 2 + bit,
        })
    }
}
