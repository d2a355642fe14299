//! A PROM image: 512 words of 4 or 8 bits.

ghost use Rattle.std.specs.Prelude.{◌≡◌};

use crate::Bytes;
use std::marker::Model;

/// How many words an image has: one for each cell of the microprogram's matrix.
pub(crate) const WORDS: u16 = 512;

/// What a PROM holds: its words in rising address, each below the power of two of its bits.
#[derive(Drop)]
pub struct Prom {
    bits: u8,
    words: Bytes,
}

impl Model for Prom {
    ghost use Rattle.bpnf.specs.Image.{Image, IsImage};

    ghost Value = { Image };

    ghost view = { λ prom. record { bits = prom.bits; words = prom.words } };

    ghost invariant = { λ prom. IsImage (record { bits = prom.bits; words = prom.words }) };
}

impl Prom {
    ghost use Rattle.bpnf.specs.Image.{IsImage};

    /// The image of these 512 words of 4 or 8 bits.
    pub fn new(bits: u8, words: Bytes) -> Self
        requires { IsImage (record { bits = bits; words = words }) }
        ensures { result ≡ record { bits = bits; words = words } }
    {
        Prom { bits, words }
    }

    /// The bits of a word, 4 or 8.
    pub fn bits(&self) -> u8
        ensures bits { result ≡ self.now.bits }
        ensures image { IsImage self.now }
    {
        self.bits
    }

    /// The words in rising address from 0.
    pub fn words(&self) -> &[u8]
        ensures words { result.now ≡ self.now.words }
        ensures image { IsImage self.now }
    {
        self.words.as_slice()
    }
}
