//! Prints an image as its canonical text.

ghost use Rattle.std.specs.Prelude.{◌≡◌, ◌<◌, ◌≤◌, ◌∷◌, [], ◌++◌, IfOk, OnOk, Ok};
ghost use Rattle.std.specs.Int.{bit_at};
ghost use Rattle.bpnf.specs.Canonical.{frames_of, image_text};
ghost use Rattle.bpnf.specs.FirstFault.{Reads};
ghost use Rattle.bpnf.specs.Frames.{letter, letters_of, frame};

use crate::Prom;
use io_base::OutOfMemory;
use std::alloc::{AllocError, Global};

// The letter of a bit of a word.
fn letter_of_bit(word: u8, bit: u8) -> u8
    requires { bit < 8 }
    ensures { result ≡ letter (bit_at word bit) }
{
    if (word >> bit) & 1 == 1 { b'P' } else { b'N' }
}

// Appends the letters of a word, most significant bit first.
#[tactic(auto, unfolding(crate::specs::Frames::letters_of))]
fn print_letters(text: &mut Vec<u8>, bits: u8, word: u8) -> Result<(), AllocError>
    requires { bits ≤ 8 }
    ensures { OnOk result (text.new.items ≡ text.old.items ++ letters_of bits word) }
{
    for bit in (0..bits).rev() {
        text.push(letter_of_bit(word, bit))?;
    }
    Ok(())
}

// Appends the frame of a word, and LF.
fn print_frame(text: &mut Vec<u8>, bits: u8, word: u8) -> Result<(), AllocError>
    requires { bits ≤ 8 }
    ensures { OnOk result (text.new.items ≡ text.old.items ++ (frame bits word ++ 10 ∷ [])) }
{
    text.push(b'B')?;
    print_letters(text, bits, word)?;
    text.push(b'F')?;
    text.push(b'\n')?;
    Ok(())
}

// Appends the frames of the words.
#[tactic(auto, unfolding(crate::specs::Canonical::frames_of))]
fn print_frames(text: &mut Vec<u8>, bits: u8, words: &[u8]) -> Result<(), AllocError>
    requires { bits ≤ 8 }
    ensures { OnOk result (text.new.items ≡ text.old.items ++ frames_of bits words.now) }
{
    for word in words {
        print_frame(text, bits, *word)?;
    }
    Ok(())
}

/// The canonical text of an image: a frame and LF for each word, in rising address. It fails only for want of memory.
pub fn print(alloc: Global, prom: &Prom) -> Result<Vec<u8>, OutOfMemory>
    ensures text { IfOk result (λ text. text.items ≡ image_text prom.now) }
    ensures read_again { IfOk result (λ text. Reads prom.now.bits 512 text.items (Ok prom.now.words)) }
{
    let mut text = Vec::new(alloc);
    print_frames(&mut text, prom.bits(), prom.words())?;
    Ok(text)
}
