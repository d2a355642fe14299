//! Reads a text, byte by byte.

ghost use Rattle.std.specs.Prelude.{ℕ, ◌≡◌, ◌≢◌, ◌<◌, ◌≤◌, length, Some, None, Ok, Err, IfOk, IfErr};
ghost use Rattle.bpnf.specs.FirstFault.{Reads};
ghost use Rattle.bpnf.specs.Image.{IsImage, IsWidth};
ghost use Rattle.bpnf.specs.Reading.{first, outside, inside, at_byte, at_end, reading, Gives};

use crate::frame::OpenFrame;
use crate::prom::WORDS;
use crate::{BpnfFault, Bytes, Prom};
use std::alloc::Global;
use std::marker::Model;

/// What the bytes so far have brought: the words of whole frames, and the frame that is begun.
#[derive(Drop)]
struct Reader {
    words: Vec<u8>,
    begun: Option<OpenFrame>,
}

impl Model for Reader {
    ghost use Rattle.std.specs.Prelude.{◌≡◌, ◌<◌, ◌^◌, Some};
    ghost use Rattle.bpnf.specs.Reading.{State};
    ghost use Rattle.bpnf.specs.declared.frame.OpenFrame.{OpenFrame};

    ghost Value = { State };

    ghost view = { λ reader. record { words = reader.words.items; begun = reader.begun } };

    ghost invariant = { λ reader. (frame : OpenFrame) → reader.begun ≡ Some frame → frame.word < 2 ^ frame.letters };
}

impl Reader {
    fn new(alloc: Global) -> Self
        ensures { result ≡ first }
    {
        Reader {
            words: Vec::new(alloc),
            begun: None,
        }
    }

    // Takes the next byte.
    fn take(&mut self, bits: u8, count: u16, position: usize, byte: u8) -> Result<(), BpnfFault>
        requires { bits ≤ 8 }
        ensures { Gives (λ _. self.new) result (at_byte bits count position self.old.words self.old.begun byte) }
    {
        match self.begun {
            None => self.take_outside(count, position, byte),
            Some(frame) => self.take_inside(bits, frame, position, byte),
        }
    }

    // Takes a byte that stands outside a frame.
    fn take_outside(&mut self, count: u16, position: usize, byte: u8) -> Result<(), BpnfFault>
        requires { self.old.begun ≡ None }
        ensures { Gives (λ _. self.new) result (outside count position self.old.words byte) }
    {
        if byte != b'B' {
            return Ok(());
        }
        if self.words.len() >= count as usize {
            return Err(BpnfFault::TooMany(position));
        }
        self.begun = Some(OpenFrame {
            start: position,
            letters: 0,
            word: 0,
        });
        Ok(())
    }

    // Takes a byte that stands inside the frame that is begun.
    fn take_inside(
        &mut self,
        bits: u8,
        frame: OpenFrame,
        position: usize,
        byte: u8,
    ) -> Result<(), BpnfFault>
        requires room { bits ≤ 8 }
        requires begun { self.old.begun ≡ Some frame }
        ensures { Gives (λ _. self.new) result (inside bits position self.old.words frame byte) }
    {
        if frame.letters < bits {
            self.begun = Some(frame.with_letter(position, byte)?);
            return Ok(());
        }
        if byte != b'F' {
            return Err(BpnfFault::BadLetter(position));
        }
        self.words
            .push(frame.word)
            .map_err(|_| BpnfFault::OutOfMemory)?;
        self.begun = None;
        Ok(())
    }

    // The words, where the text ends here.
    fn finish(self, count: u16) -> Result<Vec<u8>, BpnfFault>
        ensures { Gives (λ words. words.items) result (at_end count self.words self.begun) }
    {
        if let Some(frame) = self.begun {
            return Err(BpnfFault::CutWord(frame.start));
        }
        if self.words.len() < count as usize {
            return Err(BpnfFault::TooFew(self.words.len() as u16));
        }
        Ok(self.words)
    }
}

// The words that a text shows, so many of so many bits, or its first fault.
#[tactic(auto, unfolding(crate::specs::Reading::run))]
fn read_words(alloc: Global, bytes: &[u8], bits: u8, count: u16) -> Result<Vec<u8>, BpnfFault>
    requires { bits ≤ 8 }
    ensures { Gives (λ words. words.items) result (reading bits count bytes.now) }
{
    let mut reader = Reader::new(alloc);
    for (position, byte) in bytes.iter().enumerate() {
        match reader.take(bits, count, position, *byte) {
            Ok(()) => {}
            Err(fault) => return Err(fault),
        }
    }
    reader.finish(count)
}

/// The image that a text shows, of 512 words of 4 or 8 bits, or the text's first fault from the left.
pub fn read(alloc: Global, bytes: &[u8], bits: u8) -> Result<Prom, BpnfFault>
    requires { IsWidth bits }
    ensures words { IfOk result (λ prom. Reads bits 512 bytes.now (Ok prom.words)) }
    ensures bits { IfOk result (λ prom. prom.bits ≡ bits) }
    ensures fault { IfErr result (λ fault.
        fault ≢ BpnfFault.OutOfMemory → Reads bits 512 bytes.now (Err fault)) }
{
    match read_words(alloc, bytes, bits, WORDS) {
        Ok(words) => Ok(Prom::new(bits, Bytes::of(words))),
        Err(fault) => Err(fault),
    }
}
