//! Microwords written into PROM images.
ghost use Rattle.std.specs.Prelude.{◌≡◌, ◌+◌, ◌<◌, ◌≤◌, ◌/◌, ◌%◌, ◌^◌, IfOk, map};
ghost use Rattle.field_decl.specs.Decls.{declaration_of};
ghost use Rattle.prom_split.specs.Images.{AreImages, FitWords};

use crate::Words;
use crate::low_bits::low_bits;
use bpnf::{Bytes, Prom};
use field_decl::{Decl, prom_count};
use io_base::OutOfMemory;
use std::alloc::{AllocError, Global};

// The bits of each word from `first` on, as many as `bits`.
fn image_words(alloc: Global, words: &[u128], first: u32, bits: u8) -> Result<Vec<u8>, AllocError>
    requires first { first < 128 }
    requires bits { bits ≤ 8 }
    ensures { IfOk result (λ bytes. bytes.items ≡ map (λ word. word / 2 ^ first % 2 ^ bits) words.now) }
{
    let mut bytes = Vec::new(alloc);
    for word in words {
        bytes.push(low_bits(word >> first, u32::from(bits)) as u8)?;
    }
    Ok(bytes)
}

/// The images of microwords that fit the width of the declaration's words.
///
/// With images of w bits, bit b of the word at an address is bit `b mod w` of the word at that address
/// in image `b div w` (this project's own choice). Bits past the width are 0. It fails only for want of memory.
pub fn split(alloc: Global, words: &Words, decl: &Decl) -> Result<Vec<Prom>, OutOfMemory>
    requires { FitWords (declaration_of decl.now) words.now }
    ensures { IfOk result (λ proms. AreImages (declaration_of decl.now) words.now proms.items) }
{
    let bits = decl.prom_bits;
    let mut proms = Vec::new(alloc);
    for place in 0..prom_count(decl) {
        let bytes = image_words(alloc, words.as_slice(), place * u32::from(bits), bits)?;
        proms.push(Prom::new(bits, Bytes::of(bytes)))?;
    }
    Ok(proms)
}
