//! Microwords read from PROM images.
ghost use Rattle.std.specs.Prelude.{ℕ, ◌≡◌, ◌*◌, ◌<◌, ◌≤◌, ◌^◌, IfErr, IfNone, IfOk, IfSome, Some, length, slice_get};
ghost use Rattle.std.specs.Int.{bit_at};
ghost use Rattle.bpnf.specs.Image.{IsWidth};
ghost use Rattle.field_decl.specs.Decls.{declaration_of};
ghost use Rattle.prom_split.specs.Images.{AreJoined, FitImages, HaveBits, shown_bit};
ghost use Rattle.prom_split.specs.Joining.{IsFirstOfOtherWidth, IsJoinFault};

use crate::Words;
use crate::low_bits::low_bits;
use bpnf::Prom;
use field_decl::{Decl, prom_count, word_width};
use std::alloc::{AllocError, Global};
use thiserror::Error;

/// Why images are not joined.
#[derive(Clone, Copy, Debug, PartialEq, Eq, Error)]
pub enum JoinFault {
    /// There are this many images, which is not the number of the declaration.
    #[error("there are {0} images, which is not the declared number")]
    PromCount(usize),
    /// The number is right, and image k, from 0, is the first whose words have other bits.
    #[error("image {0} has other bits than declared")]
    PromWidth(usize),
    /// Memory was refused.
    #[error("out of memory")]
    OutOfMemory,
}

// The first image whose words have other bits than these.
fn first_of_other_width(proms: &[Prom], bits: u8) -> Option<usize>
    ensures some { IfSome result (IsFirstOfOtherWidth bits proms.now) }
    ensures none { IfNone result (HaveBits bits proms.now) }
{
    for place in 0..proms.len() {
        if proms[place].bits() != bits {
            return Some(place);
        }
    }
    None
}

// The number whose bits the images show at an address, the first image lowest.
fn number_at(proms: &[Prom], bits: u8, address: u16) -> u128
    requires width { IsWidth bits }
    requires bits { HaveBits bits proms.now }
    requires narrow { length proms.now * bits ≤ 103 }
    requires address { address < 512 }
    ensures shown { (bit : ℕ) → bit < length proms.now * bits → bit_at result bit ≡ shown_bit bits proms.now address bit }
{
    let mut number = 0u128;
    for place in 0..proms.len() {
        let word = u128::from(proms[place].words()[address as usize]);
        number += word << (place as u32 * u32::from(bits));
    }
    number
}

// The microwords that images of the declared number and bits hold.
fn read_words(alloc: Global, proms: &[Prom], decl: &Decl) -> Result<Words, AllocError>
    requires { FitImages (declaration_of decl.now) proms.now }
    ensures { IfOk result (AreJoined (declaration_of decl.now) proms.now) }
{
    let width = word_width(decl);
    let mut words = Vec::new(alloc);
    for address in 0..512 {
        let number = number_at(proms, decl.prom_bits, address);
        words.push(low_bits(number, width))?;
    }
    Ok(Words::of(words))
}

/// The microwords that images hold. Bits past the width of the declaration's words are dropped.
pub fn join(alloc: Global, proms: &[Prom], decl: &Decl) -> Result<Words, JoinFault>
    ensures joined { IfOk result (AreJoined (declaration_of decl.now) proms.now) }
    ensures refused { IfErr result (IsJoinFault (declaration_of decl.now) proms.now) }
{
    if proms.len() != prom_count(decl) as usize {
        return Err(JoinFault::PromCount(proms.len()));
    }
    if let Some(place) = first_of_other_width(proms, decl.prom_bits) {
        return Err(JoinFault::PromWidth(place));
    }
    match read_words(alloc, proms, decl) {
        Ok(words) => Ok(words),
        Err(_) => Err(JoinFault::OutOfMemory),
    }
}
