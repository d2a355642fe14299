//! The K bits of a microword on the K bus.

ghost use Rattle.std.specs.Prelude.{◌≡◌, ℕ, ◌+◌, ◌*◌, ◌/◌, ◌%◌, ◌^◌, ◌<◌, ◌≤◌, Some, IfSome, IsTrue};
ghost use Rattle.field_decl.specs.KBits.{spread_bits, gathered_bits, share_of, spread_of, IsGathered, IsShared, has_kbits};

use crate::decl::Decl;

// How many bus bits a K bit drives.
fn share(decl: &Decl) -> u32
    ensures share { result ≡ share_of decl.now }
    ensures some { 0 < result }
    ensures all { result * decl.now.kbus ≡ 2 * decl.now.slices }
{
    2 * decl.slices as u32 / decl.kbus as u32
}

// The mask of `count` K bits, each of which drives `share` bus bits.
fn spread_bits(share: u32, count: u32, kbits: u32) -> u64
    requires some_share { 0 < share }
    requires some_count { 0 < count }
    requires narrow { share * count ≤ 32 }
    requires kbits { kbits < 2 ^ count }
    ensures mask { result ≡ spread_bits share count kbits }
    ensures below { result < 2 ^ (share * count) }
{
    let ones = (1u64 << share) - 1;
    let mut mask = 0u64;
    for j in (0..count).rev() {
        mask = (mask << share) + u64::from(kbits >> j & 1) * ones;
    }
    mask
}

// The lowest bus bit of each of `count` K bits.
fn gathered_bits(share: u32, count: u32, mask: u128) -> u32
    requires some_share { 0 < share }
    requires narrow { share * count ≤ 32 }
    ensures kbits { result ≡ gathered_bits share count mask }
    ensures few { result < 2 ^ count }
{
    let mut kbits = 0u64;
    for j in (0..count).rev() {
        kbits = 2 * kbits + (mask >> (j * share) & 1) as u64;
    }
    kbits as u32
}

/// The mask that the K bits put on the K bus (this project's own choice). Bit j of `kbits` is K bit j.
///
/// K bit j drives the bus bits from `j * (2 * slices / kbus)` up to, and not with, those of K bit j + 1.
pub fn spread(decl: &Decl, kbits: u32) -> u32
    requires { kbits < 2 ^ decl.now.kbus }
    ensures mask { result ≡ spread_of decl.now kbits }
    ensures below { result < 2 ^ (2 * decl.now.slices) }
    ensures driven { (bit : ℕ) → bit < 2 * decl.now.slices → result / 2 ^ bit % 2 ≡ kbits / 2 ^ (bit / share_of decl.now) % 2 }
{
    spread_bits(share(decl), decl.kbus as u32, kbits) as u32
}

/// The K bits, bit j of the result being K bit j, that put this mask on the K bus, or None where none do.
pub fn gather(decl: &Decl, mask: u128) -> Option<u32>
    ensures found { IfSome result (λ kbits. IsGathered decl.now mask kbits) }
    ensures back { (kbits : ℕ) → IsGathered decl.now mask kbits → result ≡ Some kbits }
{
    let kbits = gathered_bits(share(decl), decl.kbus as u32, mask);
    if spread(decl, kbits) as u128 == mask {
        Some(kbits)
    } else {
        None
    }
}

/// Whether some K bits put this mask on the bus of so many slices, which `kbus` K bits share.
pub fn has_kbits(slices: u8, kbus: u8, mask: u128) -> bool
    requires { IsShared slices kbus }
    ensures kbits { result ≡ has_kbits slices kbus mask }
    ensures below { IsTrue result → mask < 2 ^ (2 * slices) }
{
    let share = 2 * slices as u32 / kbus as u32;
    let kbits = gathered_bits(share, kbus as u32, mask);
    spread_bits(share, kbus as u32, kbits) as u128 == mask
}

/// The masks that have K bits are just those that some K bits give.
pub fn kbits_give_masks()
    ensures given { (slices kbus mask kbits : ℕ) → IsShared slices kbus → kbits < 2 ^ kbus → spread_bits (2 * slices / kbus) kbus kbits ≡ mask → IsTrue (has_kbits slices kbus mask) }
    ensures giving { (slices kbus mask : ℕ) → IsTrue (has_kbits slices kbus mask) → (kbits : ℕ) × (kbits < 2 ^ kbus) × (spread_bits (2 * slices / kbus) kbus kbits ≡ mask) }
{}
