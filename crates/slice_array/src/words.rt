//! Whole words cut into the digits that the slices hold, and put together again.

ghost use Rattle.std.specs.Prelude.{◌≡◌, ℕ, ◌+◌, ◌*◌, ◌<◌, ◌≤◌, ◌^◌, length};
ghost use Rattle.slice_array.specs.Whole.{whole, AllSlices, digit, join};
ghost use Rattle.slice_array.specs.Regs.{registers_of};
ghost use Rattle.cpe_slice.specs.Registers.{AllBelow};

use crate::regs::Regs;
use cpe_slice::{Reg, Slice};

// Base-4 digit j of each word, as a slice.
fn digit(regs: &Regs, j: u32) -> Slice
    requires { j < 16 }
    ensures value { result ≡ digit j (registers_of regs.now) }
    ensures below { AllBelow 4 result }
{
    let at = 2 * j;
    let mut slice = Slice::zero();
    for number in 0..10u8 {
        slice.set(Reg::R(number), (regs.r[number as usize] >> at & 3) as u8);
    }
    slice.set(Reg::T, (regs.t >> at & 3) as u8);
    slice.set(Reg::Ac, (regs.ac >> at & 3) as u8);
    slice.set_mar((regs.mar >> at & 3) as u8);
    slice
}

// The words one digit up, with the digits of the slice below them.
fn joined(regs: &Regs, slice: &Slice) -> Regs
    requires regs { AllBelow (4 ^ 15) (registers_of regs.now) }
    requires slice { AllBelow 4 slice.now }
    ensures { registers_of result ≡ join slice.now (registers_of regs.now) }
{
    let mut r = [0; 10];
    for number in 0..10u8 {
        r[number as usize] = regs.r[number as usize] * 4 + u32::from(slice.get(Reg::R(number)));
    }
    Regs {
        r,
        t: regs.t * 4 + u32::from(slice.get(Reg::T)),
        ac: regs.ac * 4 + u32::from(slice.get(Reg::Ac)),
        mar: regs.mar * 4 + u32::from(slice.mar()),
    }
}

/// Gives each slice its digits of the words.
pub(crate) fn spread(slices: &mut [Slice], regs: &Regs)
    requires sixteen { length slices.old ≤ 16 }
    requires below { AllBelow (4 ^ length slices.old) (registers_of regs.now) }
    ensures value { whole slices.new ≡ registers_of regs.now }
    ensures digits { AllSlices slices.new }
{
    for j in 0..slices.len() {
        slices[j] = digit(regs, j as u32);
    }
}

/// The words of the slices.
pub(crate) fn gather(slices: &[Slice]) -> Regs
    requires sixteen { length slices.now ≤ 16 }
    requires digits { AllSlices slices.now }
    ensures value { registers_of result ≡ whole slices.now }
    ensures below { AllBelow (4 ^ length slices.now) (registers_of result) }
{
    let mut regs = Regs {
        r: [0; 10],
        t: 0,
        ac: 0,
        mar: 0,
    };
    for j in (0..slices.len()).rev() {
        regs = joined(&regs, &slices[j]);
    }
    regs
}
