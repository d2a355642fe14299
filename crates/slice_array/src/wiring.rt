//! How the slices of an array are wired: a slice's carry out is the carry in of the slice above it, and a slice's
//! right out is the left in of the slice below it. This is this project's own choice.

ghost use Rattle.std.specs.Prelude.{◌≡◌, ℕ, ◌<◌, ◌≤◌, ◌^◌, IsTrue, length, true, false};
ghost use Rattle.slice_array.specs.Whole.{whole, AllSlices};
ghost use Rattle.cpe_slice.specs.FunctionCode.{is_shift};
ghost use Rattle.cpe_slice.specs.WordStep.{array_step, bit, inputs_of};

use cpe_slice::{Fn7, Slice};

/// What one clock of an array gives beside its registers.
#[derive(Clone, Copy, Debug, PartialEq, Eq)]
pub struct ArrayOut {
    /// The flag input of the 3001: in the right shift the right out of slice 0, else the carry out of the last slice.
    pub fi: bool,
    /// Bit j is the link of slice j: its right out in the right shift, else its carry out.
    pub links: u32,
}

/// One clock of the slices, the first of which is the least significant.
pub(crate) fn step_slices(
    slices: &mut [Slice],
    f: Fn7,
    k: u32,
    m: u32,
    i: u32,
    fo: bool,
) -> ArrayOut
    requires some { 0 < length slices.old }
    requires sixteen { length slices.old ≤ 16 }
    requires digits { AllSlices slices.old }
    requires buses { (k < 4 ^ length slices.old) × (m < 4 ^ length slices.old) × (i < 4 ^ length slices.old) }
    requires shift_mask { IsTrue (is_shift f) → k ≡ 0 }
    ensures registers { whole slices.new
        ≡ (array_step (length slices.old) f (inputs_of k m i fo fo) (whole slices.old)).registers }
    ensures links { result.links
        ≡ (array_step (length slices.old) f (inputs_of k m i fo fo) (whole slices.old)).links }
    ensures fi { bit result.fi
        ≡ (array_step (length slices.old) f (inputs_of k m i fo fo) (whole slices.old)).fi }
    ensures digits { AllSlices slices.new }
{
    if f.is_shift() {
        shift(slices, f, k, m, i, fo)
    } else {
        ripple(slices, f, k, m, i, fo)
    }
}

// Outside the shift: from the first slice up, each taking the carry of the one below it.
fn ripple(slices: &mut [Slice], f: Fn7, k: u32, m: u32, i: u32, ci: bool) -> ArrayOut
    requires some { 0 < length slices.old }
    requires sixteen { length slices.old ≤ 16 }
    requires digits { AllSlices slices.old }
    requires buses { (k < 4 ^ length slices.old) × (m < 4 ^ length slices.old) × (i < 4 ^ length slices.old) }
    requires no_shift { is_shift f ≡ false }
    ensures registers { whole slices.new
        ≡ (array_step (length slices.old) f (inputs_of k m i ci false) (whole slices.old)).registers }
    ensures links { result.links
        ≡ (array_step (length slices.old) f (inputs_of k m i ci false) (whole slices.old)).links }
    ensures fi { bit result.fi
        ≡ (array_step (length slices.old) f (inputs_of k m i ci false) (whole slices.old)).fi }
    ensures digits { AllSlices slices.new }
{
    let mut carry = ci;
    let mut links = 0u32;
    for j in 0..slices.len() {
        let at = 2 * j as u32;
        let out = slices[j].step(
            f,
            (k >> at & 3) as u8,
            (m >> at & 3) as u8,
            (i >> at & 3) as u8,
            carry,
            false,
        );
        slices[j] = out.slice;
        links += u32::from(out.co) << j as u32;
        carry = out.co;
    }
    ArrayOut { fi: carry, links }
}

// In the shift: from the last slice down, each taking the low bit of the one above it.
fn shift(slices: &mut [Slice], f: Fn7, k: u32, m: u32, i: u32, li: bool) -> ArrayOut
    requires some { 0 < length slices.old }
    requires sixteen { length slices.old ≤ 16 }
    requires digits { AllSlices slices.old }
    requires buses { (k < 4 ^ length slices.old) × (m < 4 ^ length slices.old) × (i < 4 ^ length slices.old) }
    requires no_mask { k ≡ 0 }
    requires is_shift { is_shift f ≡ true }
    ensures registers { whole slices.new
        ≡ (array_step (length slices.old) f (inputs_of k m i false li) (whole slices.old)).registers }
    ensures links { result.links
        ≡ (array_step (length slices.old) f (inputs_of k m i false li) (whole slices.old)).links }
    ensures fi { bit result.fi
        ≡ (array_step (length slices.old) f (inputs_of k m i false li) (whole slices.old)).fi }
    ensures digits { AllSlices slices.new }
{
    let mut low_bit = li;
    let mut links = 0u32;
    for j in (0..slices.len()).rev() {
        let at = 2 * j as u32;
        let out = slices[j].step(
            f,
            0,
            (m >> at & 3) as u8,
            (i >> at & 3) as u8,
            false,
            low_bit,
        );
        slices[j] = out.slice;
        links += u32::from(out.ro) << j as u32;
        low_bit = out.ro;
    }
    ArrayOut { fi: low_bit, links }
}
