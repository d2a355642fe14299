//! The array: N slices, seen by its callers as thirteen whole words.

ghost use Rattle.std.specs.Prelude.{◌≡◌, ℕ, ◌<◌, ◌≤◌, ◌^◌, IsTrue};
ghost use Rattle.slice_array.specs.Whole.{zero_registers};
ghost use Rattle.cpe_slice.specs.FunctionCode.{is_shift};
ghost use Rattle.cpe_slice.specs.WordStep.{array_step, bit, inputs_of};

use crate::regs::Regs;
use crate::wiring::{ArrayOut, step_slices};
use crate::words::{gather, spread};
use cpe_slice::{Fn7, Slice};
use std::marker::Model;

/// An array of `N` slices, 1 to 16. Contracts see its registers as whole words below 4^N.
#[derive(Drop)]
pub struct Array<const N: usize> {
    // The first is the least significant.
    slices: [Slice; N],
}

impl<const N: usize> Model for Array<N> {
    ghost use Rattle.std.specs.Prelude.{ℕ, ◌<◌, ◌≤◌};
    ghost use Rattle.cpe_slice.specs.Registers.{Registers};
    ghost use Rattle.slice_array.specs.Whole.{whole, AllSlices};

    ghost Value = { Registers };

    ghost view = { λ a. whole a.slices };

    ghost invariant = { λ a. (0 < N) × (N ≤ 16) × AllSlices a.slices };
}

impl<const N: usize> Array<N> {
    ghost use Rattle.slice_array.specs.Regs.{registers_of};
    ghost use Rattle.cpe_slice.specs.Registers.{AllBelow};

    /// An array whose registers all hold 0, as at the start of a run (this project's own choice).
    pub fn zero() -> Array<N>
        requires { (0 < N) × (N ≤ 16) }
        ensures { result ≡ zero_registers }
    {
        Array {
            slices: [Slice::zero(); N],
        }
    }

    /// An array with these registers.
    pub fn of(regs: &Regs) -> Array<N>
        requires size { (0 < N) × (N ≤ 16) }
        requires below { AllBelow (4 ^ N) (registers_of regs.now) }
        ensures { result ≡ registers_of regs.now }
    {
        let mut slices = [Slice::zero(); N];
        spread(&mut slices, regs);
        Array { slices }
    }

    /// The registers, each below 4^N.
    pub fn regs(&self) -> Regs
        ensures value { registers_of result ≡ self.now }
        ensures below { AllBelow (4 ^ N) (registers_of result) }
    {
        gather(&self.slices)
    }

    /// One clock of the array. Every register is read as it stood before the clock.
    ///
    /// `k`, `m` and `i` are the buses, each below 4^N. `fo` is the flag output of the 3001: carry in of the least
    /// significant slice, and in the right shift the new high bit (this project's own choice). The right shift
    /// is modelled for a K bus of 0 alone (own choice too).
    pub fn step(&mut self, f: Fn7, k: u32, m: u32, i: u32, fo: bool) -> ArrayOut
        requires buses { (k < 4 ^ N) × (m < 4 ^ N) × (i < 4 ^ N) }
        requires shift_mask { IsTrue (is_shift f) → k ≡ 0 }
        ensures registers { self.new ≡ (array_step N f (inputs_of k m i fo fo) self.old).registers }
        ensures links { result.links ≡ (array_step N f (inputs_of k m i fo fo) self.old).links }
        ensures fi { bit result.fi ≡ (array_step N f (inputs_of k m i fo fo) self.old).fi }
    {
        step_slices(&mut self.slices, f, k, m, i, fo)
    }
}
