//! What the array answers in one clock.

ghost use Rattle.std.specs.Prelude.{◌≡◌, ℕ, ◌^◌, ◌<◌, ◌≤◌, ◌==◌, IsTrue};
ghost use Rattle.cpe_slice.specs.FunctionCode.{is_shift};
ghost use Rattle.cpe_slice.specs.Registers.{AllBelow};
ghost use Rattle.cpe_slice.specs.WordStep.{array_step, inputs_of};
ghost use Rattle.slice_array.specs.Regs.{registers_of};
ghost use Rattle.bus_script.specs.ScriptFits.{AreBusesFor};
ghost use Rattle.flow_sim.specs.Machine.{IsMachineFor, IsOrderFor, array_of, fi_of};

use crate::machine::Machine;
use crate::order::Order;
use bus_script::Buses;
use slice_array::{Array, Regs, with_slices};

/// What the array gives in one clock.
#[derive(Clone, Copy, Debug, PartialEq, Eq)]
pub struct ArrayAnswer {
    /// The registers after the clock.
    pub regs: Regs,
    /// The carry or shift link of each slice, slice 0 in bit 0.
    pub links: u32,
    /// The flag input of the 3001.
    pub fi: bool,
}

// The answer of `N` slices with these registers, where M, I and FO are given.
#[tactic(auto, using(crate::proofs::FlagBits::one_of))]
fn answer_at<const N: usize>(regs: &Regs, order: &Order, m: u32, i: u32, fo: bool) -> ArrayAnswer
    requires size { (0 < N) × (N ≤ 16) }
    requires regs { AllBelow (4 ^ N) (registers_of regs.now) }
    requires buses { (order.now.mask < 4 ^ N) × (m < 4 ^ N) × (i < 4 ^ N) }
    requires shift_mask { IsTrue (is_shift order.now.func) → order.now.mask ≡ 0 }
    ensures registers { registers_of result.regs ≡ (array_step N order.now.func (inputs_of order.now.mask m i fo fo) (registers_of regs.now)).registers }
    ensures links { result.links ≡ (array_step N order.now.func (inputs_of order.now.mask m i fo fo) (registers_of regs.now)).links }
    ensures fi { result.fi ≡ ((array_step N order.now.func (inputs_of order.now.mask m i fo fo) (registers_of regs.now)).fi == 1) }
    ensures below { AllBelow (4 ^ N) (registers_of result.regs) }
{
    let mut array = Array::<N>::of(regs);
    let out = array.step(order.func, order.mask, m, i, fo);
    ArrayAnswer {
        regs: array.regs(),
        links: out.links,
        fi: out.fi,
    }
}

/// What an array of this many slices answers to an order, from the machine as the clock begins.
#[tactic(auto, unfolding(crate::specs::Machine::array_of, crate::specs::Machine::fi_of))]
pub fn array_answer(slices: u8, machine: &Machine, order: &Order, buses: &Buses) -> ArrayAnswer
    requires size { (0 < slices) × (slices ≤ 16) }
    requires machine { IsMachineFor slices machine.now }
    requires order { IsOrderFor slices order.now }
    requires buses { AreBusesFor slices buses.now }
    ensures registers { registers_of result.regs ≡ (array_of slices order.now buses.now machine.now).registers }
    ensures links { result.links ≡ (array_of slices order.now buses.now machine.now).links }
    ensures fi { result.fi ≡ fi_of slices order.now buses.now machine.now }
    ensures below { AllBelow (4 ^ slices) (registers_of result.regs) }
{
    let m = machine.m_bus(buses.m);
    let fo = machine.fo(order);
    with_slices!(slices, answer_at(&machine.regs, order, m, buses.i, fo))
}
