//! What can be seen of one clock.

use field_decl::FieldValues;
use slice_array::Regs;

/// One clock as a trace shows it. Registers, flags and latch are as they stand at the clock's start.
#[derive(Drop)]
pub struct ClockView {
    /// The clock's number, from 0.
    pub clock: u32,
    /// The registers of the array.
    pub regs: Regs,
    /// The F latch: the last clock's flag input.
    pub f: bool,
    /// The C flag.
    pub c: bool,
    /// The Z flag.
    pub z: bool,
    /// The PR latch, 0 to 15.
    pub pr: u8,
    /// PR2 to PR0 where the PR outputs are enabled: `pr % 8`.
    pub pr_out: Option<u8>,
    /// Whether the interrupt strobe is active.
    pub ise: bool,
    /// The user fields in declared order.
    pub values: FieldValues,
    /// The carry or shift link of each slice, slice 0 in bit 0.
    pub links: u32,
}
