//! The buses of an array in one clock, as the outside drives them.

/// What stands on the input buses in one clock. M and I are words of the array, below 4^N for N slices.
#[derive(Clone, Copy, Debug, PartialEq, Eq)]
pub struct Buses {
    /// The M bus, or None where the memory drives it.
    pub m: Option<u32>,
    /// The I bus.
    pub i: u32,
    /// The inputs PX7..PX4 of the 3001, 0 to 15.
    pub px: u8,
    /// The inputs SX3..SX0 of the 3001, 0 to 15.
    pub sx: u8,
}
