//! The registers of an array as whole words.

/// The thirteen registers of an array of N slices, each a whole word below 4^N.
#[derive(Clone, Copy, Debug, PartialEq, Eq)]
pub struct Regs {
    /// R0 to R9.
    pub r: [u32; 10],
    /// The register T.
    pub t: u32,
    /// The accumulator.
    pub ac: u32,
    /// The memory address register.
    pub mar: u32,
}
