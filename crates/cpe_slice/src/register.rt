//! The registers that a function code can name.

/// A register that a function code can name (the 3002's data sheet). MAR is not among them: function 1 alone
/// changes it.
#[derive(Clone, Copy, PartialEq, Eq, Debug)]
pub enum Reg {
    /// R0 to R9, by number.
    R(u8),
    /// The register T.
    T,
    /// The accumulator.
    Ac,
}
