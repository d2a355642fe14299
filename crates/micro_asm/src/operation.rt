//! An operation of an instruction, as it is written.

use field_decl::Name;

/// An operation, as it is written.
#[derive(Clone, Copy)]
pub enum Operation {
    /// A mnemonic and a register.
    Mnemonic(Name, Name),
    /// Function, register group, register and mask behind `fn`.
    Code(u128, u128, Name, u128),
}
