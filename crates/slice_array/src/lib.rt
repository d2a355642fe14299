//! Arrays of one to sixteen 3002 slices. Layer: chips.
//!
//! `Array::<N>::step` works as the chips do: each slice makes its two bits and hands its carry to the slice above it,
//! or in the right shift its low bit to the slice below it. It is proved to be the array step on whole words, with
//! the link of every slice, for each N from 1 to 16; in the right shift for a K bus of 0 alone. How the slices are
//! wired is this project's own choice. No call takes memory.
//!
//! Contracts: `Array::step`.
#![tactic(auto)]

mod array;
mod regs;
mod wiring;
mod with_slices;
mod words;

pub use array::Array;
pub use regs::Regs;
pub use wiring::ArrayOut;
