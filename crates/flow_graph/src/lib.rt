//! The program as a graph: instructions, each with what its word orders but for the jump, its flow statement and the
//! targets of its outcomes, the pins that fix some of them to cells, and the declaration of chips and fields. Layer:
//! language.
//!
//! A program is valid by its type, `Program`: names differ, each target and pin is in range, and each instruction has
//! a target for each outcome and fits the declaration. A label is an instruction's place in source order, from 0; its
//! name is what the source writes.
//!
//! Contracts: `Program::new`, `find`.
#![tactic(auto)]

mod instructions;
mod pinning;
mod programs;
mod targeting;

pub use instructions::{Instr, Instrs, first_real};
pub use pinning::{Pin, Pins};
pub use programs::Program;
pub use targeting::Targets;
