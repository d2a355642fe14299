//! Checks a refutation: each line of its text is derived from the clauses and the lines before it, or the first that
//! is not is told. Layer: decision.
//!
//! The answer for a file is exactly that of the definition, `check` in `specs/Check`, which judges each line against
//! the clauses and all lines before it. A list of clauses that a text refutes is made true by no truth values; so
//! where the answer is that a text refutes a program's clauses, no placement is legal.
//!
//! A file is read in pieces, and its lines are judged as they come. A source of clauses gives at most the literals that
//! hints name, up to the line of the answer or the fault.
//!
//! Contracts: `check_ref`, `check_lines`, `check_bytes`, `refuting_text_is_a_refutation`,
//! `printed_refutations_are_taken`, `refutation_texts_are_short`.
#![tactic(auto)]

mod asking;
mod checked;
mod derivation;
mod files;
mod judge;
mod known_clauses;
mod laws;
mod lines;
mod signs;

pub use checked::{CheckFault, Checked};
pub use files::{check_lines, check_ref};
pub use laws::{
    printed_refutations_are_taken, refutation_texts_are_short, refuting_text_is_a_refutation,
};
pub use lines::check_bytes;
