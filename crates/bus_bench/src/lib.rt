//! The bench: the 3001 and its array run on the microwords of 512 cells, with a memory, for any words. No label
//! occurs. Layer: artefacts.
//!
//! A run of any words writes exactly the trace of the chips, but where a word orders the right shift with K bits
//! other than 0: the first such cell is told.
//!
//! The law: for every program, legal placement, words that hold the program there with any jump that legality admits,
//! script for the array and number of clocks, the trace of the chips is that of the symbolic flow, with a cell for a
//! label.
//!
//! Contracts: `run`, `bad_shift`, `chip_matches_flow`.
#![tactic(auto)]

mod bench;
mod cell_text;
mod laws;
mod running;
mod shift_test;
mod word_at;

pub use laws::{chip_matches_flow, programs_have_graphs, words_of_a_placement};
pub use running::run;
pub use shift_test::bad_shift;
