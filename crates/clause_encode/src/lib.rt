//! The placement of a program as clauses, both ways: each legal placement makes every clause true, and whatever makes
//! every clause true is a legal placement. Layer: decision.
//!
//! `encode` builds the list of a program's clauses exactly, in its order; `clause_at` gives each of its clauses by
//! its number, without the list; `var_count` and `clause_count` are the counts of variables and clauses. A
//! `ClauseSource`, over a program or over a list, gives one clause at a time and counts the literals that it gives. `place_of`
//! reads off truth values the legal placement that they stand for, where they make every clause true. All are for
//! programs of up to 512 instructions.
//!
//! Contracts: `encode`, `clause_at`, `BlockEnds::clause`, `var_count`, `clause_count`, `place_of`, the trait `ClauseSource`.
#![tactic(auto)]

mod block_ends;
mod block_numbers;
mod blocks;
mod cells;
mod clause_shape;
mod clause_source;
mod decoding;
mod encoding;
mod first_label;
mod flows;
mod givens;
mod list_source;
mod numbered;
mod program_source;
mod reaching;
mod test_targets;
mod traps;
mod variable_numbers;

pub use block_ends::BlockEnds;
pub use clause_source::ClauseSource;
pub use decoding::place_of;
pub use encoding::{clause_count, encode, var_count};
pub use list_source::ListSource;
pub use numbered::clause_at;
pub use program_source::ProgramSource;
