//! The 3001's address matrix and its jumps: cells, the seven bits of a jump, where each jump leads, and which jump
//! serves a flow statement. Layer: chips.
//!
//! `next` and `landing` are the jump table of the 3001's data sheet, exactly, for every cell and each of the 128 jump
//! values; the row group of JCE is this project's own choice. So are the flow statements and the jumps that they
//! admit. `reach` gives the jump of least value that a statement admits and that lands on all given targets, and none
//! exactly where there is none. One target of a statement with several outcomes fixes the jump. No call takes memory.
//!
//! Contracts: `next`, `landing`, `admits`, `reach`, `one_jump_to_a_label`.
#![tactic(auto)]

mod addresses;
mod cells;
mod codes;
mod jumps;
mod kinds;
mod reaching;
mod readings;

pub use addresses::{landing, next};
pub use cells::Cell;
pub use codes::Code;
pub use jumps::Jump;
pub use kinds::Kind;
pub use reaching::{admits, one_jump_to_a_label, outcomes, reach};
pub use readings::Tests;
