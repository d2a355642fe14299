//! The symbolic flow: a program run by its labels, with registers, flags and memory as whole words. Layer: meaning.
//!
//! `flow_step` is one clock of the flow, on whole words and labels, as it is defined, and `flow_run` writes exactly
//! the trace; the flow knows no cell. What flow and bench share stands here too: the registers, flags and memory
//! (`Machine`), what a word orders (`Order`), what the array answers (`array_answer`), and why a run was given up
//! (`RunFault`, which names a cell for the bench alone). The memory of a run is taken before its first byte is
//! written.
//!
//! Contracts: `flow_step`, `flow_run`.
#![tactic(auto)]

mod answering;
mod field_values;
mod flow_state;
mod instruction;
mod machine;
mod order;
mod order_of;
mod run_fault;
mod running;
mod statement;
mod stepping;

pub use answering::{ArrayAnswer, array_answer};
pub use flow_state::FlowState;
pub use machine::Machine;
pub use order::{Order, writes};
pub use run_fault::RunFault;
pub use running::flow_run;
pub use stepping::flow_step;
