//! Cases from a number: a source of 128 labels and a bus script, and the program that it is. Layer: artefacts.
//!
//! `make_case` writes the two texts of a number. Its clauses say that the assembler's definition accepts the source with
//! just the program that `specs/CaseProgram` describes, that the script's definition accepts the script, and that the
//! placement named there is legal. `flow_sum` is the sum over the symbolic flow by which a case is told. What a case
//! looks like is this project's own choice.
#![tactic(auto)]

mod cases;
mod choices;
mod draws;
mod instruction_text;
mod read_cases;
mod script_text;
mod source_text;
mod sums;

pub use cases::{Case, make_case};
pub use read_cases::{ReadCase, read_case};
pub use sums::flow_sum;
