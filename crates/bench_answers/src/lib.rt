//! What the bench answers: saved images are run, and a placement is saved, read back and run. Layer: answers.
//!
//! `run_saved` writes the trace of images that were saved, or the reply that tells the first file that is missing,
//! refused or not to be read. `save_and_run` saves a legal placement of a program, reads it back from the shelf and
//! runs it: which files stand after each fault, and that what was read back decides the reply. Over a shelf that
//! tells its files and is honest, what is read back is what was saved (`saved_is_read_back`), and it follows the
//! symbolic flow for every script and every number of clocks (`images_follow_the_flow`). Order and texts are this
//! project's own choice.
//!
//! Contracts: `run_saved`, `save_and_run`, `saved_is_read_back`, `images_follow_the_flow`.
#![tactic(auto)]

mod file_texts;
mod laws;
mod placed_runs;
mod saved_runs;
mod shift_refusal;
mod traces;

pub use laws::{images_follow_the_flow, saved_is_read_back};
pub use placed_runs::{PlacedRun, save_and_run};
pub use saved_runs::run_saved;
