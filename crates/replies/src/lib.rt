//! Replies: how the program ends, the texts it ends with, and the steps that all commands share. Layer: answers.
//!
//! By a step a file is loaded, a source assembled or a script read, or the command stops with exactly the text that
//! says why not: a reply, which is a status with its text. `say`, `say_no_memory`, `say_stop` and `say_end` write a
//! text and end with its status. Which reply comes for which file is this project's own choice, and each step's
//! contract.
//!
//! Contracts: `load_file`, `load_source`, `load_script`, `say_end`.
#![tactic(auto)]

mod endings;
mod file_step;
mod kind_texts;
mod reply;
mod script_step;
mod source_step;
mod status;

pub use endings::{say, say_end, say_no_memory, say_stop};
pub use file_step::load_file;
pub use kind_texts::{refuse_asm, refuse_script};
pub use reply::{Reply, Stop, refuse, refuse_line, tell_unread};
pub use script_step::{SCRIPT_LIMIT, load_script, script_from};
pub use source_step::load_source;
pub use status::Status;
