//! The files of microwords: the layout and the PROM images of an output, read from a shelf and joined. Layer:
//! answers.
//!
//! `load_words` gives the declaration and the words that the files hold, or stops the command with the reply that
//! tells the first file that is missing, refused or not to be read. Names, limits and replies are this project's own
//! choice.
//!
//! Contracts: `load_words`.
#![tactic(auto)]

mod images_step;
mod layout_step;
mod words_step;

pub use words_step::{SavedWords, load_words};
