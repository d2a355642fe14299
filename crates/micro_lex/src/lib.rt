//! Lines of a text and tokens of a line, as sources, layouts and scripts share them. Layer: language.
//!
//! `next_line` cuts a text into its lines. `tokens` gives just the tokens of a line with their places, or just the
//! first faulty place with its column. The lexical form is this project's own choice.
//!
//! Contracts: `tokens`, `next_line`.
#![tactic(auto)]

mod alphabet;
mod digits;
mod fault;
mod line_tokens;
mod lines;
mod runs;
mod token;

pub use fault::LexFault;
pub use line_tokens::tokens;
pub use lines::{LineSpan, next_line};
pub use token::{Token, TokenKind};
