//! Lines of sources and scripts as pieces: spaces, marks, names and decimal numbers. Layer: language.
//!
//! `specs/Pieces` says what is written for a piece and as which word it is read, and the lemmas show that a line of
//! pieces is read as just its words, whatever makes the text. So a writer of sources states its text by pieces, and the
//! assembler's definition gives what it means. The text form is this project's own choice.
#![tactic(auto)]

mod writing;

pub use writing::write_number;
