//! The text of a refutation: printing its lines and a clash, and reading lines back in pieces. Layer: decision.
//!
//! The text of a line and of a clash is exact. A line's form is said of its whole bytes: its number, literals, 0,
//! hints, 0. A reader that is fed a text in pieces gives its lines, or the first that its text alone refuses, with
//! its cause, wherever the pieces are cut. Whether the hints of a line lead to a conflict is not asked here: the
//! checker does, line by line.
//!
//! Contracts: `print_line`, `print_clash`, `LineReader::feed`, `finish`, `cuts_make_no_difference`,
//! `whole_lines_are_told`, `printed_lines_are_read`.
#![tactic(auto)]

mod events;
mod forms;
mod laws;
mod line_reader;
mod literals;
mod printing;
mod why;
mod words;

pub use events::{Event, Fed};
pub use laws::{cuts_make_no_difference, printed_lines_are_read, whole_lines_are_told};
pub use line_reader::LineReader;
pub use printing::{print_clash, print_line};
pub use why::Why;
