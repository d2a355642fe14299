//! What a reader of refutation lines tells.

use crate::Why;

/// What a piece of the text brought.
#[derive(Clone, Copy, PartialEq, Eq, Debug)]
pub enum Event {
    /// The piece is used up, and no line ended in what was left of it; so too of an empty piece.
    More,
    /// A line was read; `LineReader::clause` and `hints` give it until the next call of `feed`.
    Line,
    /// The line of that place, counted from 1, is refused by its text: never as `NotUnit` or `NotFalse`.
    Bad(u64, Why),
    /// The text ended, and no line was begun.
    End,
}

/// How many bytes of a piece were used, and what they brought.
#[derive(Clone, Copy, PartialEq, Eq, Debug)]
pub struct Fed {
    /// How many bytes of the piece were used, from its front.
    pub used: usize,
    /// What they brought.
    pub event: Event,
}
