//! Why a text is refused.

/// The first fault of a text that is no image's, or want of memory. Positions are byte numbers from 0.
#[derive(Clone, Copy, Debug, PartialEq, Eq)]
pub enum BpnfFault {
    /// In a frame, the byte at this position should be a letter, or should be `F`, and is not.
    BadLetter(usize),
    /// The text ends inside the frame whose `B` is at this position.
    CutWord(usize),
    /// The text ends outside a frame after this many frames, fewer than an image has words.
    TooFew(u16),
    /// A `B` at this position follows as many whole frames as an image has words.
    TooMany(usize),
    /// Memory was refused.
    OutOfMemory,
}
