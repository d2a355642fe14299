//! The checker's answer for a refutation's text, and why a file gets none.

use ref_text::Why;

/// What the checker answers for a text.
#[derive(Clone, Copy, PartialEq, Eq, Debug)]
pub enum Checked {
    /// So many lines were read to the end, each derived, and the last has no literal.
    Refutes(u64),
    /// The line of that place, counted from 1, is the first that is refused.
    Rejected(u64, Why),
    /// So many lines were read to the end, each derived and none without literals.
    Derived(u64),
}

/// Why a file gets no answer.
#[derive(Clone, Copy, PartialEq, Eq, Debug)]
pub enum CheckFault {
    /// A read failed.
    Failed,
    /// The name is not there.
    NoFile,
    /// More than 2^43 bytes were taken, and no line that ends within the first 2^43 is refused.
    TooLong,
    /// Memory was refused.
    OutOfMemory,
}
