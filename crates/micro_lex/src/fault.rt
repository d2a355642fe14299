//! Why a line gives no tokens.

ghost use Rattle.std.specs.Prelude.{◌≡◌};
ghost use Rattle.micro_lex.specs.declared.fault.LexFault.TheVariants.{OutOfMemory};

use std::alloc::{AllocError, AllocFailed};

/// The first faulty place of a line, by its column from 1, or want of memory.
///
/// The column is that of the byte, or of the first byte of the run.
#[derive(Clone, Copy, Debug, PartialEq, Eq)]
pub enum LexFault {
    /// A byte outside comments that is no space, no mark and no part of a run.
    BadByte(u32),
    /// A run that begins with a digit and is no number.
    BadNumber(u32),
    /// A number of 2^128 or more.
    NumberTooWide(u32),
    /// A name of more than 32 bytes.
    NameTooLong(u32),
    /// Memory was refused.
    OutOfMemory,
}

impl From<AllocError> for LexFault {
    ghost from_gives = { λ _ fault. fault ≡ OutOfMemory };

    fn from(_refusal: AllocError) -> LexFault {
        LexFault::OutOfMemory
    }
}

impl<T: Drop> From<AllocFailed<T>> for LexFault {
    ghost from_gives = { λ _ fault. fault ≡ OutOfMemory };

    fn from(_refusal: AllocFailed<T>) -> LexFault {
        LexFault::OutOfMemory
    }
}
