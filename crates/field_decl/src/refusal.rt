//! Why a line and a text are refused, over the kinds of refusal of any language that is read line by line.

ghost use Rattle.std.specs.Prelude.{◌≡◌};
ghost use Rattle.field_decl.specs.Results.{fault_at};

use std::alloc::{AllocError, AllocFailed};

/// Why one line is not taken: it is refused, or memory is wanting.
#[derive(Clone, Copy, Debug, PartialEq, Eq)]
pub enum LineRefusal<K> {
    /// The line is refused.
    Kind(K),
    /// Memory was refused.
    OutOfMemory,
}

/// Why a text is not taken: a line is refused, or memory is wanting.
#[derive(Clone, Copy, Debug, PartialEq, Eq)]
pub enum Refusal<K> {
    /// A line is refused.
    At {
        /// The first refused line, from 1, or 0 for what the whole text lacks.
        line: u32,
        /// What is wrong in it.
        kind: K,
    },
    /// Memory was refused.
    OutOfMemory,
}

impl<K> From<AllocError> for LineRefusal<K> {
    ghost use Rattle.std.specs.Prelude.{◌≡◌};
    ghost use Rattle.field_decl.specs.declared.refusal.LineRefusal.TheVariants.{OutOfMemory};

    ghost from_gives = { λ _ fault. fault ≡ OutOfMemory };

    fn from(_refusal: AllocError) -> LineRefusal<K> {
        LineRefusal::OutOfMemory
    }
}

impl<K, T: Drop> From<AllocFailed<T>> for LineRefusal<K> {
    ghost use Rattle.std.specs.Prelude.{◌≡◌};
    ghost use Rattle.field_decl.specs.declared.refusal.LineRefusal.TheVariants.{OutOfMemory};

    ghost from_gives = { λ _ fault. fault ≡ OutOfMemory };

    fn from(_refusal: AllocFailed<T>) -> LineRefusal<K> {
        LineRefusal::OutOfMemory
    }
}

impl<K> From<AllocError> for Refusal<K> {
    ghost use Rattle.std.specs.Prelude.{◌≡◌};
    ghost use Rattle.field_decl.specs.declared.refusal.Refusal.TheVariants.{OutOfMemory};

    ghost from_gives = { λ _ fault. fault ≡ OutOfMemory };

    fn from(_refusal: AllocError) -> Refusal<K> {
        Refusal::OutOfMemory
    }
}

/// The fault, in its line.
pub fn fault_at<K>(line: u32, fault: LineRefusal<K>) -> Refusal<K>
    ensures { result ≡ fault_at line fault }
{
    match fault {
        LineRefusal::Kind(kind) => Refusal::At { line, kind },
        LineRefusal::OutOfMemory => Refusal::OutOfMemory,
    }
}
