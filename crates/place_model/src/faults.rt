//! Why pins give no legal placement.

use field_decl::Refusal;

/// What is wrong at an instruction.
#[derive(Clone, Copy, Debug, PartialEq, Eq)]
pub enum MapKind {
    /// Its label has no pin.
    Unpinned,
    /// An earlier instruction's label has its cell.
    SameCell,
    /// Its row is not below the row bound.
    RowBound,
    /// It is the start, and its cell is not row 0, column 0.
    StartCell,
    /// No jump that its flow statement admits lands as its targets ask.
    NoJump,
}

/// Why there is no pinned placement, with the line of the first instruction at fault.
pub type MapFault = Refusal<MapKind>;
