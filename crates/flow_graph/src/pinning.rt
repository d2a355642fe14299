//! Pins: labels whose cell the source fixes.

use io_base::Listed;
use mcu_jumps::Cell;

/// A label that is pinned to a cell.
#[derive(Clone, Copy, Debug, PartialEq, Eq)]
pub struct Pin {
    /// The label, an instruction's place in source order from 0.
    pub label: u16,
    /// Its cell.
    pub cell: Cell,
}

/// The pins of a program, in source order.
pub type Pins = Listed<Pin>;
