//! Why a run of a trace was given up.

use mcu_jumps::Cell;

/// A run was given up.
#[derive(Clone, Copy, Debug, PartialEq, Eq)]
pub enum RunFault {
    /// A write to the sink failed. A prefix of the text was written.
    Failed,
    /// The word of this cell orders the right shift with K bits other than 0, which is not modelled. The symbolic
    /// flow never answers it.
    ShiftMask(Cell),
    /// Memory was refused, before the first byte was written.
    OutOfMemory,
}
