//! The refusal of words that order the right shift with K bits other than 0.
ghost use Rattle.std.specs.Prelude.{◌≡◌, IfOk};
ghost use Rattle.replies.specs.Texts.{Refuses};
ghost use Rattle.replies.specs.Ending.{StopsBy};
ghost use Rattle.bench_answers.specs.Running.{shift_reason};

use io_base::OutOfMemory;
use itoa::Buffer;
use mcu_jumps::Cell;
use replies::{Stop, refuse};
use std::alloc::Global;

// A cell whose word orders the right shift with K bits other than 0.
fn shift_reason(alloc: Global, cell: Cell) -> Result<Vec<u8>, OutOfMemory>
    ensures { IfOk result (λ text. text.items ≡ shift_reason cell) }
{
    let mut text = Vec::from_slice(alloc, b"cell ")?;
    text.extend_from_slice(Buffer::new().format(cell.row()).as_bytes())?;
    text.extend_from_slice(b".")?;
    text.extend_from_slice(Buffer::new().format(cell.col()).as_bytes())?;
    text.extend_from_slice(b" ShiftMask")?;
    Ok(text)
}

/// Refuses an output for the word of a cell.
pub(crate) fn refuse_shift(alloc: Global, out: &str, cell: Cell) -> Stop
    ensures { StopsBy (Refuses out.now (shift_reason cell)) result }
{
    match shift_reason(alloc, cell) {
        Ok(why) => refuse(alloc, out, &why),
        Err(OutOfMemory) => Stop::OutOfMemory,
    }
}
