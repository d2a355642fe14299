//! Files saved in order, one file grown by pieces, and what is told of a file that was not saved.

mod growing;
mod in_order;
mod telling;

use io_base::MemShelf;

/// What stands for a file that is not there.
const ABSENT: &[u8] = b"absent";

// Whether a file of the shelf holds just these bytes.
fn holds(shelf: &MemShelf, name: &str, bytes: &[u8]) -> bool {
    shelf.file(name).unwrap_or(ABSENT) == bytes
}
