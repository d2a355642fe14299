//! The targets of a flow statement, one for each outcome.

use io_base::Listed;

/// Where each outcome leads, in the outcomes' order: a label, the place of an instruction in source
/// order, or none for the trap.
pub type Targets = Listed<Option<u16>>;
