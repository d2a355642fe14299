//! An instruction, as it is written.

use crate::operation::Operation;
use crate::setting::Settings;
use field_decl::Name;
use io_base::Listed;

/// The targets of a flow statement by name, in the order of its outcomes; None is the trap.
pub type TargetNames = Listed<Option<Name>>;

/// An instruction, as it is written; nothing in it is judged yet.
#[derive(Drop)]
pub struct WrittenInstr {
    /// The name before the `:`.
    pub label: Name,
    /// What the slices do.
    pub operation: Operation,
    /// The flag functions and the values of user fields that it gives.
    pub settings: Settings,
    /// The name of the flow statement.
    pub flow: Name,
    /// Where the outcomes lead.
    pub targets: TargetNames,
}
