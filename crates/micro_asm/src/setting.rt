//! The settings of an instruction, as they are written.

use field_decl::Name;
use io_base::Listed;

/// A setting of an instruction, as it is written.
#[derive(Clone, Copy)]
pub enum Setting {
    /// The name of a flag function.
    Flag(Name),
    /// The name of a field, and its value.
    Value(Name, u128),
}

/// Settings in the order of their line.
pub type Settings = Listed<Setting>;
