//! The clash that ends a search whose budget is spent.

use crate::Entries;

/// Assigned literals, and the number of a clause that is false under them.
#[derive(Drop)]
pub struct Clash {
    /// The assigned literals, with the level and the reason of each.
    pub steps: Entries,
    /// The number of the false clause, from 1.
    pub clause: u32,
}
