//! The entries of a trail.

use crate::Lit;
use io_base::Listed;

/// An assigned literal: decided, with reason 0, or implied by the clause whose number is its reason.
#[derive(Clone, Copy, PartialEq, Eq, Debug)]
pub struct Entry {
    /// The literal, which is true.
    pub lit: Lit,
    /// How many decisions stand at or before it.
    pub level: u32,
    /// The number of the clause that implied it, from 1; 0 for a decision.
    pub reason: u32,
}

/// Entries in the order in which they were assigned.
pub type Entries = Listed<Entry>;
