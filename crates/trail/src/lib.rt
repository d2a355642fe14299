//! Assigned literals with levels and reasons. Layer: decision.
//!
//! A trail holds the literals that a search has decided and those that clauses then imply, in order. It keeps that no
//! variable is assigned twice, that levels never fall, and that each level from 1 begins with its one decision. The
//! truth value of a literal is one look-up, and only `Trail::new` takes memory.
//!
//! Contracts: `Trail::decide`, `imply`, `back_to`, `value`.
#![tactic(auto)]

mod trail;

pub use trail::Trail;
