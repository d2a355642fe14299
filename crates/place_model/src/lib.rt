//! Placements: which cell each instruction stands in, when that is legal, which jump each instruction then becomes,
//! and the map text that shows both. Layer: meaning.
//!
//! `legal` is the definition of a legal placement, exactly, for all ten flow statements and the trap. `pinned` gives
//! the placement of the pins where it is legal, and else exactly the first reason why it is not. The map text is
//! exact.
//!
//! Contracts: `legal`, `pinned`, `jump_of`, `map_text`.
#![tactic(auto)]

mod faults;
mod jumping;
mod legality;
mod map_texts;
mod pinned_cells;
mod placements;

pub use faults::{MapFault, MapKind};
pub use jumping::jump_of;
pub use legality::legal;
pub use map_texts::map_text;
pub use pinned_cells::pinned;
pub use placements::Placement;
