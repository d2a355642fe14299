//! The 3001 itself in one clock: flags, PR latch, interrupt strobe and next address. Layer: chips.
//!
//! `step` is the data sheet's clock exactly: flags, latch, strobe, outputs and next cell. The order of events is the
//! one that this project fixes: the F latch takes the flag input before the next address is formed, while C, Z and
//! the PR latch are tested as they stood. The values of FC3..FC0, the PR outputs under JCE and the start state are
//! this project's own choice too. No call takes memory.
//!
//! Contracts: `step`, `fo`, `flag_out`, `next_c`, `next_z`.
#![tactic(auto)]

mod chip;
mod clock;
mod flags;

pub use chip::{Mcu, McuOut};
pub use clock::{flag_out, fo, next_c, next_z, step};
pub use flags::{FlagCtl, FlagIn, FlagOut};
