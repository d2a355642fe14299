//! The search for a model of a clause list, and so for a placement of a program, within a budget of conflicts. Layer:
//! decision.
//!
//! Every answer of a search is certified by what it carries: a model makes every clause true; a refuted log is a
//! refutation, of at most one line more than the budget; and where the budget is spent there are exactly the budget's
//! lines, each new, with a clash that shows that no decision came before propagation was complete. On a program's
//! list: a legal placement, or such a certificate; where it is refuted, no placement is legal.
//!
//! Clauses and budget are together fewer than 2^32 - 1. A budget of at least 3^v, v being the number of variables,
//! decides; that speaks of small lists, of up to 20 variables, and of no program's.
//!
//! Contracts: `analyse`, `search`, `place`.
#![tactic(auto)]

mod board_readings;
mod conflict_analysis;
mod label_ties;
mod learning;
mod order;
mod placing;
mod program_orders;
mod searching;
mod turns;
mod workspace;

pub use learning::{Learnt, analyse};
pub use placing::{Placed, place};
pub use searching::{Verdict, search};
