//! Unit propagation over a clause list. Layer: decision.
//!
//! A board holds a list of clauses and the literals that are assigned over it. It keeps that each implied literal is
//! the one unassigned literal of its reason, which was unit before it, and that propagation was complete at every
//! level below the present one: no decision is made while a clause is unit or false. `settle` propagates: it ends
//! where each clause is true or has two unassigned literals, or with a false clause. It, `decide`, `back_to` and
//! `learn` keep these facts.
//!
//! Contracts: `Board::settle`, `learn`, `decide`, `back_to`.
#![tactic(auto)]

mod attaching;
mod board;
mod clause_status;
mod pairs;
mod propagation;
mod scan;
mod visits;
mod watch_lists;

pub use board::{Board, Settled};
