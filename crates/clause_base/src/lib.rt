//! Literals, clause lists, truth values, and the lines of a refutation: the words that the search, the refutation text
//! and the checker share. Layer: decision.
//!
//! `ClauseList`, on one flat pool of literals, gives back just the clauses that were added, by their numbers from 1.
//!
//! A clause list is what a contract sees: a number of variables and a list of clauses. What a derived line, a
//! refutation, a clash and a spent budget are is said in `specs/Refutation` and `specs/Spent` of clauses and lines
//! alone, whatever a search or a checker keeps beside them, with worked examples as proved facts. Wherever the clauses
//! are true, a derived line is: `proofs/DerivedLemmas`.
//!
//! Contracts: `ClauseList::add`, `ClauseList::get`.
#![tactic(auto)]

mod clash;
mod clause_list;
mod entry;
mod line;
mod lit;
mod truths;

pub use clash::Clash;
pub use clause_list::ClauseList;
pub use entry::{Entries, Entry};
pub use line::{Line, Log, Numbers};
pub use lit::{Lit, Lits};
pub use truths::Truths;
