//! Tests of clauses, trails, boards, searches, refutations' texts and their checks. Layer: tests.
//!
//! They see the crates from outside. Standing here, they are proved without proving those crates once more.
#![tactic(auto)]

#[cfg(test)]
mod boards;
#[cfg(test)]
mod checks;
#[cfg(test)]
mod checks_in_pieces;
#[cfg(test)]
mod clause_laws;
#[cfg(test)]
mod clause_lists;
#[cfg(test)]
mod lists;
#[cfg(test)]
mod model_tables;
#[cfg(test)]
mod programs;
#[cfg(test)]
mod refutation_texts;
#[cfg(test)]
mod searches;
#[cfg(test)]
mod trails;
#[cfg(test)]
mod watches;
