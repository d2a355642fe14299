//! What the placement clauses of a program say, and what their variables mean, for the clauses' encoder and for every
//! proof about them. Layer: decision.
//!
//! `specs/Clauses` is the numbered list of clauses and `specs/Meaning` the truth value of each variable under a
//! placement. The lemmas show both ways that the list says when a placement is legal, whatever makes the list: each
//! legal placement makes every clause true, and whatever makes every clause true is a legal placement.
//!
//! Contracts: its lemmas, through `clause_encode`.
#![tactic(auto)]
