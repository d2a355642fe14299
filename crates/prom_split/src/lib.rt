//! Microwords and PROM images: what a program writes into each cell once it is placed, and how the words lie in PROMs
//! that stand side by side. Layer: artefacts.
//!
//! `word_of` and `words_of` give the words of a legal placement, that of each cell, by the sum of their parts;
//! `parts` takes any word apart. `split` writes the words into images bit by bit and `join` reads them back: what is
//! joined from the images of some words is these words. Where each part and each bit stands is this project's own
//! choice.
//!
//! Contracts: `word_of`, `words_of`, `parts`, `split`, `join`, `each_bit_is_saved`, `joined_images_are_the_words`.
#![tactic(auto)]

mod field_bits;
mod joining;
mod laws;
mod low_bits;
mod placed_words;
mod splitting;
mod word_list;
mod word_parts;

pub use joining::{JoinFault, join};
pub use laws::{each_bit_is_saved, joined_images_are_the_words, placed_words_hold_the_program};
pub use placed_words::{word_of, words_of};
pub use splitting::split;
pub use word_list::Words;
pub use word_parts::{WordParts, parts};
