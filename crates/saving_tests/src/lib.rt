//! Tests of shelves and sinks, of files that are saved and read back, and of what commands reply. Layer: tests.
//!
//! They see the crates from outside. Standing here, they are proved without proving those crates once more.
#![tactic(auto)]

#[cfg(test)]
mod bench;
#[cfg(test)]
mod files;
#[cfg(test)]
mod reply_texts;
#[cfg(test)]
mod saved_words;
#[cfg(test)]
mod shelves;
