//! Tests of programs as machines: jumps, chips' clocks, slices, arrays, maps, words and images, the symbolic flow, words on the bench. Layer: tests.
//!
//! They see the crates from outside. Standing here, they are proved without proving those crates once more.
#![tactic(auto)]

#[cfg(test)]
mod arrays;
#[cfg(test)]
mod benches;
#[cfg(test)]
mod chip_clocks;
#[cfg(test)]
mod flows;
#[cfg(test)]
mod jumps;
#[cfg(test)]
mod maps;
#[cfg(test)]
mod slices;
#[cfg(test)]
mod texts;
#[cfg(test)]
mod words;
