//! Tests of tokens, layouts, sources, scripts and PROM texts, each with what it says or its refusal. Layer: tests.
//!
//! They see the crates from outside. Standing here, they are proved without proving those crates once more.
#![tactic(auto)]

#[cfg(test)]
mod cases;
#[cfg(test)]
mod layouts;
#[cfg(test)]
mod prom_texts;
#[cfg(test)]
mod scripts;
#[cfg(test)]
mod sources;
#[cfg(test)]
mod tokens;
