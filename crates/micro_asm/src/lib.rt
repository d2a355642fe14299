//! The assembler: a source with symbolic flow read as a program, or refused. Layer: language.
//!
//! `assemble` gives just the program that a source means, for the whole language, or just its first refused line with
//! its cause. Each line is judged against all earlier lines; labels that no instruction has are told at the end. The
//! language is this project's own choice.
//!
//! Contracts: `assemble`.
#![tactic(auto)]

mod accepted_lines;
mod fault;
mod finishing;
mod flow_names;
mod instruction;
mod instruction_form;
mod mnemonics;
mod operation;
mod operations;
mod setting;
mod settings;
mod source;
mod source_line;
mod source_line_form;
mod source_state;
mod unknown_labels;
mod written_instruction;

pub use fault::AsmFault;
pub use source::assemble;
