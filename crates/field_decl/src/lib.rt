//! Declarations: the chips and the microword that a program is for, and the layout file. Layer: language.
//!
//! A directive is judged against all earlier ones. `read_decl` gives just what a layout text declares, or its first
//! refused line with its cause; `print_decl` writes a text that reads as the same declaration. A `Decl` fits together
//! by its type. By `spread` and `gather` K bits and the mask that they drive give each other back; `line_words` gives
//! the words of a line. `AsmKind` has the refusals of whole sources too, since a layout's lines are a source's. The
//! language is this project's own choice.
//!
//! Contracts: `read_decl`, `print_decl`, `spread`, `gather`.
#![tactic(auto)]

mod decl;
mod decl_state;
mod directive;
mod fault;
mod field;
mod field_values;
mod kbits;
mod layout;
mod layout_text;
mod microword;
mod name;
mod named_table;
mod refusal;
mod word;

pub use decl::Decl;
pub use decl_state::DeclState;
pub use directive::{Directive, directive_form};
pub use fault::{AsmKind, DeclFault, LineFault};
pub use field::{Field, Fields};
pub use field_values::FieldValues;
pub use kbits::{gather, has_kbits, kbits_give_masks, spread};
pub use layout::read_decl;
pub use layout_text::print_decl;
pub use microword::{prom_count, word_width};
pub use name::Name;
pub use named_table::{Named, NamedTable};
pub use refusal::{LineRefusal, Refusal, fault_at};
pub use word::{Word, line_words, words_from};
