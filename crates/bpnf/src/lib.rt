//! BPNF, the text form of a PROM's contents, in both directions. Layer: artefacts.
//!
//! `print` gives the one canonical text of an image. `read` takes exactly the texts that are as many frames as an
//! image has words, with comments before, between and after them, and reports the first fault of any other text. Each
//! text has just one reading, an image's words or a fault, and that of a printed text is the image that it was
//! printed from.
//!
//! Contracts: `read`, `print`, `each_text_has_one_reading`, `printed_text_is_read`.
#![tactic(auto)]

mod bytes;
mod fault;
mod frame;
mod laws;
mod printer;
mod prom;
mod reader;

pub use bytes::Bytes;
pub use fault::BpnfFault;
pub use laws::{each_text_has_one_reading, printed_text_is_read};
pub use printer::print;
pub use prom::Prom;
pub use reader::read;
