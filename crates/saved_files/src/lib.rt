//! Saving texts on a shelf, in order, each file by one `create` and then appends. Layer: artefacts.
//!
//! Where no call fails, each file holds just its bytes and all others stay; after a fault the files before it stand
//! whole, the file is as it was or holds a prefix of its bytes, and all others stay. What is said of a file's bytes
//! holds over a shelf that tells its files and is honest. No memory is taken while files are saved. `save_all` and
//! `save_file` use one append for a file; `begin_file` and `grow_file` also serve a file that is written piece by
//! piece, which the program does not do.
//!
//! Contracts: `save_all`, `save_file`.
#![tactic(auto)]

mod laws;
mod names;
mod one_file;
mod placement_files;
mod saving;
mod text;
mod unsaved;

pub use laws::one_written_file_is_saved;
pub use names::{image_name, layout_name, map_name, refutation_name, undecided_name};
pub use one_file::{begin_file, grow_file, save_file};
pub use placement_files::placed_files;
pub use saving::save_all;
pub use text::Text;
pub use unsaved::{room_for_unsaved, say_unsaved};
