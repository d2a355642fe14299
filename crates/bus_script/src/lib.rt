//! Bus scripts and trace lines: what the outside puts on the buses of an array in each clock, and what one clock
//! looks like in a trace. Layer: language.
//!
//! A script line is judged against all earlier ones. `read_script` gives just the memory words and the buses that a
//! text names, or its first refused line with its cause. `at` and `initial` answer for every clock and every address
//! of the memory; `view_line` writes exactly the line of a clock. Both formats are this project's own choice.
//!
//! Contracts: `read_script`, `at`, `initial`, `view_line`.
#![tactic(auto)]

mod buses;
mod clock_line;
mod clock_view;
mod digits;
mod fault;
mod line;
mod reading;
mod script;
mod setting;
mod trace_line;

pub use buses::Buses;
pub use clock_view::ClockView;
pub use fault::{ScriptFault, ScriptKind};
pub use reading::read_script;
pub use script::{Script, at, initial};
pub use trace_line::view_line;
