//! The 3002 Central Processing Element: a slice two bits wide, its function codes and its one clock. Layer: chips.
//!
//! `Slice::step` is proved to be the array step, the definition on whole words that `docs/machine.md` tells, at one
//! slice, for every function code and every register, with carry, shift link and both outputs; in the right shift for
//! a K bus of 0 alone. That bound, CO of functions 6 and 7, the 0 on a disabled output and the start state are this
//! project's own choice; all else that a slice does is Intel's data sheet. `step_follows_the_table` is the law that
//! the array step says what its table says, row by row: results, the registers that take them, MAR, links and FI. No
//! call takes memory.
//!
//! Contracts: `Slice::step`, `Fn7::of`, `step_follows_the_table`.
#![tactic(auto)]

mod function_code;
mod laws;
mod register;
mod slice;
mod step;

pub use function_code::Fn7;
pub use laws::step_follows_the_table;
pub use register::Reg;
pub use slice::Slice;
pub use step::SliceOut;
