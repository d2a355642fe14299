//! What a microword orders of slices, flags and memory.

ghost use Rattle.std.specs.Prelude.{◌≡◌};
ghost use Rattle.std.specs.Option.{option_copied};
ghost use Rattle.flow_graph.specs.Order.{is_one, writes};

use cpe_slice::Fn7;
use mcu_chip::FlagCtl;
use std::marker::Model;

/// What a microword orders of one clock, but for its jump.
#[derive(Drop)]
pub struct Order {
    /// The function code of the slices.
    pub func: Fn7,
    /// What stands on the K bus, a bit for each bit of the slices, slice 0 lowest.
    pub mask: u32,
    /// The flag functions.
    pub ctl: FlagCtl,
    /// Whether the memory takes AC at the clock's end.
    pub write: bool,
}

impl Model for Order {
    ghost use Rattle.flow_graph.specs.Order.{Order};

    ghost Value = { Order };

    ghost view = { λ order. record { func = order.func; mask = order.mask; ctl = order.ctl; write = order.write } };
}

/// Whether the declared write field has the value 1 among these.
pub fn writes(write: Option<u8>, values: &[u32]) -> bool
    ensures { result ≡ writes write values.now }
{
    match write {
        Some(place) => is_one(values.get(place as usize)),
        None => false,
    }
}

// Whether there is a value, and it is 1.
fn is_one(value: Option<&u32>) -> bool
    ensures { result ≡ is_one (option_copied value.entry) }
{
    match value {
        Some(value) => *value == 1,
        None => false,
    }
}
