//! What a jump may test in the clock in which it is executed.
use std::marker::Model;

/// The values that jumps test: the flags, the PR latch and the PX bus. What is tested is the data
/// sheet's; that F holds this clock's flag input is the order of events that this project fixes.
#[derive(Clone, Copy, Debug, PartialEq, Eq)]
pub struct Tests {
    /// The F latch, which holds this clock's flag input.
    pub f: bool,
    /// The C flag, as the clock begins.
    pub c: bool,
    /// The Z flag, as the clock begins.
    pub z: bool,
    /// The PR latch, as the clock begins, below 16.
    pub pr: u8,
    /// The value on PX7..PX4, below 16.
    pub px: u8,
}

impl Model for Tests {
    ghost use Rattle.std.specs.Prelude.{◌<◌};
    ghost use Rattle.mcu_jumps.specs.Readings.{Readings};

    ghost Value = { Readings };

    ghost view = { λ t. record { f = t.f; c = t.c; z = t.z; pr = t.pr; px = t.px } };

    ghost invariant = { λ t. (t.pr < 16) × (t.px < 16) };

    ghost inverse = { λ r. record { f = r.f; c = r.c; z = r.z; pr = r.pr; px = r.px } };
}
