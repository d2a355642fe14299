//! What the 3001 holds between two clocks, and what it shows in one.
use mcu_jumps::Cell;
use std::marker::Model;

/// The registers of the 3001. Before the first clock the cell is row 0, column 0, and all else is 0
/// (this project's own choice).
#[derive(Clone, Copy, Debug, PartialEq, Eq)]
pub struct Mcu {
    /// The present cell.
    pub cell: Cell,
    /// The F latch: the last flag input.
    pub f: bool,
    /// The C flag.
    pub c: bool,
    /// The Z flag.
    pub z: bool,
    /// The PR latch, below 16.
    pub pr: u8,
}

impl Model for Mcu {
    ghost use Rattle.std.specs.Prelude.{◌<◌};
    ghost use Rattle.mcu_chip.specs.ChipState.{ChipState};

    ghost Value = { ChipState };

    ghost view = { λ m. record { cell = m.cell; f = m.f; c = m.c; z = m.z; pr = m.pr } };

    ghost invariant = { λ m. m.pr < 16 };

    ghost inverse = { λ s. record { cell = s.cell; f = s.f; c = s.c; z = s.z; pr = s.pr } };
}

/// What one clock of the 3001 leaves and shows.
#[derive(Clone, Copy, Debug, PartialEq, Eq)]
pub struct McuOut {
    /// The registers after the clock.
    pub mcu: Mcu,
    /// Whether the interrupt strobe is active: under JZR with operand 15 alone (data sheet).
    pub ise: bool,
    /// The PR outputs PR2..PR0, 0 to 7, where they are enabled: under JCE alone (this project's own choice).
    pub pr_out: Option<u8>,
}
