//! What accepted lines say that name labels, each with its line.

ghost use Rattle.std.specs.Prelude.{◌≡◌};
ghost use Rattle.micro_asm.specs.Earlier.{has_label};

use crate::written_instruction::TargetNames;
use cpe_slice::Fn7;
use field_decl::{FieldValues, Name, Named, NamedTable};
use mcu_chip::FlagCtl;
use mcu_jumps::{Cell, Kind};

/// The label where the flow begins.
#[derive(Clone, Copy)]
pub struct StartLine {
    /// Its line in the source, from 1.
    pub line: u32,
    /// The name of the label.
    pub label: Name,
}

/// A label that is pinned to a cell.
#[derive(Clone, Copy)]
pub struct PinLine {
    /// Its line in the source, from 1.
    pub line: u32,
    /// The name of the label.
    pub label: Name,
    /// The cell that the label is pinned to.
    pub cell: Cell,
}

impl Named for PinLine {
    ghost name_of = { λ pin. pin.label };

    fn name(&self) -> Name {
        self.label.certified()
    }
}

/// Pins in source order, no two of one label.
pub type PinTable = NamedTable<PinLine>;

/// An instruction whose targets are names.
#[derive(Drop)]
pub struct NamedInstr {
    /// Its line in the source, from 1.
    pub line: u32,
    /// The name of its label.
    pub label: Name,
    /// The function code of the slices.
    pub func: Fn7,
    /// What the K bits put on the K bus, a bit for each bit of the slices, slice 0 lowest.
    pub mask: u32,
    /// Its flag functions.
    pub ctl: FlagCtl,
    /// The values of the user fields, in the fields' order.
    pub values: FieldValues,
    /// Its flow statement.
    pub kind: Kind,
    /// Where the outcomes lead, by name.
    pub targets: TargetNames,
}

impl Named for NamedInstr {
    ghost name_of = { λ instr. instr.label };

    fn name(&self) -> Name {
        self.label.certified()
    }
}

/// Instructions in source order, no two of one label.
pub type InstrTable = NamedTable<NamedInstr>;

/// Whether an instruction has this label.
pub fn has_label(instrs: &InstrTable, label: &Name) -> bool
    ensures { result ≡ has_label instrs.now label.now }
{
    instrs.has(label)
}
