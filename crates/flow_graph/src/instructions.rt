//! Instructions: what one line of the source says.
ghost use Rattle.std.specs.Prelude.{◌≡◌, Some, is_some, position, length};
ghost use Rattle.mcu_jumps.specs.Landing.{outcomes_of};
ghost use Rattle.flow_graph.specs.Targets.{HasLabel};

use crate::Targets;
use cpe_slice::Fn7;
use field_decl::{FieldValues, Name};
use io_base::Listed;
use mcu_chip::FlagCtl;
use mcu_jumps::Kind;

/// An instruction: what its line of the source says, in a program. Its jump is not fixed before the
/// labels have cells.
#[derive(Drop)]
pub struct Instr {
    /// The name of its label.
    pub name: Name,
    /// Its line in the source, from 1.
    pub line: u32,
    /// The function code of the slices.
    pub func: Fn7,
    /// What the K bits put on the K bus, a bit for each bit of the slices, slice 0 lowest.
    pub mask: u32,
    /// Its flag functions.
    pub ctl: FlagCtl,
    /// The values of the user fields, in the fields' order.
    pub values: FieldValues,
    /// Its flow statement: what decides between its targets.
    pub kind: Kind,
    /// Where each outcome leads.
    pub targets: Targets,
}

/// The instructions of a program, in source order. The place of one is its label.
pub type Instrs = Listed<Instr>;

// The first outcome whose target is a label.
fn first_label(targets: &[Option<u16>]) -> Option<usize>
    ensures { result ≡ position is_some targets.now }
{
    targets.iter().position(|target| target.is_some())
}

/// The first outcome, from 0, whose target is a label.
pub fn first_real(instr: &Instr) -> u8
    requires count { length instr.now.targets ≡ outcomes_of instr.now.kind }
    requires label { HasLabel instr.now.targets }
    ensures { position is_some instr.now.targets ≡ Some result }
{
    match first_label(instr.targets.as_slice()) {
        Some(outcome) => outcome as u8,
        None => unreachable!(),
    }
}
