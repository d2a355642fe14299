//! Labels that are named and that no instruction has.

ghost use Rattle.std.specs.Prelude.{◌≡◌, not, find, option_map};
ghost use Rattle.std.specs.List.{list_any};
ghost use Rattle.micro_asm.specs.Earlier.{has_label};
ghost use Rattle.micro_asm.specs.Source.{is_unknown, unknown_start, unknown_pin, unknown_target, first_line};

use crate::accepted_lines::{InstrTable, NamedInstr, PinLine, StartLine, has_label};
use field_decl::Name;

// Whether a target is a label that no instruction has.
fn is_unknown(instrs: &InstrTable, target: &Option<Name>) -> bool
    ensures { result ≡ is_unknown instrs.now target.now }
{
    match target {
        Some(label) => !has_label(instrs, label),
        None => false,
    }
}

/// The line of the start, where it names an unknown label.
pub fn unknown_start(instrs: &InstrTable, start: &StartLine) -> Option<u32>
    ensures { result ≡ unknown_start instrs.now start.now }
{
    if has_label(instrs, &start.label) {
        None
    } else {
        Some(start.line)
    }
}

/// The line of the first pin that names an unknown label.
pub fn unknown_pin(instrs: &InstrTable, pins: &[PinLine]) -> Option<u32>
    ensures { result ≡ unknown_pin instrs.now pins.now }
{
    for pin in pins {
        if !has_label(instrs, &pin.label) {
            return Some(pin.line);
        }
    }
    None
}

fn has_unknown(instrs: &InstrTable, targets: &[Option<Name>]) -> bool
    ensures { result ≡ list_any (is_unknown instrs.now) targets.now }
{
    targets.iter().any(|target| is_unknown(instrs, target))
}

// The line of the first of these instructions that has an unknown target.
fn first_unknown_target(table: &InstrTable, instrs: &[NamedInstr]) -> Option<u32>
    ensures { result ≡ option_map (λ instr. instr.line) (find (λ instr. list_any (is_unknown table.now) instr.targets) instrs.now) }
{
    for instr in instrs {
        if has_unknown(table, instr.targets.as_slice()) {
            return Some(instr.line);
        }
    }
    None
}

/// The line of the first instruction with an unknown target.
pub fn unknown_target(instrs: &InstrTable) -> Option<u32>
    ensures { result ≡ unknown_target instrs.now }
{
    first_unknown_target(instrs, instrs.as_slice())
}

/// The lesser of two lines.
pub fn first_line(line: Option<u32>, other: Option<u32>) -> Option<u32>
    ensures { result ≡ first_line line other }
{
    match (line, other) {
        (None, other) => other,
        (line, None) => line,
        (Some(line), Some(other)) => if other < line {
            Some(other)
        } else {
            Some(line)
        },
    }
}
