//! A script, read line by line.

ghost use Rattle.std.specs.Prelude.{◌≡◌, ◌<◌, ◌≤◌, ◌^◌, [], length, IfOk};
ghost use Rattle.micro_lex.specs.Lines.{lines};
ghost use Rattle.field_decl.specs.Results.{GivesText};
ghost use Rattle.bus_script.specs.Script.{script_by, script_of};
ghost use Rattle.bus_script.specs.ScriptFits.{IsScriptFor};
ghost use Rattle.bus_script.specs.ScriptSteps.{after_lines};

use crate::fault::ScriptFault;
use crate::line::take_line;
use crate::script::Script;
use field_decl::fault_at;
use micro_lex::next_line;
use std::alloc::Global;

// Takes all lines of a script.
#[tactic(auto, unfolding(field_decl::specs::LineByLine::lines_taken))]
fn take_lines(alloc: Global, bytes: &[u8], slices: u8) -> Result<Script, ScriptFault>
    requires small { length bytes.now < 2 ^ 32 }
    requires slices { slices ≤ 16 }
    ensures { GivesText (λ script. script) result (after_lines slices (script_by []) 1 (lines bytes.now)) }
{
    let mut script = Script::new(alloc);
    let mut at = 0;
    let mut number = 0u32;
    while let Some(span) = next_line(bytes, at) {
        number += 1;
        let line = &bytes[span.start..span.end];
        match take_line(alloc, slices, &mut script, number, line) {
            Ok(()) => {}
            Err(fault) => return Err(fault_at(number, fault)),
        }
        at = span.after;
    }
    Ok(script)
}

/// Reads a bus script for an array of this many slices, or gives its first refused line.
///
/// Its lines are `mem ADDRESS VALUE`, which names the memory's value before the first clock,
/// `clk KEY = NUMBER ..`, which gives the buses of the next clock by the keys `m`, `i`, `px` and
/// `sx`, and empty ones. Addresses are 0 to 4,095, and a script has at most 65,536 lines. All values of
/// the script fit the array.
pub fn read_script(alloc: Global, bytes: &[u8], slices: u8) -> Result<Script, ScriptFault>
    requires small { length bytes.now < 2 ^ 32 }
    requires some { 1 ≤ slices }
    requires most { slices ≤ 16 }
    ensures exact { GivesText (λ script. script) result (script_of slices bytes.now) }
    ensures fits { IfOk result (IsScriptFor slices) }
{
    take_lines(alloc, bytes, slices)
}
