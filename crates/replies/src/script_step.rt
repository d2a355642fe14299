//! The step that reads a script.
ghost use Rattle.std.specs.Prelude.{◌≡◌, ◌≤◌, ◌<◌, ◌^◌, MatchResult, Ok, IfOk, length};
ghost use Rattle.io_base.specs.Shelf.{GoesOn, CountsNoChange};
ghost use Rattle.bus_script.specs.Script.{script_of};
ghost use Rattle.bus_script.specs.ScriptFits.{IsScriptFor};
ghost use Rattle.replies.specs.Ending.{StopsBy};
ghost use Rattle.replies.specs.ScriptStep.{HasScript, RefusesScript, ScriptReply};

use crate::file_step::load_file;
use crate::kind_texts::refuse_script;
use crate::reply::Stop;
use bus_script::{Script, ScriptFault, read_script};
use io_base::{NAME_LIMIT, Shelf};
use std::alloc::Global;

/// The most bytes of a script: 4 MiB.
pub const SCRIPT_LIMIT: u64 = 4_194_304;

/// Reads a script's bytes for an array of so many slices, or stops with the reply that refuses them under the name.
pub fn script_from(alloc: Global, name: &str, bytes: &[u8], slices: u8) -> Result<Script, Stop>
    requires small { length bytes.now < 2 ^ 32 }
    requires some { 1 ≤ slices }
    requires most { slices ≤ 16 }
    ensures step { MatchResult result
        (λ script. script_of slices bytes.now ≡ Ok script)
        (StopsBy (RefusesScript name.now slices bytes.now)) }
    ensures fits { IfOk result (IsScriptFor slices) }
{
    match read_script(alloc, bytes, slices) {
        Ok(script) => Ok(script),
        Err(ScriptFault::At { line, kind }) => Err(refuse_script(alloc, name, line, kind)),
        Err(ScriptFault::OutOfMemory) => Err(Stop::OutOfMemory),
    }
}

/// Loads and reads a script for an array of so many slices, or stops with the reply that refuses it.
pub fn load_script<S: Shelf>(
    alloc: Global,
    shelf: &mut S,
    name: &str,
    slices: u8,
) -> Result<Script, Stop>
    requires short { length name.now ≤ NAME_LIMIT }
    requires some { 1 ≤ slices }
    requires most { slices ≤ 16 }
    ensures step { MatchResult result
        (λ script. HasScript name.now slices (S.state shelf.old) (S.state shelf.new) script)
        (StopsBy (ScriptReply name.now slices (S.state shelf.old) (S.state shelf.new))) }
    ensures fits { IfOk result (IsScriptFor slices) }
    ensures same { (S.state shelf.new).file ≡ (S.state shelf.old).file }
    ensures no_change { CountsNoChange (S.state shelf.old) (S.state shelf.new) }
    ensures goes_on { GoesOn (S.state shelf.old) (S.state shelf.new) }
{
    match load_file(alloc, shelf, name, SCRIPT_LIMIT) {
        Ok(bytes) => match script_from(alloc, name, &bytes, slices) {
            Ok(script) => Ok(script),
            Err(stop) => Err(stop),
        },
        Err(stop) => Err(stop),
    }
}
