//! The trace of saved images on the bench.
ghost use Rattle.std.specs.Prelude.{◌≡◌, ◌≤◌, MatchResult, IfOk, length};
ghost use Rattle.io_base.specs.Shelf.{GoesOn, CountsNoChange};
ghost use Rattle.io_base.specs.Sink.{SinkGoesOn};
ghost use Rattle.field_decl.specs.Decls.{declaration_of};
ghost use Rattle.bus_script.specs.ScriptFits.{IsScriptFor};
ghost use Rattle.replies.specs.Ending.{Ends, OrNoMemory, StopsBy};
ghost use Rattle.bench_answers.specs.Running.{BenchInputsReply, BenchReply, HasBench, RunReply};

use crate::shift_refusal::refuse_shift;
use crate::traces::write_trace;
use bus_bench::bad_shift;
use bus_script::Script;
use io_base::{GIVEN_NAME_LIMIT, NAME_LIMIT, Shelf, Sink};
use prom_files::{SavedWords, load_words};
use replies::{Status, Stop, load_script, say_stop};
use std::alloc::Global;

/// Words that were saved, and a script for their array.
#[derive(Drop)]
struct BenchInputs {
    saved: SavedWords,
    script: Script,
}

// Loads saved words and a script, or stops with the reply that refuses the first that is not had.
fn load_bench<S: Shelf>(
    alloc: Global,
    shelf: &mut S,
    out: &str,
    script: &str,
) -> Result<BenchInputs, Stop>
    requires out_short { length out.now ≤ GIVEN_NAME_LIMIT }
    requires script_short { length script.now ≤ NAME_LIMIT }
    ensures step { MatchResult result
        (λ inputs. HasBench out.now script.now (S.state shelf.old) (S.state shelf.new) (declaration_of inputs.saved.decl) inputs.saved.words inputs.script)
        (StopsBy (BenchInputsReply out.now script.now (S.state shelf.old) (S.state shelf.new))) }
    ensures fits { IfOk result (λ inputs. IsScriptFor inputs.saved.decl.slices inputs.script) }
    ensures same { (S.state shelf.new).file ≡ (S.state shelf.old).file }
    ensures no_change { CountsNoChange (S.state shelf.old) (S.state shelf.new) }
    ensures goes_on { GoesOn (S.state shelf.old) (S.state shelf.new) }
{
    let saved = match load_words(alloc, shelf, out) {
        Ok(saved) => saved,
        Err(stop) => return Err(stop),
    };
    match load_script(alloc, shelf, script, saved.decl.slices) {
        Ok(script) => Ok(BenchInputs { saved, script }),
        Err(stop) => Err(stop),
    }
}

// Writes the trace of saved words on the bench, or what refuses them.
fn write_run<K: Sink>(
    alloc: Global,
    name: &str,
    inputs: &BenchInputs,
    clocks: u32,
    out: &mut K,
) -> Status
    requires { IsScriptFor inputs.now.saved.decl.slices inputs.now.script }
    ensures ends { Ends (OrNoMemory (BenchReply name.now (declaration_of inputs.now.saved.decl) inputs.now.saved.words inputs.now.script clocks)) (K.state out.old) (K.state out.new) result }
    ensures sink_goes_on { SinkGoesOn (K.state out.old) (K.state out.new) }
{
    match bad_shift(&inputs.saved.words, &inputs.saved.decl) {
        Some(cell) => say_stop(out, refuse_shift(alloc, name, cell)),
        None => write_trace(alloc, &inputs.saved, &inputs.script, clocks, out),
    }
}

/// Answers `run OUT SCRIPT clocks=N`: the trace of the images saved under `name`, or the reply that refuses the first
/// file that is not had, or the first cell whose word orders the right shift with K bits other than 0. `name` is one
/// that may be given, so that with its suffixes it fits a shelf, and `script` one that a shelf takes. No file changes.
pub fn run_saved<S: Shelf, K: Sink>(
    alloc: Global,
    shelf: &mut S,
    out: &mut K,
    name: &str,
    script: &str,
    clocks: u32,
) -> Status
    requires out_short { length name.now ≤ GIVEN_NAME_LIMIT }
    requires script_short { length script.now ≤ NAME_LIMIT }
    ensures ends { Ends (OrNoMemory (RunReply name.now script.now clocks (S.state shelf.old) (S.state shelf.new)))
        (K.state out.old) (K.state out.new) result }
    ensures same { (S.state shelf.new).file ≡ (S.state shelf.old).file }
    ensures no_change { CountsNoChange (S.state shelf.old) (S.state shelf.new) }
    ensures goes_on { GoesOn (S.state shelf.old) (S.state shelf.new) }
    ensures sink_goes_on { SinkGoesOn (K.state out.old) (K.state out.new) }
{
    match load_bench(alloc, shelf, name, script) {
        Ok(inputs) => write_run(alloc, name, &inputs, clocks, out),
        Err(stop) => say_stop(out, stop),
    }
}
