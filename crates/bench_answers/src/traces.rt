//! The trace of words on which the bench runs.
ghost use Rattle.io_base.specs.Sink.{SinkGoesOn};
ghost use Rattle.field_decl.specs.Decls.{declaration_of};
ghost use Rattle.bus_script.specs.ScriptFits.{IsScriptFor};
ghost use Rattle.prom_split.specs.Microword.{HasNoBadShift};
ghost use Rattle.replies.specs.Ending.{Ends, OrNoMemory};
ghost use Rattle.bench_answers.specs.Running.{IsRun};

use bus_bench::run;
use bus_script::Script;
use flow_sim::RunFault;
use io_base::Sink;
use prom_files::SavedWords;
use replies::{Status, say_no_memory};
use std::alloc::Global;

/// Writes the trace of words that order no right shift with K bits other than 0.
pub(crate) fn write_trace<K: Sink>(
    alloc: Global,
    saved: &SavedWords,
    script: &Script,
    clocks: u32,
    out: &mut K,
) -> Status
    requires fits { IsScriptFor saved.now.decl.slices script.now }
    requires no_bad_shift { HasNoBadShift saved.now.words (declaration_of saved.now.decl) }
    ensures ends { Ends (OrNoMemory (IsRun (declaration_of saved.now.decl) saved.now.words script.now clocks)) (K.state out.old) (K.state out.new) result }
    ensures sink_goes_on { SinkGoesOn (K.state out.old) (K.state out.new) }
{
    match run(alloc, &saved.words, &saved.decl, script, clocks, out) {
        Ok(()) => Status::Done,
        Err(RunFault::Failed) => Status::SinkFault,
        Err(RunFault::OutOfMemory) => say_no_memory(out),
        // No word orders such a shift.
        Err(RunFault::ShiftMask(_)) => unreachable!(),
    }
}
