//! The trace of the bench, written line by line.
ghost use Rattle.std.specs.Prelude.{◌≡◌, ◌+◌, ◌^◌, ◌<◌, ◌≤◌, IfErr, OnOk, OnErr, Err, length};
ghost use Rattle.io_base.specs.Causes.{Rose};
ghost use Rattle.io_base.specs.Sink.{SinkGoesOn, Adds, AddsPrefix};
ghost use Rattle.mcu_jumps.specs.Position.{Position};
ghost use Rattle.field_decl.specs.Decls.{declaration_of};
ghost use Rattle.bus_script.specs.ScriptFits.{IsScriptFor};
ghost use Rattle.place_model.specs.MapText.{cell_text};
ghost use Rattle.prom_split.specs.Microword.{HasNoBadShift};
ghost use Rattle.flow_sim.specs.Machine.{IsMachineFor};
ghost use Rattle.flow_sim.specs.Runs.{IsCause};
ghost use Rattle.bus_bench.specs.BadShift.{IsFirstBadShift};
ghost use Rattle.bus_bench.specs.Chip.{buses_for, chip_step, clock_line, text_from, chip_text};

use crate::bench::Bench;
use crate::cell_text::cell_text;
use crate::shift_test::bad_shift;
use arrayvec::ArrayVec;
use bus_script::{Script, at, view_line};
use field_decl::Decl;
use flow_sim::RunFault;
use io_base::{Failed, OutOfMemory, Sink, put_all};
use prom_split::Words;
use std::alloc::Global;

// Does one clock, and makes its line.
#[tactic(auto, unfolding(crate::specs::Chip::clock_line))]
fn next_trace_line(
    words: &Words,
    decl: &Decl,
    script: &Script,
    bench: &mut Bench,
    line: &mut ArrayVec<u8, 2048>,
)
    requires script { IsScriptFor decl.now.slices script.now }
    requires words { HasNoBadShift words.now (declaration_of decl.now) }
    requires machine { IsMachineFor decl.now.slices bench.old.machine }
    requires early { bench.old.machine.clock + 1 < 2 ^ 32 }
    ensures line { line.new.items ≡ clock_line words.now (declaration_of decl.now) script.now bench.old }
    ensures state { bench.new ≡ chip_step words.now (declaration_of decl.now) bench.old (buses_for script.now bench.old) }
    ensures fits { IsMachineFor decl.now.slices bench.new.machine }
{
    let cell = bench.cell;
    let buses = at(script, bench.machine.clock);
    let view = bench.step(words, decl, &buses);
    view_line(cell_text(cell).as_slice(), &view, decl.slices, line);
}

// Writes the lines of so many clocks from a state on.
fn write_clocks<K: Sink>(
    words: &Words,
    decl: &Decl,
    script: &Script,
    clocks: u32,
    bench: &mut Bench,
    sink: &mut K,
) -> Result<(), Failed>
    requires script { IsScriptFor decl.now.slices script.now }
    requires words { HasNoBadShift words.now (declaration_of decl.now) }
    requires machine { IsMachineFor decl.now.slices bench.old.machine }
    requires early { bench.old.machine.clock + clocks < 2 ^ 32 }
    ensures ok { OnOk result (Adds (K.state sink.old) (K.state sink.new) (text_from words.now (declaration_of decl.now) script.now clocks bench.old)) }
    ensures err { OnErr result (AddsPrefix (K.state sink.old) (K.state sink.new) (text_from words.now (declaration_of decl.now) script.now clocks bench.old)) }
    ensures goes_on { SinkGoesOn (K.state sink.old) (K.state sink.new) }
    ensures cause { OnErr result (Rose (K.state sink.old).faults (K.state sink.new).faults) }
{
    let mut line = ArrayVec::new();
    for clock in 0..clocks {
        next_trace_line(words, decl, script, bench, &mut line);
        match put_all(sink, line.as_slice()) {
            Ok(()) => {}
            Err(Failed) => return Err(Failed),
        }
    }
    Ok(())
}

/// Runs the bench on these words for so many clocks, and writes a line for each clock, with its cell as `row.column`.
///
/// Any words are run, with any declaration, but for words that order the right shift with K bits other than 0: then the
/// first such cell is told, and nothing is written. After `Failed` a prefix of the text was written. Memory is taken
/// before the first byte is written.
pub fn run<K: Sink>(
    alloc: Global,
    words: &Words,
    decl: &Decl,
    script: &Script,
    clocks: u32,
    sink: &mut K,
) -> Result<(), RunFault>
    requires script { IsScriptFor decl.now.slices script.now }
    ensures ok { OnOk result (Adds (K.state sink.old) (K.state sink.new) (chip_text words.now (declaration_of decl.now) script.now clocks)) }
    ensures err { OnErr result (AddsPrefix (K.state sink.old) (K.state sink.new) (chip_text words.now (declaration_of decl.now) script.now clocks)) }
    ensures goes_on { SinkGoesOn (K.state sink.old) (K.state sink.new) }
    ensures cause { IfErr result (IsCause (IsFirstBadShift words.now (declaration_of decl.now)) (K.state sink.old) (K.state sink.new)) }
    ensures shift { (cell : Position) → IsFirstBadShift words.now (declaration_of decl.now) cell → result ≡ Err (RunFault.ShiftMask cell) }
{
    if let Some(cell) = bad_shift(words, decl) {
        return Err(RunFault::ShiftMask(cell));
    }
    let mut bench = match Bench::start(alloc, script) {
        Ok(bench) => bench,
        Err(OutOfMemory) => return Err(RunFault::OutOfMemory),
    };
    match write_clocks(words, decl, script, clocks, &mut bench, sink) {
        Ok(()) => Ok(()),
        Err(Failed) => Err(RunFault::Failed),
    }
}
