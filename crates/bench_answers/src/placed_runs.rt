//! A placement is saved as images, read back and run.
ghost use Rattle.std.specs.Prelude.{◌≡◌, ◌≤◌, ◌<◌, ◌^◌, [], Some, length, slice_get, vec_capacity};
ghost use Rattle.io_base.specs.Shelf.{GoesOn, CountsNoChange};
ghost use Rattle.io_base.specs.Sink.{SinkGoesOn};
ghost use Rattle.field_decl.specs.Decls.{declaration_of};
ghost use Rattle.flow_graph.specs.Graph.{graph_of};
ghost use Rattle.bus_script.specs.ScriptFits.{IsScriptFor};
ghost use Rattle.place_model.specs.Legal.{IsLegal};
ghost use Rattle.prom_split.specs.Microword.{HasNoBadShift};
ghost use Rattle.saved_files.specs.SavedFile.{SavedFile};
ghost use Rattle.saved_files.specs.Unsaved.{cannot_save};
ghost use Rattle.saved_files.specs.Saving.{AreApart, AreShort, KeepsAllBut};
ghost use Rattle.replies.specs.Ending.{Ends, Says};
ghost use Rattle.bench_answers.specs.RunOrder.{order_of};
ghost use Rattle.bench_answers.specs.PlacedFiles.{KeepsOtherFiles};
ghost use Rattle.bench_answers.specs.ReadingBack.{BackReply, IsPlacedRun, MayRun, OrWants, ShiftOrRun};
ghost use Rattle.bench_answers.specs.Placed.{FilesAnswer, PlacedAnswer, UnlessUnsaved};

use crate::file_texts::files_of;
use crate::shift_refusal::refuse_shift;
use crate::traces::write_trace;
use bus_bench::bad_shift;
use bus_script::Script;
use flow_graph::Program;
use io_base::{Failed, GIVEN_NAME_LIMIT, OutOfMemory, Shelf, Sink, put_all};
use place_model::Placement;
use prom_files::{SavedWords, load_words};
use replies::{Status, say, say_no_memory, say_stop, script_from};
use saved_files::{Text, room_for_unsaved, save_all, say_unsaved};
use std::alloc::Global;

/// Where a placement is saved and how it is run.
#[derive(Clone, Copy)]
pub struct PlacedRun<'a> {
    /// The name of the output, of at most `GIVEN_NAME_LIMIT` bytes.
    pub out: &'a str,
    /// The name of the script, which a refusal of its bytes tells; the file is not read again.
    pub script: &'a str,
    /// How many clocks are run; the command line allows 0 to 65,536.
    pub clocks: u32,
}

// Writes `placed` and the trace of words that were read back.
fn write_placed<K: Sink>(
    alloc: Global,
    saved: &SavedWords,
    script: &Script,
    clocks: u32,
    out: &mut K,
) -> Status
    requires fits { IsScriptFor saved.now.decl.slices script.now }
    requires no_bad_shift { HasNoBadShift saved.now.words (declaration_of saved.now.decl) }
    ensures ends { Ends (OrWants (HasNoBadShift saved.now.words (declaration_of saved.now.decl)) (IsPlacedRun (declaration_of saved.now.decl) saved.now.words script.now clocks)) (K.state out.old) (K.state out.new) result }
    ensures sink_goes_on { SinkGoesOn (K.state out.old) (K.state out.new) }
{
    match put_all(out, b"placed\n") {
        Ok(()) => write_trace(alloc, saved, script, clocks, out),
        Err(Failed) => Status::SinkFault,
    }
}

// Runs words that were read back, or refuses them for their shift.
fn run_back<K: Sink>(
    alloc: Global,
    name: &str,
    saved: &SavedWords,
    script: &Script,
    clocks: u32,
    out: &mut K,
) -> Status
    requires { IsScriptFor saved.now.decl.slices script.now }
    ensures ends { Ends (OrWants (HasNoBadShift saved.now.words (declaration_of saved.now.decl)) (ShiftOrRun name.now (declaration_of saved.now.decl) saved.now.words script.now clocks)) (K.state out.old) (K.state out.new) result }
    ensures sink_goes_on { SinkGoesOn (K.state out.old) (K.state out.new) }
{
    match bad_shift(&saved.words, &saved.decl) {
        Some(cell) => say_stop(out, refuse_shift(alloc, name, cell)),
        None => write_placed(alloc, saved, script, clocks, out),
    }
}

// Reads back what was saved and runs it under the script's bytes, or replies what refuses it.
fn read_back<S: Shelf, K: Sink>(
    alloc: Global,
    shelf: &mut S,
    out: &mut K,
    asked: PlacedRun<'_>,
    bytes: &[u8],
) -> Status
    requires out_short { length asked.out.now ≤ GIVEN_NAME_LIMIT }
    requires small { length bytes.now < 2 ^ 32 }
    ensures ends { Ends (OrWants (MayRun (order_of asked.entry bytes.now) (S.state shelf.old) (S.state shelf.new)) (BackReply (order_of asked.entry bytes.now) (S.state shelf.old) (S.state shelf.new)))
        (K.state out.old) (K.state out.new) result }
    ensures same { (S.state shelf.new).file ≡ (S.state shelf.old).file }
    ensures no_change { CountsNoChange (S.state shelf.old) (S.state shelf.new) }
    ensures goes_on { GoesOn (S.state shelf.old) (S.state shelf.new) }
    ensures sink_goes_on { SinkGoesOn (K.state out.old) (K.state out.new) }
{
    match load_words(alloc, shelf, asked.out) {
        Ok(saved) => match script_from(alloc, asked.script, bytes, saved.decl.slices) {
            Ok(script) => run_back(alloc, asked.out, &saved, &script, asked.clocks, out),
            Err(stop) => say_stop(out, stop),
        },
        Err(stop) => say_stop(out, stop),
    }
}

// Tells that the file at a place was not saved, in the room that was taken for that.
fn tell_unsaved<K: Sink>(out: &mut K, unsaved: &mut Vec<u8>, files: &[Text], place: usize) -> Status
    requires place { place < length files.now }
    requires short { AreShort files.now }
    requires empty { unsaved.old.items ≡ [] }
    requires room { 240 ≤ vec_capacity unsaved.old }
    ensures says { (file : SavedFile) → slice_get files.now place ≡ Some file → Says Status.ShelfFault (cannot_save file.name) (K.state out.old) (K.state out.new) result }
    ensures sink_goes_on { SinkGoesOn (K.state out.old) (K.state out.new) }
{
    say_unsaved(unsaved, files[place].name());
    say(out, Status::ShelfFault, unsaved)
}

// Saves the files of a placement, reads them back and runs them. That a file was not saved is told without memory.
fn save_files<S: Shelf, K: Sink>(
    alloc: Global,
    shelf: &mut S,
    out: &mut K,
    asked: PlacedRun<'_>,
    bytes: &[u8],
    files: &[Text],
) -> Status
    requires out_short { length asked.out.now ≤ GIVEN_NAME_LIMIT }
    requires small { length bytes.now < 2 ^ 32 }
    requires apart { AreApart files.now }
    requires short { AreShort files.now }
    ensures ends { Ends (UnlessUnsaved (S.state shelf.old) (S.state shelf.new)
        (FilesAnswer (order_of asked.entry bytes.now) files.now (S.state shelf.old) (S.state shelf.new)))
        (K.state out.old) (K.state out.new) result }
    ensures others { KeepsAllBut (S.state shelf.old) (S.state shelf.new) files.now (length files.now) }
    ensures goes_on { GoesOn (S.state shelf.old) (S.state shelf.new) }
    ensures sink_goes_on { SinkGoesOn (K.state out.old) (K.state out.new) }
{
    let mut unsaved = match room_for_unsaved(alloc) {
        Ok(text) => text,
        Err(OutOfMemory) => return say_no_memory(out),
    };
    match save_all(shelf, files) {
        Ok(()) => read_back(alloc, shelf, out, asked, bytes),
        Err(place) => tell_unsaved(out, &mut unsaved, files, place),
    }
}

/// Saves a legal placement of a program as `OUT.map`, `OUT.lay` and its images, reads layout and images back from the
/// shelf, and runs them under the script's bytes, which are read for the declaration that was read back: `placed`, LF
/// and the trace.
///
/// Where a file is not saved it is told, and what is read back is refused as `run` refuses it. No other file changes.
/// Memory is refused before the first file is begun, or once all are saved.
pub fn save_and_run<S: Shelf, K: Sink>(
    alloc: Global,
    shelf: &mut S,
    out: &mut K,
    asked: PlacedRun<'_>,
    program: &Program,
    placement: &Placement,
    script_bytes: &[u8],
) -> Status
    requires out_short { length asked.out.now ≤ GIVEN_NAME_LIMIT }
    requires small { length script_bytes.now < 2 ^ 32 }
    requires legal { IsLegal (graph_of program.now) placement.now }
    ensures ends { Ends (PlacedAnswer (order_of asked.entry script_bytes.now) (graph_of program.now) placement.now (S.state shelf.old) (S.state shelf.new))
        (K.state out.old) (K.state out.new) result }
    ensures others { KeepsOtherFiles asked.entry.out.now (S.state shelf.old) (S.state shelf.new) }
    ensures goes_on { GoesOn (S.state shelf.old) (S.state shelf.new) }
    ensures sink_goes_on { SinkGoesOn (K.state out.old) (K.state out.new) }
{
    match files_of(alloc, asked.out, program, placement) {
        Ok(files) => save_files(alloc, shelf, out, asked, script_bytes, &files),
        Err(OutOfMemory) => say_no_memory(out),
    }
}
