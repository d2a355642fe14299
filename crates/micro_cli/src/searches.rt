//! A placement by the pins or by a search, and what becomes of the answer.
ghost use Rattle.std.specs.Prelude.{◌≡◌, ◌≤◌, ◌<◌, ◌+◌, ◌^◌, length};
ghost use Rattle.io_base.specs.Shelf.{GoesOn, KeepsOthers};
ghost use Rattle.io_base.specs.Sink.{SinkGoesOn};
ghost use Rattle.flow_graph.specs.Graph.{graph_of};
ghost use Rattle.ref_text.specs.Text.{refutation_text, part_text};
ghost use Rattle.saved_files.specs.FileNames.{refutation_name, undecided_name};
ghost use Rattle.saved_files.specs.FilesOfAnswers.{refuted_files, undecided_files};
ghost use Rattle.replies.specs.Ending.{Ends};
ghost use Rattle.replies.specs.declared.status.Status.TheVariants as status;
ghost use Rattle.bench_answers.specs.RunOrder.{order_of};
ghost use Rattle.bench_answers.specs.Placed.{UnlessUnsaved};
ghost use Rattle.micro_cli.specs.Telling.{refuted_line, undecided_line};
ghost use Rattle.micro_cli.specs.Saving.{SavesOrCannot};
ghost use Rattle.micro_cli.specs.Searching.{SearchAnswer};
ghost use Rattle.micro_cli.specs.Keeping.{KeepsAllButAnswers};

use crate::answer_files::{refuted_file, save_and_tell, undecided_file};
use crate::command_words::CONFLICT_LIMIT;
use bench_answers::{PlacedRun, save_and_run};
use clause_base::{Clash, Line};
use clause_encode::clause_count;
use flow_graph::Program;
use io_base::{GIVEN_NAME_LIMIT, OutOfMemory, Shelf, Sink};
use place_model::{MapFault, pinned};
use placer::{Placed, place};
use refute_check::{printed_refutations_are_taken, refutation_texts_are_short};
use replies::{Status, say_no_memory};
use std::alloc::Global;

// Saves a refutation of a list of so many clauses, and tells of it.
fn save_refutation<S: Shelf, K: Sink>(
    alloc: Global,
    shelf: &mut S,
    out: &mut K,
    name: &str,
    clauses: u32,
    lines: &[Line],
) -> Status
    requires name_short { length name.now ≤ GIVEN_NAME_LIMIT }
    requires numbers { clauses + length lines.now < 2 ^ 32 }
    ensures ends { Ends (UnlessUnsaved (S.state shelf.old) (S.state shelf.new)
        (SavesOrCannot (refuted_files name.now (refutation_text clauses lines.now)) status.Refuted (refuted_line (length lines.now)) (S.state shelf.old) (S.state shelf.new)))
        (K.state out.old) (K.state out.new) result }
    ensures others { KeepsOthers (S.state shelf.old) (S.state shelf.new) (refutation_name name.now) }
    ensures goes_on { GoesOn (S.state shelf.old) (S.state shelf.new) }
    ensures sink_goes_on { SinkGoesOn (K.state out.old) (K.state out.new) }
{
    match refuted_file(alloc, name, clauses, lines) {
        Ok(file) => save_and_tell(shelf, out, Status::Refuted, file),
        Err(OutOfMemory) => say_no_memory(out),
    }
}

// Saves the lines and the clash of a budget that was spent on a list of so many clauses, and tells of it.
fn save_spent<S: Shelf, K: Sink>(
    alloc: Global,
    shelf: &mut S,
    out: &mut K,
    name: &str,
    clauses: u32,
    lines: &[Line],
    clash: &Clash,
    conflicts: u32,
) -> Status
    requires name_short { length name.now ≤ GIVEN_NAME_LIMIT }
    requires numbers { clauses + length lines.now < 2 ^ 32 }
    ensures ends { Ends (UnlessUnsaved (S.state shelf.old) (S.state shelf.new)
        (SavesOrCannot (undecided_files name.now (part_text clauses lines.now clash.now)) status.Undecided (undecided_line conflicts) (S.state shelf.old) (S.state shelf.new)))
        (K.state out.old) (K.state out.new) result }
    ensures others { KeepsOthers (S.state shelf.old) (S.state shelf.new) (undecided_name name.now) }
    ensures goes_on { GoesOn (S.state shelf.old) (S.state shelf.new) }
    ensures sink_goes_on { SinkGoesOn (K.state out.old) (K.state out.new) }
{
    match undecided_file(alloc, name, clauses, lines, clash, conflicts) {
        Ok(file) => save_and_tell(shelf, out, Status::Undecided, file),
        Err(OutOfMemory) => say_no_memory(out),
    }
}

// Searches for a placement of a program, and saves what the search answers.
fn search_and_save<S: Shelf, K: Sink>(
    alloc: Global,
    shelf: &mut S,
    out: &mut K,
    asked: PlacedRun<'_>,
    program: &Program,
    script_bytes: &[u8],
    conflicts: u32,
) -> Status
    requires out_short { length asked.out.now ≤ GIVEN_NAME_LIMIT }
    requires small { length script_bytes.now < 2 ^ 32 }
    requires conflicts { conflicts ≤ CONFLICT_LIMIT }
    ensures ends { Ends (SearchAnswer (order_of asked.entry script_bytes.now) conflicts (graph_of program.now) (S.state shelf.old) (S.state shelf.new))
        (K.state out.old) (K.state out.new) result }
    ensures others { KeepsAllButAnswers asked.entry.out.now (S.state shelf.old) (S.state shelf.new) }
    ensures goes_on { GoesOn (S.state shelf.old) (S.state shelf.new) }
    ensures sink_goes_on { SinkGoesOn (K.state out.old) (K.state out.new) }
{
    printed_refutations_are_taken();
    refutation_texts_are_short();
    let clauses = clause_count(program);
    match place(alloc, program, u64::from(conflicts)) {
        Ok(Placed::Found(placement)) => {
            save_and_run(alloc, shelf, out, asked, program, &placement, script_bytes)
        }
        Ok(Placed::Refuted(log)) => {
            save_refutation(alloc, shelf, out, asked.out, clauses, log.as_slice())
        }
        Ok(Placed::Undecided(log, clash)) => {
            let lines = log.as_slice();
            save_spent(
                alloc, shelf, out, asked.out, clauses, lines, &clash, conflicts,
            )
        }
        Err(OutOfMemory) => say_no_memory(out),
    }
}

/// Places a program by its pins where these give a legal placement, and else searches for one within a budget of
/// conflicts of at most 1,000,000. Saves what it finds: a placement as `save_and_run` saves and runs it; a refutation
/// as `OUT.ref`, told by `refuted L` for its L lines; or the lines and the clash of a spent budget of B conflicts as
/// `OUT.part`, told by `undecided B`.
///
/// A file that is not saved is told. No other file changes. Memory is refused before the first file is begun, or once
/// all files of a placement are saved.
pub fn place_and_save<S: Shelf, K: Sink>(
    alloc: Global,
    shelf: &mut S,
    out: &mut K,
    asked: PlacedRun<'_>,
    program: &Program,
    script_bytes: &[u8],
    conflicts: u32,
) -> Status
    requires out_short { length asked.out.now ≤ GIVEN_NAME_LIMIT }
    requires small { length script_bytes.now < 2 ^ 32 }
    requires conflicts { conflicts ≤ CONFLICT_LIMIT }
    ensures ends { Ends (SearchAnswer (order_of asked.entry script_bytes.now) conflicts (graph_of program.now) (S.state shelf.old) (S.state shelf.new))
        (K.state out.old) (K.state out.new) result }
    ensures others { KeepsAllButAnswers asked.entry.out.now (S.state shelf.old) (S.state shelf.new) }
    ensures goes_on { GoesOn (S.state shelf.old) (S.state shelf.new) }
    ensures sink_goes_on { SinkGoesOn (K.state out.old) (K.state out.new) }
{
    match pinned(alloc, program) {
        Ok(placement) => save_and_run(alloc, shelf, out, asked, program, &placement, script_bytes),
        // The pins give no legal placement, so one is searched for.
        Err(MapFault::At { .. }) => {
            search_and_save(alloc, shelf, out, asked, program, script_bytes, conflicts)
        }
        Err(MapFault::OutOfMemory) => say_no_memory(out),
    }
}

#[cfg(test)]
pub(crate) mod tests;
