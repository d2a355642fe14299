//! The one file of a search that found no placement, made whole before it is begun, with what is told of it.
ghost use Rattle.std.specs.Prelude.{◌≡◌, ◌≤◌, ◌<◌, ◌+◌, ◌^◌, ◌∷◌, [], IfOk, length, string_bytes, vec_capacity};
ghost use Rattle.io_base.specs.Shelf.{GoesOn, KeepsOthers};
ghost use Rattle.io_base.specs.Sink.{SinkGoesOn};
ghost use Rattle.ref_text.specs.Text.{refutation_text, part_text};
ghost use Rattle.saved_files.specs.FileNames.{refutation_name, undecided_name};
ghost use Rattle.saved_files.specs.FilesOfAnswers.{file_of};
ghost use Rattle.replies.specs.Ending.{Ends};
ghost use Rattle.micro_cli.specs.Telling.{refuted_line, undecided_line};
ghost use Rattle.micro_cli.specs.Saving.{IsReady, SavesOrCannot};

use crate::search_texts::{part_text, refutation_text, refuted_line, undecided_line};
use clause_base::{Clash, Line};
use io_base::{Failed, NAME_LIMIT, OutOfMemory, Shelf, Sink};
use replies::{Status, say};
use saved_files::{
    one_written_file_is_saved, refutation_name, room_for_unsaved, save_file, say_unsaved,
    undecided_name,
};
use std::alloc::Global;

/// A file that is to be saved, the line that tells of it, and the room for telling that it was not saved.
#[derive(Drop)]
pub(crate) struct AnswerFile {
    name: String,
    text: Vec<u8>,
    told: Vec<u8>,
    unsaved: Vec<u8>,
}

/// The file `OUT.ref` of a refutation of a list of so many clauses.
pub(crate) fn refuted_file(
    alloc: Global,
    out: &str,
    clauses: u32,
    lines: &[Line],
) -> Result<AnswerFile, OutOfMemory>
    requires { clauses + length lines.now < 2 ^ 32 }
    ensures { IfOk result (λ file. IsReady file (refutation_name out.now) (refutation_text clauses lines.now) (refuted_line (length lines.now))) }
{
    Ok(AnswerFile {
        name: refutation_name(alloc, out)?,
        text: refutation_text(alloc, clauses, lines)?,
        told: refuted_line(alloc, lines.len())?,
        unsaved: room_for_unsaved(alloc)?,
    })
}

/// The file `OUT.part` of a budget that was spent on a list of so many clauses.
pub(crate) fn undecided_file(
    alloc: Global,
    out: &str,
    clauses: u32,
    lines: &[Line],
    clash: &Clash,
    conflicts: u32,
) -> Result<AnswerFile, OutOfMemory>
    requires { clauses + length lines.now < 2 ^ 32 }
    ensures { IfOk result (λ file. IsReady file (undecided_name out.now) (part_text clauses lines.now clash.now) (undecided_line conflicts)) }
{
    Ok(AnswerFile {
        name: undecided_name(alloc, out)?,
        text: part_text(alloc, clauses, lines, clash)?,
        told: undecided_line(alloc, conflicts)?,
        unsaved: room_for_unsaved(alloc)?,
    })
}

/// Saves the file and tells of it by a status and its line, or tells that it was not saved. It takes no memory.
pub(crate) fn save_and_tell<S: Shelf, K: Sink>(
    shelf: &mut S,
    out: &mut K,
    status: Status,
    mut file: AnswerFile,
) -> Status
    requires short { length (string_bytes file.name) ≤ NAME_LIMIT }
    requires empty { file.unsaved.items ≡ [] }
    requires room { 240 ≤ vec_capacity file.unsaved }
    ensures ends { Ends (SavesOrCannot (file_of (string_bytes file.name) file.text.items ∷ []) status file.told.items (S.state shelf.old) (S.state shelf.new))
        (K.state out.old) (K.state out.new) result }
    ensures others { KeepsOthers (S.state shelf.old) (S.state shelf.new) (string_bytes file.name) }
    ensures goes_on { GoesOn (S.state shelf.old) (S.state shelf.new) }
    ensures sink_goes_on { SinkGoesOn (K.state out.old) (K.state out.new) }
{
    one_written_file_is_saved();
    match save_file(shelf, file.name.as_str(), &file.text) {
        Ok(()) => say(out, status, &file.told),
        Err(Failed) => {
            say_unsaved(&mut file.unsaved, file.name.as_str());
            say(out, Status::ShelfFault, &file.unsaved)
        }
    }
}
