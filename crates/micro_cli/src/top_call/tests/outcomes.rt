//! What may come of a command in which one call on the shelf or the sink fails, by rules that know no command.

use super::end_of;
use io_base::{CallKind, MemShelf, MemSink, OutOfMemory};
use replies::Status;
use std::alloc::Global;

/// A command, and what it is run on.
pub struct Case {
    /// The words of the command.
    pub words: &'static [&'static str],
    /// The source, `s`.
    pub source: &'static [u8],
    /// The script, `t`.
    pub script: &'static [u8],
    /// The words of a command that is run before it, none where there are none, and the files that it leaves for this one.
    pub before: &'static [&'static str],
    /// These files' names.
    pub left: &'static [&'static str],
    /// The names of the files that the command saves, in their order.
    pub saves: &'static [&'static str],
}

/// Which call of a command is to fail, counted from 1.
#[derive(Clone, Copy)]
pub enum Failing {
    /// None.
    Nothing,
    /// A call of this kind on the shelf.
    Call(CallKind, u32),
    /// A write.
    Write(u32),
}

/// How a command ended, what it printed, and the shelf that it left.
#[derive(Drop)]
pub struct Run {
    /// Its status.
    pub status: Status,
    /// What it printed.
    pub text: Vec<u8>,
    /// The shelf.
    pub shelf: MemShelf,
}

/// The shelf on which a case is run.
pub fn shelf_of(alloc: Global, case: &Case) -> Result<MemShelf, OutOfMemory> {
    let mut earlier = MemShelf::new(alloc);
    earlier.put_file("s", case.source)?;
    earlier.put_file("t", case.script)?;
    if !case.before.is_empty() {
        let mut out = MemSink::new(alloc);
        let _ = end_of(alloc, &mut earlier, &mut out, case.before)?;
    }
    let mut shelf = MemShelf::new(alloc);
    shelf.put_file("s", case.source)?;
    shelf.put_file("t", case.script)?;
    for name in case.left {
        if let Some(bytes) = earlier.file(name) {
            shelf.put_file(name, bytes)?;
        }
    }
    Ok(shelf)
}

/// Runs a case in which a call is to fail, with reads of at most so many bytes, at least 1.
pub fn run_case(
    alloc: Global,
    case: &Case,
    failing: Failing,
    piece: usize,
) -> Result<Run, OutOfMemory> {
    let mut shelf = shelf_of(alloc, case)?;
    let mut out = MemSink::new(alloc);
    shelf.set_piece(piece.max(1));
    match failing {
        Failing::Nothing => {}
        Failing::Call(kind, number) => shelf.fail(kind, number)?,
        Failing::Write(number) => out.fail(number)?,
    }
    let status = end_of(alloc, &mut shelf, &mut out, case.words)?;
    Ok(Run {
        status,
        text: Vec::from_slice(alloc, out.bytes())?,
        shelf,
    })
}

// Whether two files hold the same, or neither is there.
fn is_same(one: Option<&[u8]>, other: Option<&[u8]>) -> bool {
    match (one, other) {
        (Some(a), Some(b)) => a == b,
        (None, None) => true,
        _ => false,
    }
}

// Whether a file is as it was, or a part of what was to be saved.
fn is_part(old: Option<&[u8]>, whole: Option<&[u8]>, now: Option<&[u8]>) -> bool {
    match (whole, now) {
        (Some(all), Some(held)) => all.starts_with(held) || is_same(old, now),
        _ => is_same(old, now),
    }
}

/// The place of the first file that is not whole, where those before it are, it is as it was or has a part of its text, and
/// those behind it are as they were; the number of files where all are whole.
fn saved_up_to(case: &Case, whole: &Run, old: &MemShelf, now: &MemShelf) -> Option<usize> {
    let mut first = case.saves.len();
    for (place, name) in case.saves.iter().enumerate() {
        let (before, held) = (old.file(name), now.file(name));
        let all = whole.shelf.file(name);
        if first < place {
            if !is_same(before, held) {
                return None;
            }
        } else if !is_same(all, held) {
            if !is_part(before, all, held) {
                return None;
            }
            first = place;
        }
    }
    Some(first)
}

// Whether the files that a command only reads are as they were.
fn inputs_stay(case: &Case, old: &MemShelf, now: &MemShelf) -> bool {
    let left = case
        .left
        .iter()
        .all(|name| is_same(old.file(name), now.file(name)));
    is_same(old.file("s"), now.file("s")) && is_same(old.file("t"), now.file("t")) && left
}

// The name that a text of one line tells behind these words.
fn name_behind<'a>(words: &[u8], text: &'a [u8]) -> Option<&'a [u8]> {
    text.strip_prefix(words)?.strip_suffix(b"\n")
}

// Whether a text says that this file was not saved, or that one was not read before the first was saved or after the last.
fn tells_fault(case: &Case, first: usize, text: &[u8]) -> bool {
    if let Some(name) = name_behind(b"cannot save ", text) {
        return first < case.saves.len() && case.saves[first].as_bytes() == name;
    }
    match name_behind(b"cannot read ", text) {
        Some(name) => !name.is_empty() && (first == 0 || first == case.saves.len()),
        None => false,
    }
}

/// Whether a run in which one call failed ended as it may, beside a run in which none did.
pub fn may_come(case: &Case, whole: &Run, old: &MemShelf, now: &Run) -> bool {
    let Some(first) = saved_up_to(case, whole, old, &now.shelf) else {
        return false;
    };
    let told = match now.status {
        Status::ShelfFault => tells_fault(case, first, &now.text),
        Status::SinkFault => first == case.saves.len() && whole.text.starts_with(&now.text),
        _ => false,
    };
    told && inputs_stay(case, old, &now.shelf)
}

/// Whether a run ended as another did, with the same text and the same files.
pub fn is_as(case: &Case, whole: &Run, old: &MemShelf, now: &Run) -> bool {
    let all = case.saves.iter().all(|name| is_same(whole.shelf.file(name), now.shelf.file(name)));
    now.status == whole.status
        && now.text == whole.text
        && all
        && inputs_stay(case, old, &now.shelf)
}
