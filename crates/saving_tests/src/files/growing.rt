//! A file that grows by lines, each printed into one buffer.
ghost use Rattle.std.specs.Prelude.{◌≡◌, ◌≤◌, ◌++◌, ◌∷◌, [], length, flat_map, decimal, IfOk, OnOk};
ghost use Rattle.saved_files.specs.OneFile.{IsWritten};

use super::holds;
use io_base::{CallKind, Failed, MemShelf, OutOfMemory, Shelf};
use itoa::Buffer;
use saved_files::{begin_file, grow_file, refutation_name, save_file};
use std::alloc::Global;
use std::test::Fail;

// Puts a line with this number in place of what the buffer holds.
fn print_number(line: &mut Vec<u8>, number: u64) -> Result<(), OutOfMemory>
    ensures { OnOk result (line.new.items ≡ decimal number ++ 10 ∷ []) }
{
    line.clear();
    line.extend_from_slice(Buffer::new().format(number).as_bytes())?;
    line.push(b'\n')?;
    Ok(())
}

// Saves a line for each of these numbers.
fn save_numbers<S: Shelf>(
    alloc: Global,
    shelf: &mut S,
    name: &str,
    numbers: &[u64],
) -> Result<Result<(), Failed>, OutOfMemory>
    requires { length name.now ≤ 220 }
    ensures ok { IfOk result (λ saved. OnOk saved (IsWritten (S.state shelf.old) (S.state shelf.new) name.now
        (flat_map (λ number. decimal number ++ 10 ∷ []) numbers.now))) }
{
    let mut line = Vec::new(alloc);
    match begin_file(shelf, name) {
        Ok(()) => {}
        Err(Failed) => return Ok(Err(Failed)),
    }
    for number in numbers {
        print_number(&mut line, *number)?;
        match grow_file(shelf, name, &line) {
            Ok(()) => {}
            Err(Failed) => return Ok(Err(Failed)),
        }
    }
    Ok(Ok(()))
}

/// A call that is to fail, whether all is saved, and what then stands in the file that held `old`. There is no fourth
/// append.
const FAULTS: [(CallKind, u32, bool, &[u8]); 5] = [
    (CallKind::Create, 1, false, b"old"),
    (CallKind::Append, 1, false, b"7"),
    (CallKind::Append, 2, false, b"7\n4"),
    (CallKind::Append, 3, false, b"7\n42\n10"),
    (CallKind::Append, 4, true, b"7\n42\n1000\n"),
];

// A shelf with an old file and one of another name, on which a call is to fail.
fn old_shelf(alloc: Global, kind: CallKind, number: u32) -> Result<MemShelf, OutOfMemory> {
    let mut shelf = MemShelf::new(alloc);
    shelf.put_file("o.ref", b"old")?;
    shelf.put_file("o.part", b"other")?;
    shelf.fail(kind, number)?;
    Ok(shelf)
}

// Whether lines for three numbers are saved.
fn saves_numbers(alloc: Global, shelf: &mut MemShelf) -> Result<bool, OutOfMemory> {
    let name = refutation_name(alloc, "o")?;
    let saved = save_numbers(alloc, shelf, name.as_str(), &[7, 42, 1000])?;
    Ok(saved.is_ok())
}

// Whether the file holds this text, and the other what it held.
fn stands(shelf: &MemShelf, text: &[u8]) -> bool {
    holds(shelf, "o.ref", text) && holds(shelf, "o.part", b"other")
}

#[test]
fn what_stands_after_each_append(rt: HostRuntime) -> Result<(), Fail> {
    for (kind, number, saved, text) in &FAULTS {
        let mut shelf = old_shelf(rt.alloc(), *kind, *number)?;
        assert!(rt;
            saves_numbers(rt.alloc(), &mut shelf)? == *saved,
            "{text:?}"
        );
        assert!(rt; stands(&shelf, text), "{text:?}");
    }
    Ok(())
}

// Whether the bytes are saved as the whole of a file.
fn saves(shelf: &mut MemShelf, name: &str, bytes: &[u8]) -> bool
    requires { length name.now ≤ 220 }
{
    save_file(shelf, name, bytes) == Ok(()) && holds(shelf, name, bytes)
}

#[test]
fn an_old_file_is_replaced(rt: HostRuntime) -> Result<(), Fail> {
    let mut shelf = MemShelf::new(rt.alloc());
    shelf.put_file("a", b"old and long")?;
    assert!(rt; saves(&mut shelf, "a", b"new"));
    assert!(rt; saves(&mut shelf, "b", b""));
    Ok(())
}
