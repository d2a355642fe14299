//! The texts of a search that found no placement: those of its file, and those that tell of it.
ghost use Rattle.std.specs.Prelude.{◌≡◌, ◌<◌, ◌+◌, ◌^◌, IfOk, length};
ghost use Rattle.ref_text.specs.Text.{refutation_text, part_text};
ghost use Rattle.micro_cli.specs.Telling.{refuted_line, undecided_line};

use clause_base::{Clash, Line};
use io_base::OutOfMemory;
use itoa::Buffer;
use ref_text::{print_clash, print_line};
use std::alloc::Global;

/// The text of lines that were derived from a list of so many clauses. Their numbers follow those of the clauses.
pub(crate) fn refutation_text(
    alloc: Global,
    clauses: u32,
    lines: &[Line],
) -> Result<Vec<u8>, OutOfMemory>
    requires { clauses + length lines.now < 2 ^ 32 }
    ensures { IfOk result (λ text. text.items ≡ refutation_text clauses lines.now) }
{
    let mut text = Vec::new(alloc);
    let mut number = clauses;
    for line in lines {
        number += 1;
        print_line(number, line, &mut text)?;
    }
    Ok(text)
}

/// The text of the lines of a spent budget, and of the clash that it ended in.
pub(crate) fn part_text(
    alloc: Global,
    clauses: u32,
    lines: &[Line],
    clash: &Clash,
) -> Result<Vec<u8>, OutOfMemory>
    requires { clauses + length lines.now < 2 ^ 32 }
    ensures { IfOk result (λ text. text.items ≡ part_text clauses lines.now clash.now) }
{
    let mut text = refutation_text(alloc, clauses, lines)?;
    print_clash(clash, &mut text)?;
    Ok(text)
}

/// The line that tells of a refutation of so many lines.
pub(crate) fn refuted_line(alloc: Global, lines: usize) -> Result<Vec<u8>, OutOfMemory>
    ensures { IfOk result (λ text. text.items ≡ refuted_line lines) }
{
    let mut text = Vec::from_slice(alloc, b"refuted ")?;
    text.extend_from_slice(Buffer::new().format(lines).as_bytes())?;
    text.extend_from_slice(b"\n")?;
    Ok(text)
}

/// The line that tells of a spent budget of so many conflicts.
pub(crate) fn undecided_line(alloc: Global, conflicts: u32) -> Result<Vec<u8>, OutOfMemory>
    ensures { IfOk result (λ text. text.items ≡ undecided_line conflicts) }
{
    let mut text = Vec::from_slice(alloc, b"undecided ")?;
    text.extend_from_slice(Buffer::new().format(conflicts).as_bytes())?;
    text.extend_from_slice(b"\n")?;
    Ok(text)
}
