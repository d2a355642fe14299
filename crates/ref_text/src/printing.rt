//! Prints the lines of a refutation, and a clash.

ghost use Rattle.std.specs.Prelude.{◌≡◌, ◌++◌, codes, decimal, flat_map, OnOk, OnErr};
ghost use Rattle.std.specs.Fmt.{signed_decimal};
ghost use Rattle.ref_text.specs.Text.{number_word, literal_word, line_text, entry_text, clash_text};
ghost use Rattle.ref_text.specs.Begun.{Begins};

use clause_base::{Clash, Entry, Line, Lit};
use io_base::OutOfMemory;
use itoa::Buffer;
use std::alloc::AllocError;

/// Adds the text of a line of that number. After want of memory `out` is as before. The form is after LRAT.
pub fn print_line(number: u32, line: &Line, out: &mut Vec<u8>) -> Result<(), OutOfMemory>
    ensures ok { OnOk result (out.new.items ≡ out.old.items ++ line_text number line.now) }
    ensures err { OnErr result (out.new.items ≡ out.old.items) }
{
    let len = out.len();
    match add_line(number, line, out) {
        Ok(()) => Ok(()),
        Err(_) => {
            out.truncate(len);
            Err(OutOfMemory)
        }
    }
}

/// Adds the text of a clash. After want of memory `out` is as before. The form is after LRAT.
pub fn print_clash(clash: &Clash, out: &mut Vec<u8>) -> Result<(), OutOfMemory>
    ensures ok { OnOk result (out.new.items ≡ out.old.items ++ clash_text clash.now) }
    ensures err { OnErr result (out.new.items ≡ out.old.items) }
{
    let len = out.len();
    match add_clash(clash, out) {
        Ok(()) => Ok(()),
        Err(_) => {
            out.truncate(len);
            Err(OutOfMemory)
        }
    }
}

// Adds the text of a line. After a refusal a part of it may have been added.
fn add_line(number: u32, line: &Line, out: &mut Vec<u8>) -> Result<(), AllocError>
    ensures ok { OnOk result (out.new.items ≡ out.old.items ++ line_text number line.now) }
    ensures err { OnErr result (Begins out.old.items out.new.items) }
{
    add_number(number, out)?;
    add_literals(line.clause.as_slice(), out)?;
    out.extend_from_slice(b"0 ")?;
    add_numbers(line.hints.as_slice(), out)?;
    out.extend_from_slice(b"0\n")?;
    Ok(())
}

// Adds a number and a space.
fn add_number(number: u32, out: &mut Vec<u8>) -> Result<(), AllocError>
    ensures ok { OnOk result (out.new.items ≡ out.old.items ++ number_word number) }
    ensures err { OnErr result (Begins out.old.items out.new.items) }
{
    let mut buffer = Buffer::new();
    out.extend_from_slice(buffer.format(number).as_bytes())?;
    out.push(b' ')?;
    Ok(())
}

// Adds a literal and a space.
fn add_literal(lit: Lit, out: &mut Vec<u8>) -> Result<(), AllocError>
    ensures ok { OnOk result (out.new.items ≡ out.old.items ++ literal_word lit) }
    ensures err { OnErr result (Begins out.old.items out.new.items) }
{
    let mut buffer = Buffer::new();
    out.extend_from_slice(buffer.format(lit.value()).as_bytes())?;
    out.push(b' ')?;
    Ok(())
}

fn add_numbers(numbers: &[u32], out: &mut Vec<u8>) -> Result<(), AllocError>
    ensures ok { OnOk result (out.new.items ≡ out.old.items ++ flat_map number_word numbers.now) }
    ensures err { OnErr result (Begins out.old.items out.new.items) }
{
    for number in numbers {
        add_number(*number, out)?;
    }
    Ok(())
}

fn add_literals(lits: &[Lit], out: &mut Vec<u8>) -> Result<(), AllocError>
    ensures ok { OnOk result (out.new.items ≡ out.old.items ++ flat_map literal_word lits.now) }
    ensures err { OnErr result (Begins out.old.items out.new.items) }
{
    for lit in lits {
        add_literal(*lit, out)?;
    }
    Ok(())
}

// Adds the text of a clash. After a refusal a part of it may have been added.
fn add_clash(clash: &Clash, out: &mut Vec<u8>) -> Result<(), AllocError>
    ensures ok { OnOk result (out.new.items ≡ out.old.items ++ clash_text clash.now) }
    ensures err { OnErr result (Begins out.old.items out.new.items) }
{
    add_entries(clash.steps.as_slice(), out)?;
    add_conflict(clash.clause, out)
}

fn add_conflict(clause: u32, out: &mut Vec<u8>) -> Result<(), AllocError>
    ensures ok { OnOk result (out.new.items ≡ out.old.items ++ (codes "x " ++ decimal clause ++ codes "\n")) }
    ensures err { OnErr result (Begins out.old.items out.new.items) }
{
    out.extend_from_slice(b"x ")?;
    out.extend_from_slice(Buffer::new().format(clause).as_bytes())?;
    out.extend_from_slice(b"\n")?;
    Ok(())
}

fn add_entries(entries: &[Entry], out: &mut Vec<u8>) -> Result<(), AllocError>
    ensures ok { OnOk result (out.new.items ≡ out.old.items ++ flat_map entry_text entries.now) }
    ensures err { OnErr result (Begins out.old.items out.new.items) }
{
    for entry in entries {
        add_entry(*entry, out)?;
    }
    Ok(())
}

fn add_entry(entry: Entry, out: &mut Vec<u8>) -> Result<(), AllocError>
    ensures ok { OnOk result (out.new.items ≡ out.old.items ++ entry_text entry) }
    ensures err { OnErr result (Begins out.old.items out.new.items) }
{
    if entry.reason == 0 {
        add_decision(entry.lit, out)
    } else {
        add_implied(entry, out)
    }
}

fn add_decision(lit: Lit, out: &mut Vec<u8>) -> Result<(), AllocError>
    ensures ok { OnOk result (out.new.items ≡ out.old.items ++ (codes "d " ++ signed_decimal lit ++ codes "\n")) }
    ensures err { OnErr result (Begins out.old.items out.new.items) }
{
    out.extend_from_slice(b"d ")?;
    out.extend_from_slice(Buffer::new().format(lit.value()).as_bytes())?;
    out.extend_from_slice(b"\n")?;
    Ok(())
}

fn add_implied(entry: Entry, out: &mut Vec<u8>) -> Result<(), AllocError>
    ensures ok { OnOk result (out.new.items
        ≡ out.old.items ++ (codes "i " ++ literal_word entry.lit ++ decimal entry.reason ++ codes "\n")) }
    ensures err { OnErr result (Begins out.old.items out.new.items) }
{
    out.extend_from_slice(b"i ")?;
    add_literal(entry.lit, out)?;
    out.extend_from_slice(Buffer::new().format(entry.reason).as_bytes())?;
    out.extend_from_slice(b"\n")?;
    Ok(())
}
