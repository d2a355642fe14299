//! The layout text of a declaration.

ghost use Rattle.std.specs.Prelude.{◌≡◌, ◌++◌, IfOk, OnOk, Ok};
ghost use Rattle.field_decl.specs.Decls.{declaration_of};
ghost use Rattle.field_decl.specs.Layout.{layout_of};
ghost use Rattle.field_decl.specs.LayoutText.{printed, slices_runs, kbus_runs, field_runs, prom_runs, write_runs, fields_text, write_text, layout_text};

use crate::decl::Decl;
use crate::field::Field;
use crate::name::Name;
use io_base::OutOfMemory;
use itoa::Buffer;
use std::alloc::{AllocError, Global};

fn print_slices(text: &mut Vec<u8>, slices: u8) -> Result<(), AllocError>
    ensures { OnOk result (text.new.items ≡ text.old.items ++ printed (slices_runs slices)) }
{
    let mut buffer = Buffer::new();
    text.extend_from_slice(b"slices ")?;
    text.extend_from_slice(buffer.format(slices).as_bytes())?;
    text.push(b'\n')?;
    Ok(())
}

fn print_kbus(text: &mut Vec<u8>, kbus: u8) -> Result<(), AllocError>
    ensures { OnOk result (text.new.items ≡ text.old.items ++ printed (kbus_runs kbus)) }
{
    let mut buffer = Buffer::new();
    text.extend_from_slice(b"kbus ")?;
    text.extend_from_slice(buffer.format(kbus).as_bytes())?;
    text.push(b'\n')?;
    Ok(())
}

fn print_field(text: &mut Vec<u8>, field: &Field) -> Result<(), AllocError>
    ensures { OnOk result (text.new.items ≡ text.old.items ++ printed (field_runs field.now)) }
{
    let mut buffer = Buffer::new();
    text.extend_from_slice(b"field ")?;
    text.extend_from_slice(field.name.as_slice())?;
    text.push(b' ')?;
    text.extend_from_slice(buffer.format(field.width).as_bytes())?;
    text.push(b' ')?;
    text.extend_from_slice(buffer.format(field.default).as_bytes())?;
    text.push(b'\n')?;
    Ok(())
}

fn print_fields(text: &mut Vec<u8>, fields: &[Field]) -> Result<(), AllocError>
    ensures { OnOk result (text.new.items ≡ text.old.items ++ fields_text fields.now) }
{
    for field in fields {
        print_field(text, field)?;
    }
    Ok(())
}

fn print_prom(text: &mut Vec<u8>, words: u16, bits: u8) -> Result<(), AllocError>
    ensures { OnOk result (text.new.items ≡ text.old.items ++ printed (prom_runs words bits)) }
{
    let mut buffer = Buffer::new();
    text.extend_from_slice(b"prom ")?;
    text.extend_from_slice(buffer.format(words).as_bytes())?;
    text.push(b' ')?;
    text.extend_from_slice(buffer.format(bits).as_bytes())?;
    text.push(b'\n')?;
    Ok(())
}

fn print_name(text: &mut Vec<u8>, name: &Name) -> Result<(), AllocError>
    ensures { OnOk result (text.new.items ≡ text.old.items ++ printed (write_runs name.now)) }
{
    text.extend_from_slice(b"write ")?;
    text.extend_from_slice(name.as_slice())?;
    text.push(b'\n')?;
    Ok(())
}

fn print_write(text: &mut Vec<u8>, write: Option<u8>, fields: &[Field]) -> Result<(), AllocError>
    ensures { OnOk result (text.new.items ≡ text.old.items ++ write_text write fields.now) }
{
    let Some(place) = write else {
        return Ok(());
    };
    match fields.get(place as usize) {
        Some(field) => print_name(text, &field.name),
        None => Ok(()),
    }
}

// The lines of slices, K bus, each field in order, PROMs, and the write field where there is one.
#[tactic(auto, unfolding(crate::specs::LayoutText::layout_text))]
fn print_lines(alloc: Global, decl: &Decl) -> Result<Vec<u8>, OutOfMemory>
    ensures { IfOk result (λ text. text.items ≡ layout_text (declaration_of decl.now)) }
{
    let mut text = Vec::new(alloc);
    print_slices(&mut text, decl.slices)?;
    print_kbus(&mut text, decl.kbus)?;
    print_fields(&mut text, decl.fields.as_slice())?;
    print_prom(&mut text, decl.prom_words, decl.prom_bits)?;
    print_write(&mut text, decl.write, decl.fields.as_slice())?;
    Ok(text)
}

/// Writes the layout text of a declaration: a line for slices, K bus, each field in order and
/// PROMs, and one for the write field where there is one. Numbers are decimal.
///
/// `read_decl` of it gives the same declaration.
pub fn print_decl(alloc: Global, decl: &Decl) -> Result<Vec<u8>, OutOfMemory>
    ensures text { IfOk result (λ text. text.items ≡ layout_text (declaration_of decl.now)) }
    ensures reads { IfOk result (λ text. layout_of text.items ≡ Ok (declaration_of decl.now)) }
{
    print_lines(alloc, decl)
}
