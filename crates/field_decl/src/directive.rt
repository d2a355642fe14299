//! The lines that declare, by their form alone.

ghost use Rattle.std.specs.Prelude.{◌≡◌};
ghost use Rattle.field_decl.specs.Directives.{slices_form, kbus_form, field_form, prom_form, write_form, directive_form};

use crate::fault::AsmKind;
use crate::name::Name;
use crate::word::Word;

/// A line that declares, as it stands; its numbers are not judged yet.
#[derive(Clone, Copy)]
pub enum Directive {
    /// How many slices.
    Slices(u128),
    /// How many K bits.
    KBus(u128),
    /// Name, width and default of a field.
    Field(Name, u128, u128),
    /// Words and bits of a PROM.
    Prom(u128, u128),
    /// The name of the write field.
    Write(Name),
}

fn slices_form(words: &[Word]) -> Result<Directive, AsmKind>
    ensures { result ≡ slices_form words.now }
{
    match words {
        [Word::Number(slices)] => Ok(Directive::Slices(*slices)),
        _ => Err(AsmKind::Shape),
    }
}

fn kbus_form(words: &[Word]) -> Result<Directive, AsmKind>
    ensures { result ≡ kbus_form words.now }
{
    match words {
        [Word::Number(kbus)] => Ok(Directive::KBus(*kbus)),
        _ => Err(AsmKind::Shape),
    }
}

fn field_form(words: &[Word]) -> Result<Directive, AsmKind>
    ensures { result ≡ field_form words.now }
{
    match words {
        [Word::Name(name), Word::Number(width), Word::Number(default)] => Ok(Directive::Field(
            *name, *width, *default,
        )),
        _ => Err(AsmKind::Shape),
    }
}

fn prom_form(words: &[Word]) -> Result<Directive, AsmKind>
    ensures { result ≡ prom_form words.now }
{
    match words {
        [Word::Number(prom_words), Word::Number(bits)] => Ok(Directive::Prom(*prom_words, *bits)),
        _ => Err(AsmKind::Shape),
    }
}

fn write_form(words: &[Word]) -> Result<Directive, AsmKind>
    ensures { result ≡ write_form words.now }
{
    match words {
        [Word::Name(name)] => Ok(Directive::Write(*name)),
        _ => Err(AsmKind::Shape),
    }
}

/// The directive of this name with these words behind it. `UnknownDirective` where there is none of the
/// name, `Shape` where the words are not of its form.
#[tactic(auto, unfolding(crate::specs::Directives::directive_form))]
pub fn directive_form(name: &Name, words: &[Word]) -> Result<Directive, AsmKind>
    ensures { result ≡ directive_form name.now words.now }
{
    if name.is(b"slices") {
        slices_form(words)
    } else if name.is(b"kbus") {
        kbus_form(words)
    } else if name.is(b"field") {
        field_form(words)
    } else if name.is(b"prom") {
        prom_form(words)
    } else if name.is(b"write") {
        write_form(words)
    } else {
        Err(AsmKind::UnknownDirective)
    }
}
