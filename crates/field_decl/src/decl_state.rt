//! What the directives of the earlier lines declare, in tables.

ghost use Rattle.std.specs.Prelude.{◌≡◌, ℕ, ◌≤◌, [], Some, true, length, unwrap_or, option_and_then};
ghost use Rattle.std.specs.List.{list_all};
ghost use Rattle.field_decl.specs.Decls.{declaration_of};
ghost use Rattle.field_decl.specs.Earlier.{declared_by};
ghost use Rattle.field_decl.specs.Fields.{word_bits, write_place, is_sized, are_distinct};
ghost use Rattle.field_decl.specs.Judging.{judged};
ghost use Rattle.field_decl.specs.KBits.{IsShared};
ghost use Rattle.field_decl.specs.Layout.{completed};
ghost use Rattle.field_decl.specs.Results.{Gives, GivesKind};
ghost use Rattle.field_decl.specs.declared.directive.Directive.TheVariants as directives;

use crate::decl::Decl;
use crate::directive::Directive;
use crate::fault::{AsmKind, LineFault};
use crate::field::{Field, FieldTable, can_write, widths, write_place};
use crate::name::Name;
use std::alloc::Global;
use std::marker::Model;

/// What was declared so far. Directives come in one by one, each judged after those before it.
#[derive(Drop)]
pub struct DeclState {
    slices: Option<u8>,
    kbus: Option<u8>,
    fields: FieldTable,
    prom: Option<(u16, u8)>,
    write: Option<Name>,
}

impl Model for DeclState {
    ghost use Rattle.field_decl.specs.Earlier.{Declared, IsSound};
    ghost use Rattle.field_decl.specs.DeclStateView.{declared_in};

    ghost Value = { Declared };

    ghost view = { declared_in };

    ghost invariant = { λ state. IsSound (declared_in state) };
}

impl DeclState {
    /// Nothing is declared.
    pub fn new(alloc: Global) -> DeclState
        ensures { result ≡ declared_by [] }
    {
        DeclState {
            slices: None,
            kbus: None,
            fields: FieldTable::new(alloc),
            prom: None,
            write: None,
        }
    }

    #[tactic(auto, unfolding(crate::specs::Judging::refusal))]
    fn take_slices(&mut self, slices: u128) -> Result<(), LineFault>
        ensures { Gives (λ _. self.new) result (judged self.old (directives.Slices slices)) }
    {
        if self.slices.is_some() || slices < 1 || slices > 16 {
            return Err(LineFault::Kind(AsmKind::Slices));
        }
        self.slices = Some(slices as u8);
        Ok(())
    }

    #[tactic(auto, unfolding(crate::specs::Judging::refusal))]
    fn take_kbus(&mut self, kbus: u128) -> Result<(), LineFault>
        ensures { Gives (λ _. self.new) result (judged self.old (directives.KBus kbus)) }
    {
        let Some(slices) = self.slices else {
            return Err(LineFault::Kind(AsmKind::Slices));
        };
        if self.kbus.is_some() || kbus == 0 || 2 * slices as u128 % kbus != 0 {
            return Err(LineFault::Kind(AsmKind::KBus));
        }
        if kbus > 78 - widths(self.fields.as_slice()) as u128 {
            return Err(LineFault::Kind(AsmKind::WordTooWide));
        }
        self.kbus = Some(kbus as u8);
        Ok(())
    }

    #[tactic(auto, unfolding(crate::specs::Judging::refusal))]
    fn take_field(&mut self, name: Name, width: u128, default: u128) -> Result<(), LineFault>
        ensures { Gives (λ _. self.new) result (judged self.old (directives.Field name width default)) }
    {
        if self.fields.has(&name) {
            return Err(LineFault::Kind(AsmKind::FieldTwice));
        }
        if width < 1 || width > 32 {
            return Err(LineFault::Kind(AsmKind::FieldWidth));
        }
        if default >= 1 << width as u32 {
            return Err(LineFault::Kind(AsmKind::DefaultTooWide));
        }
        if self.word_bits() + width as u32 > 96 {
            return Err(LineFault::Kind(AsmKind::WordTooWide));
        }
        self.fields.push(Field {
            name,
            width: width as u8,
            default: default as u32,
        })?;
        Ok(())
    }

    // The bits of the microword so far.
    fn word_bits(&self) -> u32
        ensures bits { result ≡ word_bits (unwrap_or self.now.kbus 1) self.now.fields }
        ensures fits { result ≤ 96 }
    {
        18 + self.kbus.unwrap_or(1) as u32 + widths(self.fields.as_slice())
    }

    #[tactic(auto, unfolding(crate::specs::Judging::refusal))]
    fn take_prom(&mut self, words: u128, bits: u128) -> Result<(), LineFault>
        ensures { Gives (λ _. self.new) result (judged self.old (directives.Prom words bits)) }
    {
        if self.prom.is_some() || words != 512 || bits != 4 && bits != 8 {
            return Err(LineFault::Kind(AsmKind::Prom));
        }
        self.prom = Some((words as u16, bits as u8));
        Ok(())
    }

    #[tactic(auto, unfolding(crate::specs::Judging::refusal))]
    fn take_write(&mut self, name: Name) -> Result<(), LineFault>
        ensures { Gives (λ _. self.new) result (judged self.old (directives.Write name)) }
    {
        if self.write.is_some() || !can_write(self.fields.as_slice(), &name) {
            return Err(LineFault::Kind(AsmKind::WriteField));
        }
        self.write = Some(name);
        Ok(())
    }

    /// Takes one directive more, or says why it is refused. After a refusal nothing is known of the state.
    #[tactic(auto, unfolding(crate::specs::Judging::refusal))]
    pub fn take(&mut self, directive: Directive) -> Result<(), LineFault>
        ensures { Gives (λ _. self.new) result (judged self.old directive) }
    {
        match directive {
            Directive::Slices(slices) => self.take_slices(slices),
            Directive::KBus(kbus) => self.take_kbus(kbus),
            Directive::Field(name, width, default) => self.take_field(name, width, default),
            Directive::Prom(words, bits) => self.take_prom(words, bits),
            Directive::Write(name) => self.take_write(name),
        }
    }

    /// The slices, 1 to 16, where they are given.
    pub fn slices(&self) -> Option<u8>
        ensures { result ≡ self.now.slices }
    {
        self.slices
    }

    /// How many K bits the microword has so far: 1 where no `kbus` is given.
    pub fn kbus(&self) -> u8
        ensures kbus { result ≡ unwrap_or self.now.kbus 1 }
        ensures shared { (slices : ℕ) → self.now.slices ≡ Some slices → IsShared slices result }
    {
        self.kbus.unwrap_or(1)
    }

    /// The fields so far.
    pub fn fields(&self) -> &[Field]
        ensures fields { result.now ≡ self.now.fields }
        ensures few { length result.now ≤ 77 }
        ensures sized { list_all is_sized result.now ≡ true }
        ensures distinct { are_distinct result.now ≡ true }
    {
        self.fields.as_slice()
    }

    // The place of the write field.
    fn write_place(&self) -> Option<u8>
        ensures { result ≡ option_and_then (write_place self.now.fields) self.now.write }
    {
        match &self.write {
            Some(name) => match write_place(self.fields.as_slice(), name) {
                Some(place) => Some(place as u8),
                None => None,
            },
            None => None,
        }
    }

    /// The declaration, with the defaults for what is not given: 1 K bit, PROMs of 512 words of 4 bits, no write
    /// field. Slices have no default; without them it is refused as `Slices`.
    pub fn finish(self) -> Result<Decl, AsmKind>
        ensures { GivesKind declaration_of result (completed self) }
    {
        let Some(slices) = self.slices else {
            return Err(AsmKind::Slices);
        };
        let write = self.write_place();
        let (prom_words, prom_bits) = self.prom.unwrap_or((512, 4));
        Ok(Decl {
            slices,
            kbus: self.kbus.unwrap_or(1),
            fields: self.fields.into_list(),
            prom_words,
            prom_bits,
            write,
        })
    }
}
