//! A name of the source language, kept in place.

ghost use Rattle.std.specs.Prelude.{◌≡◌};
ghost use Rattle.std.specs.Str.{bytes_eq};
ghost use Rattle.micro_lex.specs.Names.{IsName};

use std::hash::{Hash, Hasher};
use std::marker::Model;

/// 1 to 32 ASCII letters, digits and underscores, of which the first is no digit.
#[derive(Clone, Copy)]
pub struct Name {
    bytes: [u8; 32],
    len: usize,
}

impl Model for Name {
    ghost use Rattle.std.specs.Prelude.{ℕ, List, length, take};
    ghost use Rattle.field_decl.specs.NameBytes.{padded, IsPadded, gives_back};

    ghost Value = { List ℕ };

    ghost view = { λ name. take name.len name.bytes };

    ghost invariant = { λ name. IsPadded name.bytes name.len };

    ghost inverse = { λ text. record { bytes = padded text; len = length text } };

    ghost inverse_ok = { λ name held. gives_back name held };
}

impl Name {
    /// The name of these bytes.
    pub fn of(items: Vec<u8>) -> Name
        requires { IsName items.items }
        ensures { result ≡ items.items }
    {
        Name::from_bytes(&items)
    }

    /// The name of these bytes, which are copied.
    pub fn from_bytes(text: &[u8]) -> Name
        requires { IsName text.now }
        ensures { result ≡ text.now }
    {
        let mut bytes = [0u8; 32];
        let len = text.len();
        bytes[..len].copy_from_slice(text);
        Name { bytes, len }
    }

    /// The bytes of the name.
    pub fn as_slice(&self) -> &[u8]
        ensures text { result.now ≡ self.now }
        ensures name { IsName self.now }
    {
        &self.bytes[..self.len]
    }

    /// The same name, certified: what the type keeps of its bytes, a caller knows by this contract.
    pub fn certified(self) -> Name
        ensures value { result ≡ self }
        ensures name { IsName self }
    {
        let _text = self.as_slice();
        self
    }

    /// Whether the name is this text.
    pub fn is(&self, text: &[u8]) -> bool
        ensures { result ≡ bytes_eq self.now text.now }
    {
        self.as_slice() == text
    }
}

impl PartialEq for Name {
    ghost use Rattle.std.specs.Str.{bytes_eq};
    ghost use Rattle.std.specs.Cmp.{partial_equiv_from_equiv};
    ghost use Rattle.std.proofs.lemmas.Cmp.{nat_list_eq_equiv};

    ghost eq = { bytes_eq };

    ghost laws = { partial_equiv_from_equiv nat_list_eq_equiv };

    fn eq(&self, other: &Name) -> bool {
        self.as_slice() == other.as_slice()
    }
}

impl Eq for Name {
    ghost use Rattle.std.proofs.lemmas.Cmp.{nat_list_eq_equiv};

    ghost laws = { nat_list_eq_equiv };
}

impl Hash for Name {
    ghost use Rattle.std.specs.Hash as fed;
    ghost use Rattle.std.proofs.Common.{rules};
    ghost use Rattle.std.specs.Cmp.Rules.{hashing};

    ghost hash_input = { λ name. fed.slice fed.u8 name };

    ghost respects_eq = { Prim.search (hashing, rules) };

    fn hash<H: Hasher>(&self, state: &mut H) {
        self.as_slice().hash(state);
    }
}
