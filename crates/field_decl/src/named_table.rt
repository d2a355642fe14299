//! Values that have names, in order, with the names as keys.

ghost use Rattle.std.specs.Prelude.{◌≡◌, ◌++◌, ◌∷◌, ◌<◌, ℕ, List, [], false, length, position, IfSome, OnOk, OnErr};
ghost use Rattle.std.specs.List.{list_any};
ghost use Rattle.std.specs.Str.{bytes_eq};
ghost use Rattle.micro_lex.specs.Names.{IsName};

use crate::name::Name;
use indexmap::IndexSet;
use io_base::Listed;
use std::alloc::{AllocError, AllocFailed, Global};
use std::marker::Model;

/// What a table finds by its name.
pub trait Named: Drop {
    ghost name_of: { Self → List ℕ };

    /// The name.
    fn name(&self) -> Name
        ensures value { result ≡ name_of self.now }
        ensures named { IsName (name_of self.now) };
}

/// Values in the order in which they come, no two of one name.
#[derive(Drop)]
pub struct NamedTable<T: Named> {
    names: IndexSet<Name>,
    items: Vec<T>,
}

impl<T: Named> Model for NamedTable<T> {
    ghost use Rattle.std.specs.Prelude.{◌≡◌, List, map};

    ghost Value = { List T };

    ghost view = { λ table. table.items.items };

    ghost invariant = { λ table. table.names.keys ≡ map T.name_of table.items.items };
}

impl<T: Named> NamedTable<T> {
    /// No values.
    pub fn new(alloc: Global) -> NamedTable<T>
        ensures { result ≡ [] }
    {
        NamedTable {
            names: IndexSet::new(alloc),
            items: Vec::new(alloc),
        }
    }

    /// Whether a value has this name.
    pub fn has(&self, name: &Name) -> bool
        ensures { result ≡ list_any (λ item. bytes_eq name.now (T.name_of item)) self.now }
    {
        self.names.contains(name)
    }

    /// The place, from 0, of the value that has this name.
    pub fn place(&self, name: &Name) -> Option<usize>
        ensures place { result ≡ position (λ item. bytes_eq name.now (T.name_of item)) self.now }
        ensures within { IfSome result (λ place. place < length self.now) }
    {
        self.names.get_index_of(name)
    }

    /// Adds a value of a new name at the end.
    pub fn push(&mut self, item: T) -> Result<(), AllocError>
        requires { list_any (λ other. bytes_eq (T.name_of item) (T.name_of other)) self.old ≡ false }
        ensures added { OnOk result (self.new ≡ self.old ++ item ∷ []) }
        ensures unchanged { OnErr result (self.new ≡ self.old) }
        ensures named { IsName (T.name_of item) }
    {
        let name = item.name();
        self.items.push(item)?;
        match add_name(&mut self.names, name) {
            Ok(()) => Ok(()),
            Err(_refusal) => {
                let _ = self.items.pop();
                Err(AllocError)
            }
        }
    }

    /// The values in order.
    pub fn as_slice(&self) -> &[T]
        ensures { result.now ≡ self.now }
    {
        &self.items
    }

    /// The values as a list.
    pub fn into_list(self) -> Listed<T>
        ensures { result ≡ self }
    {
        Listed::of(self.items)
    }
}

// Adds a new name at the end.
fn add_name(names: &mut IndexSet<Name>, name: Name) -> Result<(), AllocFailed<Name>>
    requires { list_any (bytes_eq name) names.old.keys ≡ false }
    ensures added { OnOk result (names.new.keys ≡ names.old.keys ++ name ∷ []) }
    ensures unchanged { OnErr result (names.new.keys ≡ names.old.keys) }
{
    names.insert(name)?;
    Ok(())
}
