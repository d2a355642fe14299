//! The microwords of all cells.
ghost use Rattle.std.specs.Prelude.{◌≡◌, length};

use std::marker::Model;

/// 512 microwords in the order of the cells' addresses.
#[derive(Drop)]
pub struct Words {
    items: Vec<u128>,
}

impl Model for Words {
    ghost use Rattle.std.specs.Prelude.{ℕ, List, ◌≡◌, length};

    ghost Value = { List ℕ };

    ghost view = { λ words. words.items.items };

    ghost invariant = { λ words. length words.items.items ≡ 512 };
}

impl Words {
    /// The words of this list.
    pub fn of(items: Vec<u128>) -> Words
        requires { length items.items ≡ 512 }
        ensures { result ≡ items.items }
    {
        Words { items }
    }

    /// The words in the order of their addresses.
    pub fn as_slice(&self) -> &[u128]
        ensures words { result.now ≡ self.now }
        ensures count { length result.now ≡ 512 }
    {
        &self.items
    }
}
