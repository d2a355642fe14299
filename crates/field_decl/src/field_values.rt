//! The values of the user fields of one microword.

ghost use Rattle.std.specs.Prelude.{◌≡◌, ◌<◌, ◌≤◌, ◌++◌, ◌∷◌, [], length};

use arrayvec::ArrayVec;
use std::marker::Model;

/// At most 80 numbers, kept in place. A microword of 96 bits has room for 77 fields.
#[derive(Drop)]
pub struct FieldValues {
    items: ArrayVec<u32, 80>,
}

impl Model for FieldValues {
    ghost use Rattle.std.specs.Prelude.{ℕ, List};

    ghost Value = { List ℕ };

    ghost view = { λ values. values.items.items };
}

impl FieldValues {
    /// No numbers.
    pub fn new() -> FieldValues
        ensures { result ≡ [] }
    {
        FieldValues {
            items: ArrayVec::new(),
        }
    }

    /// Adds a number at the end.
    pub fn push(&mut self, value: u32)
        requires { length self.old < 80 }
        ensures { self.new ≡ self.old ++ value ∷ [] }
    {
        self.items.push(value);
    }

    /// The numbers in order.
    pub fn as_slice(&self) -> &[u32]
        ensures values { result.now ≡ self.now }
        ensures few { length result.now ≤ 80 }
    {
        self.items.as_slice()
    }
}
