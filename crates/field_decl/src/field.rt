//! User fields of a microword, and lists of them.

ghost use Rattle.std.specs.Prelude.{◌≡◌, ◌≤◌, ◌<◌, ◌^◌, IfSome, length};
ghost use Rattle.std.specs.List.{list_any};
ghost use Rattle.field_decl.specs.Fields.{widths, can_write, write_place};

use crate::name::Name;
use crate::named_table::{Named, NamedTable};
use io_base::Listed;

/// A user field of the microword.
#[derive(Clone, Copy)]
pub struct Field {
    /// Its name.
    pub name: Name,
    /// Its width in bits, 1 to 32 in a declaration.
    pub width: u8,
    /// Its value where no setting gives one; in a declaration it fits the width.
    pub default: u32,
}

impl Named for Field {
    ghost name_of = { λ field. field.name };

    fn name(&self) -> Name {
        self.name.certified()
    }
}

/// Fields in the order in which they are declared.
pub type Fields = Listed<Field>;

/// Fields in the order in which they are declared, no two of one name.
pub(crate) type FieldTable = NamedTable<Field>;

/// The bits of all fields together.
pub(crate) fn widths(fields: &[Field]) -> u32
    requires { widths fields.now ≤ 96 }
    ensures { result ≡ widths fields.now }
{
    fields.iter().map(|field| field.width as u32).sum()
}

/// Whether a field of this name and one bit is among them.
pub(crate) fn can_write(fields: &[Field], name: &Name) -> bool
    ensures { result ≡ list_any (can_write name.now) fields.now }
{
    fields
        .iter()
        .any(|field| *name == field.name && field.width == 1)
}

/// Where the first field of this name and one bit stands.
pub(crate) fn write_place(fields: &[Field], name: &Name) -> Option<usize>
    ensures place { result ≡ write_place fields.now name.now }
    ensures within { IfSome result (λ place. place < length fields.now) }
{
    fields
        .iter()
        .position(|field| *name == field.name && field.width == 1)
}
