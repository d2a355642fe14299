//! The bits of the user fields: their values in one number, the first field lowest, and back.
ghost use Rattle.std.specs.Prelude.{◌≡◌, ◌<◌, ◌≤◌, ◌^◌, true};
ghost use Rattle.std.specs.List.{list_all};
ghost use Rattle.field_decl.specs.Fields.{is_sized, widths};
ghost use Rattle.flow_graph.specs.Microwords.{AreValues};
ghost use Rattle.flow_graph.specs.Order.{defaults_of};
ghost use Rattle.prom_split.specs.Parts.{joined, taken_apart};

use crate::low_bits::low_bits;
use field_decl::{Field, FieldValues};

/// The values of the fields in one number.
pub(crate) fn joined_values(fields: &[Field], values: &[u32]) -> u128
    requires values { AreValues fields.now values.now }
    requires narrow { widths fields.now ≤ 96 }
    ensures number { result ≡ joined fields.now values.now }
    ensures below { result < 2 ^ widths fields.now }
{
    let mut number = 0u128;
    for place in (0..fields.len()).rev() {
        number = (number << fields[place].width) + u128::from(values[place]);
    }
    number
}

/// The values of the fields that a number holds.
pub(crate) fn taken_values(fields: &[Field], number: u128) -> FieldValues
    requires sized { list_all is_sized fields.now ≡ true }
    requires narrow { widths fields.now ≤ 78 }
    ensures { result ≡ taken_apart fields.now number }
{
    let mut values = FieldValues::new();
    let mut rest = number;
    for field in fields {
        values.push(low_bits(rest, u32::from(field.width)) as u32);
        rest >>= field.width;
    }
    values
}

/// The fields at their defaults.
pub(crate) fn defaults_of(fields: &[Field]) -> FieldValues
    requires sized { list_all is_sized fields.now ≡ true }
    requires narrow { widths fields.now ≤ 78 }
    ensures values { result ≡ defaults_of fields.now }
    ensures held { AreValues fields.now result }
{
    let mut values = FieldValues::new();
    for field in fields {
        values.push(field.default);
    }
    values
}
