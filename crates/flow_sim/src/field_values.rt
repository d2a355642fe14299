//! The values of the user fields: those of an instruction, or the defaults of its declaration.

ghost use Rattle.std.specs.Prelude.{◌≡◌, ◌≤◌, length};
ghost use Rattle.std.specs.Option.{option_copied};
ghost use Rattle.field_decl.specs.Decls.{declaration_of};
ghost use Rattle.flow_graph.specs.Order.{defaults_of, values_of};

use field_decl::{Decl, Field, FieldValues};
use flow_graph::Instr;

// A copy of these values.
fn copy_values(values: &[u32]) -> FieldValues
    requires { length values.now ≤ 80 }
    ensures { result ≡ values.now }
{
    let mut copy = FieldValues::new();
    for value in values {
        copy.push(*value);
    }
    copy
}

// The user fields at their defaults.
fn defaults_of(fields: &[Field]) -> FieldValues
    requires { length fields.now ≤ 80 }
    ensures { result ≡ defaults_of fields.now }
{
    let mut values = FieldValues::new();
    for field in fields {
        values.push(field.default);
    }
    values
}

/// The user fields at the defaults of a declaration.
pub(crate) fn declared_defaults(decl: &Decl) -> FieldValues
    ensures { result ≡ defaults_of (declaration_of decl.now).fields }
{
    defaults_of(decl.fields.as_slice())
}

/// The user fields of an instruction, or where there is none of the free cell.
pub(crate) fn values_of(decl: &Decl, instr: Option<&Instr>) -> FieldValues
    ensures { result ≡ values_of (declaration_of decl.now) (option_copied instr.entry) }
{
    match instr {
        Some(instr) => copy_values(instr.values.as_slice()),
        None => declared_defaults(decl),
    }
}
