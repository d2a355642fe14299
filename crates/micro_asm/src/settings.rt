//! The settings of an instruction: flag functions and values of fields.

ghost use Rattle.std.specs.Prelude.{◌≡◌, ◌^◌, ◌≤◌, ◌<◌, [], None, Some, true, length, option_map, slice_get, IfSome};
ghost use Rattle.std.specs.List.{list_any, list_all};
ghost use Rattle.field_decl.specs.Fields.{is_sized, are_distinct};
ghost use Rattle.flow_graph.specs.Microwords.{AreValues};
ghost use Rattle.micro_asm.specs.Settings.{input_named, output_named, sets_input, sets_output, sets_field, if_twice, flag_refusal, field_named, value_refusal, setting_refusal, settings_refusal, input_given, output_given, value_given, flags_given, field_value, values_given};

use crate::setting::Setting;
use field_decl::{AsmKind, Field, FieldValues, Name};
use mcu_chip::{FlagCtl, FlagIn, FlagOut};

// The flag input function of a name.
fn input_named(name: &Name) -> Option<FlagIn>
    ensures { result ≡ input_named name.now }
{
    if name.is(b"SCZ") {
        Some(FlagIn::Scz)
    } else if name.is(b"STZ") {
        Some(FlagIn::Stz)
    } else if name.is(b"STC") {
        Some(FlagIn::Stc)
    } else if name.is(b"HCZ") {
        Some(FlagIn::Hcz)
    } else {
        None
    }
}

// The flag output function of a name.
fn output_named(name: &Name) -> Option<FlagOut>
    ensures { result ≡ output_named name.now }
{
    if name.is(b"FF0") {
        Some(FlagOut::Ff0)
    } else if name.is(b"FFC") {
        Some(FlagOut::Ffc)
    } else if name.is(b"FFZ") {
        Some(FlagOut::Ffz)
    } else if name.is(b"FF1") {
        Some(FlagOut::Ff1)
    } else {
        None
    }
}

fn sets_input(setting: &Setting) -> bool
    ensures { result ≡ sets_input setting.now }
{
    match setting {
        Setting::Flag(name) => input_named(name).is_some(),
        Setting::Value(..) => false,
    }
}

fn sets_output(setting: &Setting) -> bool
    ensures { result ≡ sets_output setting.now }
{
    match setting {
        Setting::Flag(name) => output_named(name).is_some(),
        Setting::Value(..) => false,
    }
}

fn sets_field(name: &Name, setting: &Setting) -> bool
    ensures { result ≡ sets_field name.now setting.now }
{
    match setting {
        Setting::Flag(_) => false,
        Setting::Value(field, _) => *name == *field,
    }
}

fn if_twice(twice: bool) -> Option<AsmKind>
    ensures { result ≡ if_twice twice }
{
    if twice {
        Some(AsmKind::SettingTwice)
    } else {
        None
    }
}

fn any_sets_input(settings: &[Setting]) -> bool
    ensures { result ≡ list_any sets_input settings.now }
{
    settings.iter().any(sets_input)
}

fn any_sets_output(settings: &[Setting]) -> bool
    ensures { result ≡ list_any sets_output settings.now }
{
    settings.iter().any(sets_output)
}

fn any_sets_field(settings: &[Setting], name: &Name) -> bool
    ensures { result ≡ list_any (sets_field name.now) settings.now }
{
    settings.iter().any(|setting| sets_field(name, setting))
}

// Why a flag function is refused after these settings.
fn flag_refusal(earlier: &[Setting], name: &Name) -> Option<AsmKind>
    ensures { result ≡ flag_refusal earlier.now name.now }
{
    if input_named(name).is_some() {
        if_twice(any_sets_input(earlier))
    } else if output_named(name).is_some() {
        if_twice(any_sets_output(earlier))
    } else {
        Some(AsmKind::FlagName)
    }
}

// The field of a name.
fn field_named(fields: &[Field], name: &Name) -> Option<Field>
    ensures { result ≡ field_named fields.now name.now }
{
    for field in fields {
        if *name == field.name {
            return Some(*field);
        }
    }
    None
}

// The field of a name, which is at most 32 bits wide.
fn narrow_field(fields: &[Field], name: &Name) -> Option<Field>
    requires { list_all is_sized fields.now ≡ true }
    ensures field { result ≡ field_named fields.now name.now }
    ensures narrow { IfSome result (λ field. field.width ≤ 32) }
{
    field_named(fields, name)
}

// Why a value of a field is refused after these settings.
fn value_refusal(fields: &[Field], earlier: &[Setting], name: &Name, value: u128) -> Option<AsmKind>
    requires { list_all is_sized fields.now ≡ true }
    ensures { result ≡ value_refusal (list_any (sets_field name.now) earlier.now) value (field_named fields.now name.now) }
{
    let Some(field) = narrow_field(fields, name) else {
        return Some(AsmKind::UnknownField);
    };
    if any_sets_field(earlier, name) {
        return Some(AsmKind::SettingTwice);
    }
    if value >= 1 << field.width as u32 {
        return Some(AsmKind::FieldValue);
    }
    None
}

// Why a setting is refused after these of its line.
fn setting_refusal(fields: &[Field], earlier: &[Setting], setting: &Setting) -> Option<AsmKind>
    requires { list_all is_sized fields.now ≡ true }
    ensures { result ≡ setting_refusal fields.now earlier.now setting.now }
{
    match setting {
        Setting::Flag(name) => flag_refusal(earlier, name),
        Setting::Value(name, value) => value_refusal(fields, earlier, name, *value),
    }
}

/// Why the first refused of these settings is refused.
#[tactic(auto, unfolding(crate::specs::Settings::settings_refusal))]
pub fn settings_refusal(fields: &[Field], settings: &[Setting]) -> Option<AsmKind>
    requires { list_all is_sized fields.now ≡ true }
    ensures { result ≡ settings_refusal fields.now [] settings.now }
{
    for place in 0..settings.len() {
        if let Some(kind) = setting_refusal(fields, &settings[..place], &settings[place]) {
            return Some(kind);
        }
    }
    None
}

// The flag input function that is set.
#[tactic(auto, unfolding(crate::specs::Settings::input_given))]
fn input_given(settings: &[Setting]) -> Option<FlagIn>
    ensures { result ≡ input_given settings.now }
{
    for setting in settings {
        if let Setting::Flag(name) = setting {
            if let Some(input) = input_named(name) {
                return Some(input);
            }
        }
    }
    None
}

// The flag output function that is set.
#[tactic(auto, unfolding(crate::specs::Settings::output_given))]
fn output_given(settings: &[Setting]) -> Option<FlagOut>
    ensures { result ≡ output_given settings.now }
{
    for setting in settings {
        if let Setting::Flag(name) = setting {
            if let Some(output) = output_named(name) {
                return Some(output);
            }
        }
    }
    None
}

/// The flag functions of accepted settings: flags are held, and the flag output is 0, where nothing is set.
pub fn flags_given(settings: &[Setting]) -> FlagCtl
    ensures { result ≡ flags_given settings.now }
{
    FlagCtl {
        input: input_given(settings).unwrap_or(FlagIn::Hcz),
        output: output_given(settings).unwrap_or(FlagOut::Ff0),
    }
}

// The value that is set for the field of a name.
#[tactic(auto, unfolding(crate::specs::Settings::value_given))]
fn value_given(name: &Name, settings: &[Setting]) -> Option<u128>
    ensures { result ≡ value_given name.now settings.now }
{
    for setting in settings {
        if let Setting::Value(field, value) = setting {
            if *name == *field {
                return Some(*value);
            }
        }
    }
    None
}

// The value of the field at a place: what is set, or its default.
fn field_value(fields: &[Field], settings: &[Setting], place: usize) -> u32
    requires place { place < length fields.now }
    requires sized { list_all is_sized fields.now ≡ true }
    requires distinct { are_distinct fields.now ≡ true }
    requires accepted { settings_refusal fields.now [] settings.now ≡ None }
    ensures { Some result ≡ option_map (field_value settings.now) (slice_get fields.now place) }
{
    let field = &fields[place];
    match value_given(&field.name, settings) {
        Some(value) => value as u32,
        None => field.default,
    }
}

/// The values of all fields under accepted settings.
pub fn values_given(fields: &[Field], settings: &[Setting]) -> FieldValues
    requires few { length fields.now ≤ 77 }
    requires sized { list_all is_sized fields.now ≡ true }
    requires distinct { are_distinct fields.now ≡ true }
    requires accepted { settings_refusal fields.now [] settings.now ≡ None }
    ensures values { result ≡ values_given fields.now settings.now }
    ensures held { AreValues fields.now result }
{
    let mut values = FieldValues::new();
    for place in 0..fields.len() {
        values.push(field_value(fields, settings, place));
    }
    values
}
