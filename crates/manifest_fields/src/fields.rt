//! Fields of a manifest, each read with its own fault.

ghost use Rattle.std.specs.Prelude.{◌≡◌, ◌<◌, length, map, option_map, IfOk};
ghost use Rattle.serde_json.specs.View.{view};
ghost use Rattle.json_fields.specs.state.Reading.{GivesExactly, GivesUnless};
ghost use Rattle.manifest_fields.specs.state.Memory.{is_memory};
ghost use Rattle.manifest_fields.specs.rule.Fields.{object_of, array_of, array_or_none, some_items, text_of};
ghost use Rattle.manifest_fields.specs.rule.Fields.{required_text, text_or, absent};
ghost use Rattle.manifest_fields.specs.state.Grammar.{passes};

use crate::fault::{Field, ManifestFault};
use json_fields::Json;
use manifest::{Text, is_label, is_name};
use serde_json::Value;
use std::alloc::Global;

/// An object. `Missing` if there is none, `WrongKind` if it is another value; both name the field.
pub fn object<'v, V: Json>(field: Field, found: Option<&'v V>) -> Result<&'v V, ManifestFault>
    ensures { GivesExactly (λ v. V.data v.now) result (object_of field (option_map (λ v. V.data v.now) found.entry)) }
{
    match found {
        None => Err(ManifestFault::Missing(field)),
        Some(value) if value.is_object() => Ok(value),
        Some(_) => Err(ManifestFault::WrongKind(field)),
    }
}

/// An array's items. `Missing` if there is none, `WrongKind` if it is another value.
pub fn array(field: Field, found: Option<&Value>) -> Result<&[Value], ManifestFault>
    ensures { GivesExactly (λ v. map view v.now) result (array_of field (option_map (λ v. view v.now) found.entry)) }
{
    let Some(value) = found else {
        return Err(ManifestFault::Missing(field));
    };
    match value.as_array() {
        None => Err(ManifestFault::WrongKind(field)),
        Some(list) => Ok(list.as_slice()),
    }
}

/// An array's items, none if it is left out. `WrongKind` if it is another value.
pub fn array_or_none(field: Field, found: Option<&Value>) -> Result<&[Value], ManifestFault>
    ensures { GivesExactly (λ v. map view v.now) result
        (array_or_none field (option_map (λ v. view v.now) found.entry)) }
{
    if found.is_none() {
        return Ok(&[]);
    }
    array(field, found)
}

/// Items of which there has to be one at least; else they are `Missing`.
pub fn some_items(field: Field, values: &[Value]) -> Result<&[Value], ManifestFault>
    ensures gives { GivesExactly (λ v. map view v.now) result (some_items field (map view values.now)) }
    ensures same { IfOk result (λ v. (v.now ≡ values.now) × (0 < length v.now)) }
{
    if values.is_empty() {
        return Err(ManifestFault::Missing(field));
    }
    Ok(values)
}

/// A field that has to be absent.
pub fn absent(fault: ManifestFault, found: Option<&Value>) -> Result<(), ManifestFault>
    ensures { GivesExactly (λ t. t) result (absent fault (option_map (λ v. view v.now) found.entry)) }
{
    match found {
        None => Ok(()),
        Some(_) => Err(fault),
    }
}

/// The two kinds of name.
#[derive(Clone, Copy, PartialEq, Eq)]
pub enum Grammar {
    Name,
    Label,
}

fn passes(grammar: Grammar, text: &[u8]) -> bool
    ensures { result ≡ passes grammar text.now }
{
    match grammar {
        Grammar::Name => is_name(text),
        Grammar::Label => is_label(text),
    }
}

fn text(alloc: Global, grammar: Grammar, field: Field, value: &Value) -> Result<Text, ManifestFault>
    ensures { GivesUnless is_memory (λ t. t) result (text_of (passes grammar) field (view value.now)) }
{
    match value.as_str() {
        Some(text) if passes(grammar, text.as_bytes()) => {
            Ok(Text::new(String::from_str(alloc, text)?))
        }
        _ => Err(ManifestFault::WrongKind(field)),
    }
}

/// A text of this grammar. `Missing` if there is none, `WrongKind` if it is another value or no such name;
/// `OutOfMemory` if there is no memory for it.
pub fn required_text(
    alloc: Global,
    grammar: Grammar,
    field: Field,
    found: Option<&Value>,
) -> Result<Text, ManifestFault>
    ensures { GivesUnless is_memory (λ t. t) result
        (required_text (passes grammar) field (option_map (λ v. view v.now) found.entry)) }
{
    match found {
        None => Err(ManifestFault::Missing(field)),
        Some(value) => text(alloc, grammar, field, value),
    }
}

/// A text of this grammar, the default if it is left out. `WrongKind` if it is another value or no such name;
/// `OutOfMemory` if there is no memory for it.
pub fn text_or(
    alloc: Global,
    default: &str,
    grammar: Grammar,
    field: Field,
    found: Option<&Value>,
) -> Result<Text, ManifestFault>
    ensures { GivesUnless is_memory (λ t. t) result
        (text_or default.now (passes grammar) field (option_map (λ v. view v.now) found.entry)) }
{
    match found {
        None => Ok(Text::new(String::from_str(alloc, default)?)),
        Some(value) => text(alloc, grammar, field, value),
    }
}
