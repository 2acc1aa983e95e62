//! Reading the readiness gates of a pod. (Kubernetes, "Pod Lifecycle", "Pod readiness".)

ghost use Rattle.std.specs.Prelude.{◌≡◌, ◌≤◌, [], length, map, option_map, IfOk, IfErr, OnOk};
ghost use Rattle.serde_json.specs.View.{view};
ghost use Rattle.json_fields.specs.state.Reading.{GivesExactly};
ghost use Rattle.manifest.specs.rule.Gates.{is_condition_type, most_gates};
ghost use Rattle.manifest_fields.specs.declared.fault.Field.TheVariants as fields;
ghost use Rattle.manifest_fields.specs.rule.Fields.{text_of};
ghost use Rattle.extended_manifest.specs.state.Additions.{has_name};
ghost use Rattle.extended_manifest.specs.rule.Extended.{gate_of, with_gate, gates_from, gates_of};

use arrayvec::ArrayVec;
use json_fields::field;
use manifest::{MOST_GATES, ReadinessGates, Text, is_condition_type};
use manifest_fields::{Field, ManifestFault, array_or_none, object};
use serde_json::Value;
use std::alloc::{AllocError, Global};

fn type_in(value: &Value) -> Result<&str, ManifestFault>
    ensures { GivesExactly (λ s. s.now) result (text_of is_condition_type fields.ReadinessGates (view value.now)) }
{
    match value.as_str() {
        Some(text) if is_condition_type(text.as_bytes()) => Ok(text),
        _ => Err(ManifestFault::WrongKind(Field::ReadinessGates)),
    }
}

fn gate_of(value: &Value) -> Result<&str, ManifestFault>
    ensures { GivesExactly (λ s. s.now) result (gate_of (view value.now)) }
{
    let gate = object(Field::ReadinessGates, Some(value))?;
    match field(gate, "conditionType") {
        None => Err(ManifestFault::Missing(Field::ReadinessGates)),
        Some(value) => type_in(value),
    }
}

fn has_name(names: &[&str], name: &str) -> bool
    ensures { result ≡ has_name names.now name.now }
{
    names.iter().any(|other| *other == name)
}

/// Appends a gate, unless it is there. Returns `TooMany` if there is no room for it; the gates are then as they were.
#[tactic(auto, using(crate::proofs::Names::is_there, crate::proofs::Names::no_room, crate::proofs::Names::gate_added))]
fn add_gate<'a>(
    names: &mut ArrayVec<&'a str, MOST_GATES>,
    name: &'a str,
) -> Result<(), ManifestFault>
    ensures { GivesExactly (λ _. map (λ n. n.now) names.new.items) result
        (with_gate (map (λ n. n.now) names.old.items) name.now) }
{
    if has_name(names.as_slice(), name) {
        return Ok(());
    }
    if names.as_slice().len() >= MOST_GATES {
        return Err(ManifestFault::TooMany);
    }
    names.push(name);
    Ok(())
}

fn gates_from(values: &[Value]) -> Result<ArrayVec<&str, MOST_GATES>, ManifestFault>
    ensures { GivesExactly (λ names. map (λ n. n.now) names.items) result (gates_from [] (map view values.now)) }
{
    let mut names = ArrayVec::new();
    for value in values {
        add_gate(&mut names, gate_of(value)?)?;
    }
    Ok(names)
}

/// The condition types that the gates name, each once, in their order. Doesn't allocate.
pub(crate) fn gates_of(found: Option<&Value>) -> Result<ArrayVec<&str, MOST_GATES>, ManifestFault>
    ensures { GivesExactly (λ names. map (λ n. n.now) names.items) result
        (gates_of (option_map (λ v. view v.now) found.entry)) }
{
    gates_from(array_or_none(Field::ReadinessGates, found)?)
}

/// The gates of these names.
pub(crate) fn kept(alloc: Global, names: &[&str]) -> Result<ReadinessGates, AllocError>
    requires { length names.now ≤ most_gates }
    ensures { IfOk result (λ gates. gates ≡ map (λ n. n.now) names.now) }
{
    let mut gates = ReadinessGates::none(alloc);
    for name in names {
        gates.push(Text::new(String::from_str(alloc, name)?))?;
    }
    Ok(gates)
}
