//! Whether a manifest can be read, or its first fault, without an allocation: after a failed allocation the reading may
//! not have come to the fault.

ghost use Rattle.std.specs.Prelude.{◌≡◌, map, option_map, bytes_eq};
ghost use Rattle.std.specs.List.{list_any};
ghost use Rattle.serde_json.specs.View.{view};
ghost use Rattle.json_fields.specs.rule.Reading.{each};
ghost use Rattle.json_fields.specs.state.Reading.{GivesExactly, checked};
ghost use Rattle.manifest_fields.specs.rule.Fields.{text_of, required_text, text_or};
ghost use Rattle.manifest_fields.specs.state.Grammar.{passes};
ghost use Rattle.manifest_reader.specs.state.Checks.{apart_at, is_name_twice, is_name_twice_before};
ghost use Rattle.manifest_reader.specs.state.Found.{name_in};
ghost use Rattle.manifest_reader.specs.rule.Manifest.{container_of, containers_of, containers_in, metadata_of};
ghost use Rattle.manifest_reader.specs.rule.Manifest.{restarts_by, pod_in};

use crate::own_restarts::check_restarts;
use crate::reading::{app_items_of, few, field_of, role_by, settings_in};
use json_fields::{field, text_at};
use manifest::{Place, Role, is_label, is_name};
use manifest_fields::{
    Field, Grammar, ManifestFault, array_or_none, object, probes_of, resources_of,
};
use serde_json::Value;

fn passes(grammar: Grammar, text: &[u8]) -> bool
    ensures { result ≡ passes grammar text.now }
{
    match grammar {
        Grammar::Name => is_name(text),
        Grammar::Label => is_label(text),
    }
}

fn text(grammar: Grammar, field: Field, value: &Value) -> Result<&str, ManifestFault>
    ensures { GivesExactly (λ s. s.now) result (text_of (passes grammar) field (view value.now)) }
{
    match value.as_str() {
        Some(text) if passes(grammar, text.as_bytes()) => Ok(text),
        _ => Err(ManifestFault::WrongKind(field)),
    }
}

fn required_text(
    grammar: Grammar,
    field: Field,
    found: Option<&Value>,
) -> Result<&str, ManifestFault>
    ensures { GivesExactly (λ s. s.now) result
        (required_text (passes grammar) field (option_map (λ v. view v.now) found.entry)) }
{
    match found {
        None => Err(ManifestFault::Missing(field)),
        Some(value) => text(grammar, field, value),
    }
}

fn text_or<'a>(
    default: &'a str,
    grammar: Grammar,
    field: Field,
    found: Option<&'a Value>,
) -> Result<&'a str, ManifestFault>
    ensures { GivesExactly (λ s. s.now) result
        (text_or default.now (passes grammar) field (option_map (λ v. view v.now) found.entry)) }
{
    match found {
        None => Ok(default),
        Some(value) => text(grammar, field, value),
    }
}

#[tactic(auto, unfolding(crate::specs::rule::Manifest::metadata_of))]
fn check_metadata(found: Option<&Value>) -> Result<(), ManifestFault>
    ensures { result ≡ checked (metadata_of (option_map (λ v. view v.now) found.entry)) }
{
    let metadata = object(Field::Metadata, found)?;
    required_text(Grammar::Name, Field::Name, field(metadata, "name"))?;
    text_or(
        "default",
        Grammar::Label,
        Field::Namespace,
        field(metadata, "namespace"),
    )?;
    Ok(())
}

fn check_restarts_by(own: bool, role: Role, container: &Value) -> Result<(), ManifestFault>
    ensures { result ≡ checked (restarts_by own role (view container.now)) }
{
    if own {
        check_restarts(role, container)
    } else {
        Ok(())
    }
}

#[tactic(auto, unfolding(crate::specs::rule::Manifest::container_of))]
fn check_container(own: bool, place: Place, value: &Value) -> Result<(), ManifestFault>
    ensures { result ≡ checked (container_of own place (view value.now)) }
{
    let object = object(field_of(place), Some(value))?;
    required_text(Grammar::Label, Field::ContainerName, field(object, "name"))?;
    let role = role_by(own, place, field(object, "restartPolicy"))?;
    check_restarts_by(own, role, object)?;
    resources_of(field(object, "resources"))?;
    probes_of(role, object)?;
    Ok(())
}

fn check_each(own: bool, place: Place, values: &[Value]) -> Result<(), ManifestFault>
    ensures { result ≡ checked (each (container_of own place) (map view values.now)) }
{
    for value in values {
        check_container(own, place, value)?;
    }
    Ok(())
}

/// The name in an item, nothing where there is none.
fn name_in(value: &Value) -> &str
    ensures { result.now ≡ name_in (view value.now) }
{
    text_at(value, "name").unwrap_or("")
}

fn has_name(values: &[Value], name: &str) -> bool
    ensures { result ≡ list_any (λ v. bytes_eq (name_in (view v)) name.now) values.now }
{
    values.iter().any(|value| name_in(value) == name)
}

/// Whether two of the items have one name.
fn is_name_twice(values: &[Value]) -> bool
    ensures { result ≡ is_name_twice (λ v. name_in (view v)) values.now }
{
    let mut rest = values;
    while let [first, others @ ..] = rest {
        if has_name(others, name_in(first)) {
            return true;
        }
        rest = others;
    }
    false
}

/// Whether two of the items and of those that come after them have one name.
fn is_name_twice_before(values: &[Value], behind: &[Value]) -> bool
    ensures { result ≡ is_name_twice_before (λ v. name_in (view v)) values.now behind.now }
{
    let mut rest = values;
    while let [first, others @ ..] = rest {
        let name = name_in(first);
        if has_name(others, name) || has_name(behind, name) {
            return true;
        }
        rest = others;
    }
    is_name_twice(behind)
}

/// The names of containers, each of which can be read.
#[tactic(auto, using(crate::proofs::Doubled::twice_in_all))]
fn check_apart(init_items: &[Value], items: &[Value]) -> Result<(), ManifestFault>
    ensures { result ≡ apart_at (map view init_items.now) (map view items.now) }
{
    if is_name_twice_before(init_items, items) {
        return Err(ManifestFault::DuplicateContainer);
    }
    Ok(())
}

#[tactic(auto, using(crate::proofs::CheckedSteps::containers_checked))]
fn check_containers_of(
    own: bool,
    init_items: &[Value],
    items: &[Value],
) -> Result<(), ManifestFault>
    ensures { result ≡ checked (containers_of own (map view init_items.now) (map view items.now)) }
{
    few(init_items, items)?;
    check_each(own, Place::InitContainers, init_items)?;
    check_each(own, Place::Containers, items)?;
    check_apart(init_items, items)
}

#[tactic(auto, unfolding(crate::specs::rule::Manifest::containers_in))]
fn check_containers_in(own: bool, spec: &Value) -> Result<(), ManifestFault>
    ensures { result ≡ checked (containers_in own (view spec.now)) }
{
    let init_items = array_or_none(Field::InitContainers, field(spec, "initContainers"))?;
    let items = app_items_of(field(spec, "containers"))?;
    check_containers_of(own, init_items, items)
}

/// Whether a manifest can be read, or its first fault. Doesn't allocate.
#[tactic(auto, using(crate::proofs::CheckedSteps::pod_checked))]
pub(crate) fn check_pod(own: bool, value: &Value) -> Result<(), ManifestFault>
    ensures { result ≡ checked (pod_in own (view value.now)) }
{
    let pod = object(Field::Pod, Some(value))?;
    check_metadata(field(pod, "metadata"))?;
    let spec = object(Field::Spec, field(pod, "spec"))?;
    settings_in(spec)?;
    check_containers_in(own, spec)
}
