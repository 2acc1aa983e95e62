//! The member that gives resized containers their requests and limits.

ghost use Rattle.std.specs.Prelude.{◌≡◌, ◌++◌, [], map, option_map, IfOk, OnOk, string_bytes};
ghost use Rattle.std.specs.List.{cons_option};
ghost use Rattle.serde_json.specs.View.{members_view};
ghost use Rattle.json_fields.specs.state.Reading.{GivesExactly, GivesUnless};
ghost use Rattle.tick_lines.specs.rule.Resizes.{names_in, resources_given, resize_named, resizes_named, resizes_in};
ghost use Rattle.tick_lines.specs.rule.Resizes.{resized_by, resized_of};
ghost use Rattle.tick_lines.specs.state.Memory.{is_memory};

use crate::fault::TickLineFault;
use crate::value::TickValue;
use json_fields::{Json, field};
use lists::Sequence;
use manifest::{Resources, Text};
use manifest_fields::resources_of;
use serde_json::{Map, Value};
use std::alloc::{AllocError, Global};
use std::collections::BTreeMap;

/// The requests and limits that an entry gives a container from its tick on.
#[derive(Drop)]
pub struct ContainerResize {
    /// The container's name.
    pub container: Text,
    /// Its requests and limits.
    pub resources: Resources,
}

/// The content of an entry's member `resized`. (This project's extended format.)
#[derive(Drop)]
pub enum ResizedMember {
    /// Nothing: it is missing or null.
    Missing,
    /// It is an object of requests and limits, by the names of containers.
    Resizes(Sequence<ContainerResize>),
    /// It is an object with a faulty value, or a value of another kind.
    OfOtherKind,
}

/// A map's keys, in their order.
pub(crate) fn keys_of<T>(
    alloc: Global,
    members: &BTreeMap<String, T>,
) -> Result<Vec<String>, AllocError>
    ensures { IfOk result (λ names. map string_bytes names.items
        ≡ map (λ m. string_bytes m.0) members.now.entries) }
{
    let mut names = Vec::new(alloc);
    for (name, _) in members.iter() {
        names.push(String::from_str(alloc, name.as_str())?)?;
    }
    Ok(names)
}

/// The names of the members, in the members' order.
pub(crate) fn names_of(
    alloc: Global,
    members: &Map<String, Value>,
) -> Result<Vec<String>, AllocError>
    ensures { IfOk result (λ names. map string_bytes names.items ≡ names_in (members_view members.now.entries)) }
{
    keys_of(alloc, members)
}

/// The requests and limits that a member gives.
fn resources_given<V: Json>(found: Option<&V>) -> Result<Option<Resources>, TickLineFault>
    ensures { GivesExactly (λ r. r) result (resources_given (option_map (λ v. V.data v.now) found.entry)) }
{
    if found.is_none() {
        return Ok(None);
    }
    match resources_of(found) {
        Ok(resources) => Ok(Some(resources)),
        Err(_) => Err(TickLineFault::Usage),
    }
}

/// The resize of the container of this name, if the object's member gives it some resources.
fn resize_named<V: Json>(
    alloc: Global,
    object: &V,
    name: &str,
) -> Result<Option<ContainerResize>, TickLineFault>
    ensures { GivesUnless is_memory (λ r. r) result (resize_named (V.data object.now) name.now) }
{
    let Some(resources) = resources_given(field(object, name))? else {
        return Ok(None);
    };
    let container = Text::new(String::from_str(alloc, name)?);
    Ok(Some(ContainerResize {
        container,
        resources,
    }))
}

/// Appends a resize, if there is one.
fn add(
    all: &mut Sequence<ContainerResize>,
    resize: Option<ContainerResize>,
) -> Result<(), AllocError>
    ensures { OnOk result (all.new ≡ all.old ++ cons_option resize []) }
{
    match resize {
        Some(resize) => all.push(resize),
        None => Ok(()),
    }
}

/// The resizes of the containers with these names, by the object's members.
fn resizes_named<V: Json>(
    alloc: Global,
    object: &V,
    names: &[String],
) -> Result<Sequence<ContainerResize>, TickLineFault>
    ensures { GivesUnless is_memory (λ s. s) result (resizes_named (V.data object.now) (map string_bytes names.now)) }
{
    let mut resizes = Sequence::new(alloc);
    for name in names {
        let resize = resize_named(alloc, object, name.as_str())?;
        add(&mut resizes, resize)?;
    }
    Ok(resizes)
}

/// The content of an object.
fn resized_by<V: TickValue>(alloc: Global, object: &V) -> Result<ResizedMember, AllocError>
    ensures { IfOk result (λ m. m ≡ resized_by (resizes_in (V.data object.now))) }
{
    let names = object.names(alloc)?;
    match resizes_named(alloc, object, &names) {
        Ok(resizes) => Ok(ResizedMember::Resizes(resizes)),
        Err(TickLineFault::Usage) => Ok(ResizedMember::OfOtherKind),
        Err(TickLineFault::OutOfMemory) => Err(AllocError),
    }
}

/// The content of such a member.
pub(crate) fn resized_of<V: TickValue>(
    alloc: Global,
    found: Option<&V>,
) -> Result<ResizedMember, AllocError>
    ensures { IfOk result (λ m. m ≡ resized_of (option_map (λ v. V.data v.now) found.entry)) }
{
    let Some(value) = found else {
        return Ok(ResizedMember::Missing);
    };
    if !value.is_object() {
        return Ok(ResizedMember::OfOtherKind);
    }
    resized_by(alloc, value)
}
