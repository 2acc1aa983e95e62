//! The member that gives the statuses of a pod's conditions.

ghost use Rattle.std.specs.Prelude.{◌≡◌, map, option_map, IfOk, OnOk, string_bytes};
ghost use Rattle.serde_json.specs.View.{view, members_view};
ghost use Rattle.serde_json.specs.Data.{no_members, put};
ghost use Rattle.json.specs.Json as borrowed;
ghost use Rattle.json.specs.Value.{value_view, members_view as borrowed_members_view};
ghost use Rattle.json_fields.specs.state.Borrowed.{data_of};
ghost use Rattle.serde_json.specs.Find.{as_object};
ghost use Rattle.tick_lines.specs.rule.Statuses.{is_status, are_all_statuses, are_statuses};
ghost use Rattle.tick_lines.specs.rule.Conditions.{conditions_of};
ghost use Rattle.tick_lines.specs.rule.Resizes.{names_from};
ghost use Rattle.tick_lines.specs.rule.Statuses.{status_of, statuses_in, statuses_from};
ghost use Rattle.tick_lines.specs.state.Conditions.{status_data, members_statuses, all_statuses, if_statuses};
ghost use Rattle.tick_lines.specs.state.Conditions.{given_data, given_members};

use crate::resizes::keys_of;
use crate::value::TickValue;
use json::Value as BorrowedValue;
use serde_json::{Map, Value};
use std::alloc::{AllocError, Allocator, Global};
use std::collections::BTreeMap;
use std::marker::Model;

/// A condition's type and its status, if it has one. Contracts see the type's bytes and the status.
#[derive(Drop)]
struct ConditionStatus {
    name: String,
    status: Option<bool>,
}

impl Model for ConditionStatus {
    ghost use Rattle.std.specs.Prelude.{ℕ, Bool, List, Option, string_bytes};

    ghost Value = { List ℕ × Option Bool };

    ghost view = { λ s. (string_bytes s.name, s.status) };
}

impl ConditionStatus {
    ghost use Rattle.std.specs.Prelude.{◌≡◌, bytes_eq, IfOk};

    fn new(alloc: Global, name: &str, status: Option<bool>) -> Result<ConditionStatus, AllocError>
        ensures { IfOk result (λ s. s ≡ (name.now, status)) }
    {
        Ok(ConditionStatus {
            name: String::from_str(alloc, name)?,
            status,
        })
    }

    fn is_of(&self, name: &str) -> bool
        ensures { result ≡ bytes_eq name.now self.now.0 }
    {
        name == self.name.as_str()
    }

    fn status(&self) -> Option<bool>
        ensures { result ≡ self.now.1 }
    {
        self.status
    }
}

/// The statuses of conditions, by their types. Contracts see a list of types, each with its status, if it has one.
#[derive(Drop)]
pub struct ConditionStatuses {
    list: Vec<ConditionStatus>,
}

impl Model for ConditionStatuses {
    ghost use Rattle.std.specs.Prelude.{ℕ, Bool, List, Option};

    ghost Value = { List (List ℕ × Option Bool) };

    ghost view = { λ s. s.list.items };
}

impl ConditionStatuses {
    ghost use Rattle.std.specs.Prelude.{◌≡◌};
    ghost use Rattle.tick_lines.specs.rule.Statuses.{status_of};

    /// The status of the condition of this type, if there is one.
    pub fn status(&self, name: &str) -> Option<bool>
        ensures { result ≡ status_of self.now name.now }
    {
        status_of(self.list.as_slice(), name)
    }
}

/// The statuses that the members give, in the members' order.
fn statuses_of_members(
    alloc: Global,
    members: &Map<String, Value>,
) -> Result<Vec<ConditionStatus>, AllocError>
    ensures { IfOk result (λ list. list.items ≡ statuses_in (members_view members.now.entries)) }
{
    let mut list = Vec::new(alloc);
    for (name, value) in members.iter() {
        list.push(ConditionStatus::new(alloc, name.as_str(), value.as_bool())?)?;
    }
    Ok(list)
}

/// The statuses that an object's members give, if there is an object.
fn statuses_from(
    alloc: Global,
    object: Option<&Map<String, Value>>,
) -> Result<Vec<ConditionStatus>, AllocError>
    ensures { IfOk result (λ list. list.items
        ≡ statuses_from (option_map (λ m. members_view m.now.entries) object.entry)) }
{
    match object {
        Some(members) => statuses_of_members(alloc, members),
        None => Ok(Vec::new(alloc)),
    }
}

fn status_of(statuses: &[ConditionStatus], name: &str) -> Option<bool>
    ensures { result ≡ status_of statuses.now name.now }
{
    for status in statuses {
        if status.is_of(name) {
            return status.status();
        }
    }
    None
}

/// The content of an entry's member `conditions`. (This project's extended format.)
#[derive(Drop)]
pub enum ConditionsMember {
    /// Nothing: it is missing or null.
    Missing,
    /// It is an object of true, false and null.
    Statuses(ConditionStatuses),
    /// It is an object with another value, or a value of another kind.
    OfOtherKind,
}

/// Whether a value is true, false or null.
fn is_status(value: &Value) -> bool
    ensures { result ≡ is_status (view value.now) }
{
    value.is_null() || value.as_bool().is_some()
}

fn are_all_statuses(members: &Map<String, Value>) -> bool
    ensures { result ≡ are_all_statuses (members_view members.now.entries) }
{
    for (name, value) in members.iter() {
        if !is_status(value) {
            return false;
        }
    }
    true
}

/// Whether a value is an object of true, false and null.
fn are_statuses(value: &Value) -> bool
    ensures { result ≡ are_statuses (view value.now) }
{
    match value.as_object() {
        Some(members) => are_all_statuses(members),
        None => false,
    }
}

/// The statuses that a value gives, if it is an object of true, false and null.
pub(crate) fn statuses_in(
    alloc: Global,
    value: &Value,
) -> Result<Option<ConditionStatuses>, AllocError>
    ensures { IfOk result (λ found. found ≡ if_statuses (view value.now)) }
{
    if !are_statuses(value) {
        return Ok(None);
    }
    Ok(Some(ConditionStatuses {
        list: statuses_from(alloc, value.as_object())?,
    }))
}

/// What a member gives: true, false or null, or nothing where the value is another one.
type Given = Option<Option<bool>>;

/// What a value gives whose texts are in the line.
fn given_by<A: Allocator>(value: &BorrowedValue<'_, A>) -> Given
    ensures { given_data result ≡ status_data (data_of (value_view value.now)) }
{
    match value {
        BorrowedValue::Null => Some(None),
        BorrowedValue::Bool(truth) => Some(Some(*truth)),
        _ => None,
    }
}

/// Sets what a name gives.
// This map is not one of JSON values: the reader's own insertion keeps a single caller, and stays inlined.
fn note_given(
    noted: &mut BTreeMap<String, Given>,
    name: String,
    given: Given,
) -> Result<(), AllocError>
    ensures { OnOk result (given_members noted.new.entries
        ≡ put (string_bytes name) (given_data given) (given_members noted.old.entries)) }
{
    noted.insert(name, given)?;
    Ok(())
}

/// What each name gives. The last member of a name counts.
fn given_in<A: Allocator>(
    alloc: Global,
    members: &[(&str, BorrowedValue<'_, A>)],
) -> Result<BTreeMap<String, Given>, AllocError>
    ensures { IfOk result (λ m. given_members m.entries
        ≡ members_statuses (borrowed_members_view members.now) no_members) }
{
    let mut noted = BTreeMap::new(alloc);
    for member in members {
        let name = String::from_str(alloc, member.0)?;
        note_given(&mut noted, name, given_by(&member.1))?;
    }
    Ok(noted)
}

/// The names of an object's members whose texts are in the line, each of them once.
fn borrowed_names_of<A: Allocator>(
    alloc: Global,
    members: &[(&str, BorrowedValue<'_, A>)],
) -> Result<Vec<String>, AllocError>
    ensures { IfOk result (λ names. map string_bytes names.items
        ≡ names_from (as_object (data_of (borrowed.object (borrowed_members_view members.now))))) }
{
    let noted = given_in(alloc, members)?;
    keys_of(alloc, &noted)
}

/// The names of the members of a value whose texts are in the line; none if it is no object.
pub(crate) fn borrowed_names_in<A: Allocator>(
    alloc: Global,
    value: &BorrowedValue<'_, A>,
) -> Result<Vec<String>, AllocError>
    ensures { IfOk result (λ names. map string_bytes names.items
        ≡ names_from (as_object (data_of (value_view value.now)))) }
{
    match value {
        BorrowedValue::Object(members) => borrowed_names_of(alloc, members),
        _ => Ok(Vec::new(alloc)),
    }
}

/// The statuses by name, if every member gives one.
#[tactic(auto, using(crate::proofs::Statuses::added))]
fn all_given(
    alloc: Global,
    noted: &BTreeMap<String, Given>,
) -> Result<Option<Vec<ConditionStatus>>, AllocError>
    ensures { IfOk result (λ found. option_map (λ l. l.items) found
        ≡ all_statuses (given_members noted.now.entries)) }
{
    let mut list = Vec::new(alloc);
    for (name, given) in noted.iter() {
        let Some(status) = given else {
            return Ok(None);
        };
        list.push(ConditionStatus::new(alloc, name.as_str(), *status)?)?;
    }
    Ok(Some(list))
}

/// The statuses that an object gives whose texts are in the line, if it is one of true, false and null.
#[tactic(auto, using(crate::proofs::Statuses::borrowed_found))]
fn object_of<A: Allocator>(
    alloc: Global,
    members: &[(&str, BorrowedValue<'_, A>)],
) -> Result<Option<ConditionStatuses>, AllocError>
    ensures { IfOk result (λ found. found
        ≡ if_statuses (data_of (borrowed.object (borrowed_members_view members.now)))) }
{
    let noted = given_in(alloc, members)?;
    match all_given(alloc, &noted)? {
        Some(list) => Ok(Some(ConditionStatuses { list })),
        None => Ok(None),
    }
}

/// The statuses that a value gives whose texts are in the line, if it is an object of true, false and null.
pub(crate) fn borrowed_statuses_in<A: Allocator>(
    alloc: Global,
    value: &BorrowedValue<'_, A>,
) -> Result<Option<ConditionStatuses>, AllocError>
    ensures { IfOk result (λ found. found ≡ if_statuses (data_of (value_view value.now))) }
{
    match value {
        BorrowedValue::Object(members) => object_of(alloc, members),
        _ => Ok(None),
    }
}

/// The content of such a member.
pub(crate) fn conditions_of<V: TickValue>(
    alloc: Global,
    found: Option<&V>,
) -> Result<ConditionsMember, AllocError>
    ensures { IfOk result (λ c. c ≡ conditions_of (option_map (λ v. V.data v.now) found.entry)) }
{
    let Some(value) = found else {
        return Ok(ConditionsMember::Missing);
    };
    match value.statuses(alloc)? {
        Some(statuses) => Ok(ConditionsMember::Statuses(statuses)),
        None => Ok(ConditionsMember::OfOtherKind),
    }
}
