//! The entries of a tick line, read from the tape of its tokens without a copy of its texts. If one of these answers
//! none, the line has a fault, or a shape that is left to `tick_line_of`.

ghost use Rattle.std.specs.Prelude.{◌≡◌, IsTrue, List, Some, option_map, Ok, IfSome};
ghost use Rattle.json.specs.Token.{Token};
ghost use Rattle.json.specs.Value.{value_view};
ghost use Rattle.serde_json.specs.Data.{Data};
ghost use Rattle.json_fields.specs.state.Borrowed.{data_of};
ghost use Rattle.json_fields.specs.rule.Fields.{present};
ghost use Rattle.json_fields.specs.state.Tape.{data_at, IsNextMember};
ghost use Rattle.tick_lines.specs.rule.Fields.{items_of, quantity_at};
ghost use Rattle.tick_lines.specs.rule.Listings.{attempt_of, state_of, listing_of};
ghost use Rattle.tick_lines.specs.rule.Results.{result_of};
ghost use Rattle.tick_lines.specs.state.Tape.{text_in, code_in, probe_in, outcome_in, left_in, listing_as, result_as};
ghost use Rattle.tick_lines.specs.state.Tape.{truth_in, reason_in, conditions_in, resized_in};
ghost use Rattle.tick_lines.specs.declared.reason.ReasonMember.TheVariants.{Missing};
ghost use Rattle.tick_lines.specs.declared.conditions.ConditionsMember.TheVariants.{Missing as NoConditions};
ghost use Rattle.tick_lines.specs.declared.resizes.ResizedMember.TheVariants.{Missing as NoResizes};
ghost use Rattle.tick_lines.specs.declared.truth.TruthMember.TheVariants.{No};
ghost use Rattle.tick_lines.specs.state.Tape.{ListingRead, ResultRead, UsageRead, EntryRead, IsEntry};
ghost use Rattle.tick_lines.specs.rule.Usages.{usage_in, usage_of};

use crate::fields::quantity_at;
use crate::listing::{ListedInstance, attempt_of, code_of, state_of};
use crate::probing::{outcome_named, probe_named};
use crate::truth::{TruthMember, truth_of};
use json::Value;
use json_fields::{TapeItems, TapeValue};
use manifest::{Outcome, ProbeKind};
use observations::Usage;
use quantity::Quantity;
use state_diff::CriState;

/// A container's listing, whose name is a text of the line.
#[derive(Clone, Copy)]
pub struct ListingText<'a> {
    /// The container's name.
    pub name: &'a str,
    /// The instance that is listed.
    pub instance: ListedInstance,
}

/// A result of a container's probe, whose name is a text of the line.
#[derive(Clone, Copy)]
pub struct ResultText<'a> {
    /// The container's name.
    pub container: &'a str,
    /// Which of its probes.
    pub probe: ProbeKind,
    /// What the probe found. (Kubernetes, "Pod Lifecycle", "Probe outcome".)
    pub outcome: Outcome,
}

/// A pod's entry, whose listings and results are still to be read.
#[derive(Drop)]
pub struct EntryText<'t, 'a> {
    /// The pod's key, as `NAMESPACE/NAME`.
    pub key: &'a str,
    /// The listings of its containers, if the entry has some.
    pub listings: Option<TapeItems<'t, 'a>>,
    /// The results of their probes, if the entry has some.
    pub results: Option<TapeItems<'t, 'a>>,
    /// What the pod used, where the entry has a sample of it.
    pub usage: Option<Usage>,
}

/// What was read of a listing's members. A required member has nothing if it is missing, null or at fault; a later one
/// of the same name may still be good.
#[derive(Clone, Copy)]
struct ListingMembers<'a> {
    name: Option<&'a str>,
    attempt: u32,
    state: Option<CriState>,
    code: Option<i32>,
}

/// What was read of a result's members, as in `ListingMembers`.
#[derive(Clone, Copy)]
struct ResultMembers<'a> {
    container: Option<&'a str>,
    probe: Option<ProbeKind>,
    outcome: Option<Outcome>,
}

/// What was read of an entry's members, as in `ListingMembers`.
#[derive(Drop)]
struct EntryMembers<'t, 'a> {
    key: Option<&'a str>,
    listings: Option<TapeItems<'t, 'a>>,
    results: Option<TapeItems<'t, 'a>>,
    usage: Option<Usage>,
}

/// A use of which no member was read.
const NOTHING_READ: Usage = Usage {
    memory: None,
    volumes: None,
    logs: None,
    writable: None,
    inodes: None,
    pids: None,
};

/// What a member holds, where null counts as absent; none if it is an array or an object.
pub(crate) fn scalar_here<'a>(value: &TapeValue<'_, 'a>) -> Option<Option<Value<'a>>>
    ensures { IfSome result (λ found.
        option_map (λ v. data_of (value_view v)) found ≡ present (Some (data_at value.now))) }
{
    if value.is_null() {
        return Some(None);
    }
    let found = value.scalar()?;
    Some(Some(found))
}

/// The quantity that a member holds, if it is not null.
fn quantity_here(value: &TapeValue<'_, '_>) -> Option<Option<Quantity>>
    ensures { IfSome result (λ quantity. quantity_at (present (Some (data_at value.now))) ≡ Ok quantity) }
{
    // Most quantities are texts, of which no value need be made.
    if let Some(text) = value.text() {
        let quantity = Quantity::parse(text.as_bytes()).ok()?;
        return Some(Some(quantity));
    }
    let found = scalar_here(value)?;
    quantity_at(found.as_ref()).ok()
}

fn attempt_here(value: &TapeValue<'_, '_>) -> Option<u32>
    ensures { IfSome result (λ attempt. attempt_of (present (Some (data_at value.now))) ≡ Ok attempt) }
{
    let found = scalar_here(value)?;
    attempt_of(found.as_ref()).ok()
}

fn state_here(value: &TapeValue<'_, '_>) -> Option<CriState>
    ensures { IfSome result (λ state. state_of (present (Some (data_at value.now))) ≡ Ok state) }
{
    let found = scalar_here(value)?;
    state_of(found.as_ref()).ok()
}

fn code_here(value: &TapeValue<'_, '_>) -> Option<Option<i32>>
    ensures { IfSome result (λ code. code_in (present (Some (data_at value.now))) ≡ Ok code) }
{
    let found = scalar_here(value)?;
    Some(code_of(found.as_ref()))
}

fn text_here<'a>(value: &TapeValue<'_, 'a>) -> Option<&'a str>
    ensures { IfSome result (λ text. text_in (present (Some (data_at value.now))) ≡ Ok text.now) }
{
    value.text()
}

fn probe_here(value: &TapeValue<'_, '_>) -> Option<ProbeKind>
    ensures { IfSome result (λ probe. probe_in (present (Some (data_at value.now))) ≡ Ok probe) }
{
    probe_named(value.text()).ok()
}

fn outcome_here(value: &TapeValue<'_, '_>) -> Option<Outcome>
    ensures { IfSome result (λ outcome. outcome_in (present (Some (data_at value.now))) ≡ Ok outcome) }
{
    outcome_named(value.text()).ok()
}

/// The items that a member holds, if it is not null.
pub(crate) fn items_here<'t, 'a>(value: &TapeValue<'t, 'a>) -> Option<Option<TapeItems<'t, 'a>>>
    ensures { IfSome result (λ items. items_of (present (Some (data_at value.now))) ≡ Ok (left_in items)) }
{
    if value.is_null() {
        return Some(None);
    }
    let items = value.items()?;
    Some(Some(items))
}

/// What was read of a listing, and of one member more.
fn listing_with<'a>(
    listing: ListingMembers<'a>,
    name: &str,
    value: &TapeValue<'_, 'a>,
) -> Option<ListingMembers<'a>>
    ensures { (d : Data) (old new : List Token) → IsNextMember name.now value.now old new
        → ListingRead d old listing.entry → IfSome result (ListingRead d new) }
{
    match name {
        "name" => Some(ListingMembers {
            name: text_here(value),
            ..listing
        }),
        "attempt" => Some(ListingMembers {
            attempt: attempt_here(value)?,
            ..listing
        }),
        "state" => Some(ListingMembers {
            state: state_here(value),
            ..listing
        }),
        "exitCode" => Some(ListingMembers {
            code: code_here(value)?,
            ..listing
        }),
        _ => Some(listing),
    }
}

/// The listing that an item of an entry is.
pub fn listing_text<'a>(value: &TapeValue<'_, 'a>) -> Option<ListingText<'a>>
    ensures { IfSome result (λ listing. listing_of (data_at value.now) ≡ Ok (listing_as listing)) }
{
    let mut members = value.members()?;
    let mut listing = ListingMembers {
        name: None,
        attempt: 0,
        state: None,
        code: None,
    };
    while let Some((field, found)) = members.next() {
        listing = listing_with(listing, field, &found)?;
    }
    let name = listing.name?;
    let instance = ListedInstance {
        attempt: listing.attempt,
        state: listing.state?,
        code: listing.code,
    };
    Some(ListingText { name, instance })
}

/// What was read of a result, and of one member more.
fn result_with<'a>(
    read: ResultMembers<'a>,
    name: &str,
    value: &TapeValue<'_, 'a>,
) -> Option<ResultMembers<'a>>
    ensures { (d : Data) (old new : List Token) → IsNextMember name.now value.now old new
        → ResultRead d old read.entry → IfSome result (ResultRead d new) }
{
    match name {
        "container" => Some(ResultMembers {
            container: text_here(value),
            ..read
        }),
        "probe" => Some(ResultMembers {
            probe: probe_here(value),
            ..read
        }),
        "result" => Some(ResultMembers {
            outcome: outcome_here(value),
            ..read
        }),
        _ => Some(read),
    }
}

/// The result that an item of an entry is.
pub fn result_text<'a>(value: &TapeValue<'_, 'a>) -> Option<ResultText<'a>>
    ensures { IfSome result (λ read. result_of (data_at value.now) ≡ Ok (result_as read)) }
{
    let mut members = value.members()?;
    let mut read = ResultMembers {
        container: None,
        probe: None,
        outcome: None,
    };
    while let Some((field, found)) = members.next() {
        read = result_with(read, field, &found)?;
    }
    Some(ResultText {
        container: read.container?,
        probe: read.probe?,
        outcome: read.outcome?,
    })
}

/// What was read of a use, and of one member more.
fn usage_with(usage: Usage, name: &str, value: &TapeValue<'_, '_>) -> Option<Usage>
    ensures { (d : Data) (old new : List Token) → IsNextMember name.now value.now old new
        → UsageRead d old usage → IfSome result (UsageRead d new) }
{
    match name {
        "memory" => Some(Usage {
            memory: quantity_here(value)?,
            ..usage
        }),
        "volumes" => Some(Usage {
            volumes: quantity_here(value)?,
            ..usage
        }),
        "logs" => Some(Usage {
            logs: quantity_here(value)?,
            ..usage
        }),
        "writable" => Some(Usage {
            writable: quantity_here(value)?,
            ..usage
        }),
        "inodes" => Some(Usage {
            inodes: quantity_here(value)?,
            ..usage
        }),
        "pids" => Some(Usage {
            pids: quantity_here(value)?,
            ..usage
        }),
        _ => Some(usage),
    }
}

fn usage_in(value: &TapeValue<'_, '_>) -> Option<Usage>
    ensures { IfSome result (λ usage. usage_in (data_at value.now) ≡ Ok usage) }
{
    let mut members = value.members()?;
    let mut usage = NOTHING_READ;
    while let Some((field, found)) = members.next() {
        usage = usage_with(usage, field, &found)?;
    }
    Some(usage)
}

/// What the pod used, if the member is not null.
fn usage_here(value: &TapeValue<'_, '_>) -> Option<Option<Usage>>
    ensures { IfSome result (λ usage. usage_of (present (Some (data_at value.now))) ≡ Ok usage) }
{
    if value.is_null() {
        return Some(None);
    }
    let usage = usage_in(value)?;
    Some(Some(usage))
}

/// Whether a member that may be true means nothing: it is null or false.
fn is_silent(value: &TapeValue<'_, '_>) -> bool
    ensures { IsTrue result → truth_in (present (Some (data_at value.now))) ≡ Ok No }
{
    let Some(found) = scalar_here(value) else {
        return false;
    };
    matches!(truth_of(found.as_ref()), TruthMember::No)
}

/// Whether a member that may be a reason means nothing: it is null.
fn is_missing(value: &TapeValue<'_, '_>) -> bool
    ensures { IsTrue result → reason_in (present (Some (data_at value.now))) ≡ Ok Missing }
{
    value.is_null()
}

/// Whether a member that may have statuses of conditions means nothing: it is null.
fn has_no_conditions(value: &TapeValue<'_, '_>) -> bool
    ensures { IsTrue result → conditions_in (present (Some (data_at value.now))) ≡ Ok NoConditions }
{
    value.is_null()
}

/// Whether a member that may have resizes of containers means nothing: it is null.
fn has_no_resizes(value: &TapeValue<'_, '_>) -> bool
    ensures { IsTrue result → resized_in (present (Some (data_at value.now))) ≡ Ok NoResizes }
{
    value.is_null()
}

/// What was read of an entry, and of one more member; none if the entry has a word or a resize, which are rare.
fn entry_with<'t, 'a>(
    entry: EntryMembers<'t, 'a>,
    name: &str,
    value: &TapeValue<'t, 'a>,
) -> Option<EntryMembers<'t, 'a>>
    ensures { (d : Data) (old new : List Token) → IsNextMember name.now value.now old new
        → EntryRead d old entry.entry → IfSome result (EntryRead d new) }
{
    match name {
        "pod" => Some(EntryMembers {
            key: text_here(value),
            ..entry
        }),
        "containers" => Some(EntryMembers {
            listings: items_here(value)?,
            ..entry
        }),
        "probes" => Some(EntryMembers {
            results: items_here(value)?,
            ..entry
        }),
        "usage" => Some(EntryMembers {
            usage: usage_here(value)?,
            ..entry
        }),
        "unsampled" | "deleting" => if is_silent(value) { Some(entry) } else { None },
        "failed" => if is_missing(value) { Some(entry) } else { None },
        "conditions" => if has_no_conditions(value) {
            Some(entry)
        } else {
            None
        },
        "resized" => if has_no_resizes(value) {
            Some(entry)
        } else {
            None
        },
        _ => Some(entry),
    }
}

/// What an item of a tick line has of a pod except its listings and results; none if it marks the pod as unsampled or
/// as being deleted, or has a reason for its end, the statuses of its conditions, or resizes.
pub fn entry_text<'t, 'a>(value: &TapeValue<'t, 'a>) -> Option<EntryText<'t, 'a>>
    ensures { IfSome result (IsEntry (data_at value.now)) }
{
    let mut members = value.members()?;
    let mut entry = EntryMembers {
        key: None,
        listings: None,
        results: None,
        usage: None,
    };
    while let Some((field, found)) = members.next() {
        entry = entry_with(entry, field, &found)?;
    }
    Some(EntryText {
        key: entry.key?,
        listings: entry.listings,
        results: entry.results,
        usage: entry.usage,
    })
}
