//! What an entry shows of its pod's containers, noted as its listings and results come.

ghost use Rattle.std.specs.Prelude.{◌≡◌, ◌↔◌, ◌<◌, List, [], length, IsTrue, OnOk, Ok, Some, IfSome};
ghost use Rattle.json_fields.specs.state.Tape.{data_at, items_in};
ghost use Rattle.manifest.specs.rule.Containers.{names_of};
ghost use Rattle.lists.specs.rule.Names.{place_of};
ghost use Rattle.tick_lines.specs.state.Tape.{left_in};
ghost use Rattle.trace.specs.declared.placing.PlacedListing.{PlacedListing};
ghost use Rattle.trace.specs.state.Noted.{AreUnknown, NotesListing, NotesResult, ListingsNoted, ResultsNoted};
ghost use Rattle.trace.specs.state.Noted.{unknown};
ghost use Rattle.trace.specs.rule.Observed.{containers_from};
ghost use Rattle.trace.specs.state.Tape.{listing_read, result_read};

use crate::placing::{PlacedListing, PlacedResult};
use crate::tick::{lacks_code, seen_listed};
use json_fields::{TapeItems, TapeValue};
use manifest::{ContainerSpec, PodSpec};
use observations::ContainerObs;
use std::alloc::AllocError;
use tick_lines::{listing_text, result_text};

/// A container of which nothing is known.
fn unknown() -> ContainerObs
    ensures { result ≡ unknown }
{
    ContainerObs {
        seen: None,
        results: [None; 3],
    }
}

/// Makes a list of containers of which nothing is known one of these containers; keeps the list if it has as many.
pub(crate) fn keep_unknown(
    all: &mut Vec<ContainerObs>,
    containers: &[ContainerSpec],
) -> Result<(), AllocError>
    requires { AreUnknown all.old.items }
    ensures { OnOk result (all.new.items ≡ containers_from [] [] 0 containers.now) }
{
    all.resize(containers.len(), unknown())
}

/// Starts again: nothing is known of any container.
pub(crate) fn clear(
    all: &mut Vec<ContainerObs>,
    containers: &[ContainerSpec],
) -> Result<(), AllocError>
    ensures { OnOk result (all.new.items ≡ containers_from [] [] 0 containers.now) }
{
    all.clear();
    keep_unknown(all, containers)
}

/// Notes a listing, unless its container has an earlier one. Returns whether it has.
pub(crate) fn note_listing(all: &mut [ContainerObs], listing: PlacedListing) -> bool
    requires { listing.container < length all.old }
    ensures { NotesListing listing all.old all.new result }
{
    if all[listing.container].seen.is_some() {
        return true;
    }
    all[listing.container].seen = Some(seen_listed(listing.instance));
    false
}

/// Notes a probe's result, unless the probe has an earlier one. Returns whether it has.
pub(crate) fn note_result(all: &mut [ContainerObs], written: PlacedResult) -> bool
    requires { written.container < length all.old }
    ensures { NotesResult written all.old all.new result }
{
    let place = written.probe.place();
    if all[written.container].results[place].is_some() {
        return true;
    }
    all[written.container].results[place] = Some(written.outcome);
    false
}

/// Whether the container with the number has this name.
fn is_named(pod: &PodSpec, number: usize, name: &str) -> bool
    ensures { IsTrue result ↔ (place_of (names_of pod.now.containers) name.now ≡ Some number) }
{
    match pod.containers.as_slice().get(number) {
        Some(container) => name == container.name.as_str(),
        None => false,
    }
}

/// The number of the container with this name, found at once if it is this number or the next: entries mostly name
/// their containers in order.
fn number_near(pod: &PodSpec, name: &str, near: usize) -> Option<usize>
    ensures { result ≡ place_of (names_of pod.now.containers) name.now }
{
    if is_named(pod, near, name) {
        return Some(near);
    }
    let next = near.saturating_add(1);
    if is_named(pod, next, name) {
        return Some(next);
    }
    pod.containers.number_of(name)
}

/// The listing that an item is, of a container that likely has this number or the next.
fn listing_near(pod: &PodSpec, value: &TapeValue<'_, '_>, near: usize) -> Option<PlacedListing>
    ensures { IfSome result (λ l. listing_read pod.now (data_at value.now) ≡ Ok l) }
{
    let listing = listing_text(value)?;
    let container = number_near(pod, listing.name, near)?;
    Some(PlacedListing {
        container,
        instance: listing.instance,
    })
}

/// The result that an item is, of a container that likely has this number or the next.
fn result_near(pod: &PodSpec, value: &TapeValue<'_, '_>, near: usize) -> Option<PlacedResult>
    ensures { IfSome result (λ r. result_read pod.now (data_at value.now) ≡ Ok r) }
{
    let read = result_text(value)?;
    let container = number_near(pod, read.container, near)?;
    Some(PlacedResult {
        container,
        probe: read.probe,
        outcome: read.outcome,
    })
}

/// Notes these listings. Returns false if one is at fault or has no such container, or two are of one container.
fn has_noted_listings(pod: &PodSpec, mut items: TapeItems<'_, '_>, all: &mut [ContainerObs]) -> bool
    requires { all.old ≡ containers_from [] [] 0 pod.now.containers }
    ensures { IsTrue result → ListingsNoted pod.now (items_in items.entry) all.new }
{
    let mut near = 0;
    while let Some(value) = items.next() {
        let Some(listing) = listing_near(pod, &value, near) else {
            return false;
        };
        near = listing.container.saturating_add(1);
        if lacks_code(listing.instance) || note_listing(all, listing) {
            return false;
        }
    }
    true
}

/// Notes these results. Returns false if one is at fault or has no such container, or two are of one probe.
fn has_noted_results(pod: &PodSpec, mut items: TapeItems<'_, '_>, all: &mut [ContainerObs]) -> bool
    requires { length all.old ≡ length pod.now.containers }
    ensures { (ls : List PlacedListing) → all.old ≡ containers_from ls [] 0 pod.now.containers
        → IsTrue result → ResultsNoted pod.now ls (items_in items.entry) all.new }
{
    let mut near = 0;
    while let Some(value) = items.next() {
        let Some(written) = result_near(pod, &value, near) else {
            return false;
        };
        near = written.container;
        if note_result(all, written) {
            return false;
        }
    }
    true
}

/// Notes an entry's listings. After false the entry is to be read otherwise, and the notes mean nothing.
pub(crate) fn note_listings(
    pod: &PodSpec,
    items: Option<TapeItems<'_, '_>>,
    all: &mut Vec<ContainerObs>,
) -> bool
    requires { all.old.items ≡ containers_from [] [] 0 pod.now.containers }
    ensures { IsTrue result → ListingsNoted pod.now (left_in items.entry) all.new.items }
{
    match items {
        Some(items) => has_noted_listings(pod, items, all),
        None => true,
    }
}

/// Notes an entry's results, after its listings. After false the entry is to be read otherwise, and the notes mean
/// nothing.
pub(crate) fn note_results(
    pod: &PodSpec,
    items: Option<TapeItems<'_, '_>>,
    all: &mut Vec<ContainerObs>,
) -> bool
    requires { length all.old.items ≡ length pod.now.containers }
    ensures { (ls : List PlacedListing) → all.old.items ≡ containers_from ls [] 0 pod.now.containers
        → IsTrue result → ResultsNoted pod.now ls (left_in items.entry) all.new.items }
{
    match items {
        Some(items) => has_noted_results(pod, items, all),
        None => true,
    }
}
