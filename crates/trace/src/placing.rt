//! The entries of a tick line, with numbers in the place of names.

ghost use Rattle.std.specs.Prelude.{◌≡◌, ◌==◌, ◌++◌, ◌∷◌, [], length, map, None, Ok, OnOk, if◌then◌else◌};
ghost use Rattle.std.specs.List.{range_with_len};
ghost use Rattle.manifest.specs.rule.Gates.{most_gates};
ghost use Rattle.observations.specs.rule.Pods.{no_gates};
ghost use Rattle.trace.specs.rule.Placing.{gate_given, gates_given};
ghost use Rattle.json_fields.specs.rule.Reading.{each};
ghost use Rattle.json_fields.specs.state.Reading.{GivesExactly, GivesUnless, checked};
ghost use Rattle.trace.specs.state.Memory.{is_memory};
ghost use Rattle.trace.specs.rule.Placing.{number_in, container_number, placed_listing, placed_result, pod_numbered};
ghost use Rattle.trace.specs.rule.Placing.{placed_resize, resizes_by};
ghost use Rattle.trace.specs.rule.Placing.{entry_of_pod, has_twice, are_of_one_container, is_of_probe};
ghost use Rattle.trace.specs.state.Placing.{entries_of_pods};
ghost use Rattle.trace.specs.rule.Placing.{are_of_one_probe, repeats, sampled_or, without_sample};
ghost use Rattle.trace.specs.rule.Placing.{sampling_of, reason_given, words_of, said_in, placed_entry, placed_of};
ghost use Rattle.std.specs.List.{list_any};

use crate::words::says_so;
use line_faults::FaultKind;
use lists::Sequence;
use manifest::{MOST_GATES, Outcome, PodSpec, ProbeKind, ReadinessGates};
use observations::{EndReason, NO_GATES, PodWords, Resize, Sampling, Usage};
use roster::Roster;
use std::alloc::Global;
use tick_lines::{
    ConditionStatuses, ConditionsMember, ContainerResize, ListedInstance, Listing, ProbeResult,
    ReasonMember, ResizedMember, TickEntry, TruthMember,
};

/// A listing of the container with the number.
#[derive(Clone, Copy)]
pub(crate) struct PlacedListing {
    pub(crate) container: usize,
    pub(crate) instance: ListedInstance,
}

/// A result of a probe of the container with the number.
#[derive(Clone, Copy)]
pub(crate) struct PlacedResult {
    pub(crate) container: usize,
    pub(crate) probe: ProbeKind,
    pub(crate) outcome: Outcome,
}

/// What an entry has of its pod in addition to its listings, results and resizes.
#[derive(Drop)]
pub(crate) struct EntrySaid {
    pub(crate) sampling: Sampling,
    pub(crate) words: PodWords,
}

/// An entry of the pod with the number.
#[derive(Drop)]
pub(crate) struct PlacedEntry {
    pub(crate) pod: usize,
    pub(crate) listings: Sequence<PlacedListing>,
    pub(crate) results: Sequence<PlacedResult>,
    pub(crate) resized: Sequence<Resize>,
    pub(crate) said: EntrySaid,
}

/// What places that which is written, by the names that it has.
pub(crate) trait Place<T> {
    ghost use Rattle.std.specs.Prelude.{Result};
    ghost use Rattle.json_fields.specs.state.Reading.{GivesExactly};
    ghost use Rattle.line_faults.specs.declared.fault.FaultKind.{FaultKind};

    type Placed: Drop;

    /// The place, in the definition's words.
    ghost placed_by: { Self → T → Result Self.Placed FaultKind };

    fn place(&self, written: &T) -> Result<Self::Placed, FaultKind>
        ensures { GivesExactly (λ p. p) result (placed_by self.now written.now) };
}

/// The places of all that is written, in order.
pub(crate) fn place_each<T, P: Place<T>>(
    alloc: Global,
    places: &P,
    written: &[T],
) -> Result<Sequence<P::Placed>, FaultKind>
    ensures { GivesUnless is_memory (λ s. s) result (each (P.placed_by places.now) written.now) }
{
    let mut all = Sequence::new(alloc);
    for one in written {
        let placed = places.place(one)?;
        all.push(placed)?;
    }
    Ok(all)
}

/// A roster gives the number of the pod of an entry.
impl Place<TickEntry> for Roster {
    type Placed = usize;

    ghost placed_by = { number_in };

    fn place(&self, written: &TickEntry) -> Result<usize, FaultKind> {
        self.number_of(written.key.as_str())
            .ok_or(FaultKind::StrangerPod)
    }
}

fn container_number(pod: &PodSpec, name: &str) -> Result<usize, FaultKind>
    ensures { GivesExactly (λ n. n) result (container_number pod.now name.now) }
{
    pod.containers
        .number_of(name)
        .ok_or(FaultKind::StrangerContainer)
}

impl Place<Listing> for PodSpec {
    type Placed = PlacedListing;

    ghost placed_by = { placed_listing };

    fn place(&self, written: &Listing) -> Result<PlacedListing, FaultKind> {
        Ok(PlacedListing {
            container: container_number(self, written.name.as_str())?,
            instance: written.instance,
        })
    }
}

impl Place<ProbeResult> for PodSpec {
    type Placed = PlacedResult;

    ghost placed_by = { placed_result };

    fn place(&self, written: &ProbeResult) -> Result<PlacedResult, FaultKind> {
        Ok(PlacedResult {
            container: container_number(self, written.container.as_str())?,
            probe: written.probe,
            outcome: written.outcome,
        })
    }
}

impl Place<ContainerResize> for PodSpec {
    type Placed = Resize;

    ghost placed_by = { placed_resize };

    fn place(&self, written: &ContainerResize) -> Result<Resize, FaultKind> {
        let container = container_number(self, written.container.as_str())?;
        Ok(Resize {
            container,
            resources: written.resources,
        })
    }
}

/// The resizes that an entry's member gives, if the version reads the member.
fn resizes_by(heeds: bool, member: &ResizedMember) -> &[ContainerResize]
    ensures { result.now ≡ resizes_by heeds member.now }
{
    match member {
        ResizedMember::Resizes(resizes) if heeds => resizes.as_slice(),
        _ => &[],
    }
}

pub(crate) fn pod_numbered(pods: &[PodSpec], number: usize) -> Result<&PodSpec, FaultKind>
    ensures { GivesExactly (λ p. p.now) result (pod_numbered pods.now number) }
{
    pods.get(number).ok_or(FaultKind::StrangerPod)
}

/// A sample that came, or this where none did.
pub(crate) fn sampled_or(other: Sampling, usage: Option<Usage>) -> Sampling
    ensures { result ≡ sampled_or other usage }
{
    match usage {
        None => other,
        Some(usage) => Sampling::Sampled(usage),
    }
}

/// The sampling of an entry without a sample: `unsampled` counts if the version reads it.
fn without_sample(heeds: bool, unsampled: TruthMember) -> Sampling
    ensures { result ≡ without_sample heeds unsampled }
{
    if heeds && says_so(unsampled) {
        Sampling::Unsampled
    } else {
        Sampling::Unsaid
    }
}

/// The reason for which an entry reports that the node has ended its pod, if the version reads it.
fn reason_given(heeds: bool, failed: &ReasonMember) -> Option<EndReason>
    ensures { result ≡ (if heeds then reason_given failed.now else None) }
{
    match failed {
        ReasonMember::Reason(reason) if heeds => Some(reason.again()),
        _ => None,
    }
}

/// The status that an entry gives of the condition that one of these gates names, by number.
fn gate_given(gates: &ReadinessGates, statuses: &ConditionStatuses, number: usize) -> Option<bool>
    ensures { result ≡ gate_given gates.now statuses.now number }
{
    statuses.status(gates.get(number)?)
}

/// The statuses that it gives of the conditions that these gates name.
fn statuses_given(
    gates: &ReadinessGates,
    statuses: &ConditionStatuses,
) -> [Option<bool>; MOST_GATES]
    ensures { result ≡ map (gate_given gates.now statuses.now) (range_with_len 0 most_gates) }
{
    let mut given = NO_GATES;
    for number in 0..MOST_GATES {
        given[number] = gate_given(gates, statuses, number);
    }
    given
}

/// The statuses that the member `conditions` gives of the conditions that these gates name, if the version reads it.
fn gates_given(
    heeds: bool,
    gates: &ReadinessGates,
    conditions: &ConditionsMember,
) -> [Option<bool>; MOST_GATES]
    ensures { result ≡ (if heeds then gates_given gates.now conditions.now else no_gates) }
{
    match conditions {
        ConditionsMember::Statuses(statuses) if heeds => statuses_given(gates, statuses),
        _ => NO_GATES,
    }
}

/// The words of an entry on a pod with these gates, if the version reads them.
fn words_of(heeds: bool, gates: &ReadinessGates, entry: &TickEntry) -> PodWords
    ensures { result ≡ words_of heeds gates.now entry.now.deleting entry.now.failed entry.now.conditions }
{
    PodWords {
        deleting: heeds && says_so(entry.deleting),
        failed: reason_given(heeds, &entry.failed),
        gates: gates_given(heeds, gates, &entry.conditions),
    }
}

/// What an entry has of its pod in addition to its listings and results.
fn said_in(heeds: bool, pod: &PodSpec, entry: &TickEntry) -> EntrySaid
    ensures { result ≡ said_in heeds pod.now entry.now }
{
    EntrySaid {
        sampling: sampling_of(heeds, entry.usage, entry.unsampled),
        words: words_of(heeds, &pod.gates, entry),
    }
}

/// The sampling of an entry's pod.
fn sampling_of(heeds: bool, usage: Option<Usage>, unsampled: TruthMember) -> Sampling
    ensures { result ≡ sampling_of heeds usage unsampled }
{
    sampled_or(without_sample(heeds, unsampled), usage)
}

#[tactic(auto, unfolding(crate::specs::rule::Placing::entry_of_pod))]
fn entry_of_pod(
    alloc: Global,
    heeds: bool,
    pods: &[PodSpec],
    number: usize,
    entry: &TickEntry,
) -> Result<PlacedEntry, FaultKind>
    ensures { GivesUnless is_memory (λ e. e) result (entry_of_pod heeds pods.now number entry.now) }
{
    let pod = pod_numbered(pods, number)?;
    Ok(PlacedEntry {
        pod: number,
        listings: place_each(alloc, pod, entry.listings.as_slice())?,
        results: place_each(alloc, pod, entry.results.as_slice())?,
        resized: place_each(alloc, pod, resizes_by(heeds, &entry.resized))?,
        said: said_in(heeds, pod, entry),
    })
}

/// Appends an entry. Returns `Err` only if an allocation fails.
fn add(all: &mut Vec<PlacedEntry>, entry: PlacedEntry) -> Result<(), FaultKind>
    ensures added { OnOk result (all.new.items ≡ all.old.items ++ entry ∷ []) }
    ensures memory { GivesUnless is_memory (λ t. t) result (Ok tt) }
{
    all.push(entry).map_err(|_| FaultKind::OutOfMemory)
}

/// The entries, each of the pod with its number.
pub(crate) fn entries_of_pods(
    alloc: Global,
    heeds: bool,
    pods: &[PodSpec],
    numbers: &[usize],
    entries: &[TickEntry],
) -> Result<Vec<PlacedEntry>, FaultKind>
    requires { length numbers.now ≡ length entries.now }
    ensures { GivesUnless is_memory (λ v. v.items) result (entries_of_pods heeds pods.now numbers.now entries.now) }
{
    let mut all = Vec::with_capacity(alloc, entries.len())?;
    for (place, entry) in entries.iter().enumerate() {
        let placed = entry_of_pod(alloc, heeds, pods, numbers[place], entry)?;
        add(&mut all, placed)?;
    }
    Ok(all)
}

fn check_each<T, P: Place<T>>(places: &P, written: &[T]) -> Result<(), FaultKind>
    ensures { result ≡ checked (each (P.placed_by places.now) written.now) }
{
    for one in written {
        places.place(one)?;
    }
    Ok(())
}

#[tactic(auto, unfolding(crate::specs::rule::Placing::placed_entry, crate::specs::rule::Placing::entry_of_pod))]
fn check_entry(heeds: bool, roster: &Roster, entry: &TickEntry) -> Result<(), FaultKind>
    ensures { result ≡ checked (placed_entry heeds roster.now entry.now) }
{
    let number = roster.place(entry)?;
    let pod = pod_numbered(roster.pods(), number)?;
    check_each(pod, entry.listings.as_slice())?;
    check_each(pod, entry.results.as_slice())?;
    check_each(pod, resizes_by(heeds, &entry.resized))?;
    Ok(())
}

fn check_entries(heeds: bool, roster: &Roster, entries: &[TickEntry]) -> Result<(), FaultKind>
    ensures { result ≡ checked (each (placed_entry heeds roster.now) entries.now) }
{
    for entry in entries {
        check_entry(heeds, roster, entry)?;
    }
    Ok(())
}

/// Whether every pod of a tick line's entries is known, and every container, or the first fault. Doesn't allocate.
#[tactic(auto, unfolding(crate::specs::rule::Placing::placed_of))]
pub(crate) fn check_placed(
    heeds: bool,
    roster: &Roster,
    entries: &[TickEntry],
) -> Result<(), FaultKind>
    ensures { result ≡ checked (placed_of heeds roster.now entries.now) }
{
    check_each(roster, entries)?;
    check_entries(heeds, roster, entries)
}

/// Whether the result is of this probe of the container with the number.
pub(crate) fn is_of_probe(placed: PlacedResult, container: usize, probe: ProbeKind) -> bool
    ensures { result ≡ is_of_probe placed container probe }
{
    placed.container == container && placed.probe.place() == probe.place()
}

/// Items of which an entry may not have two alike.
trait Alike: Copy {
    ghost use Rattle.std.specs.Prelude.{◌≡◌, Bool};

    ghost are_alike: { Self → Self → Bool };

    fn is_like(self, other: Self) -> bool
        ensures { result ≡ are_alike self other };
}

impl Alike for PlacedListing {
    ghost are_alike = { are_of_one_container };

    fn is_like(self, other: PlacedListing) -> bool {
        self.container == other.container
    }
}

impl Alike for PlacedResult {
    ghost are_alike = { are_of_one_probe };

    fn is_like(self, other: PlacedResult) -> bool {
        is_of_probe(self, other.container, other.probe)
    }
}

fn has_alike<T: Alike>(items: &[T], other: T) -> bool
    ensures { result ≡ list_any (λ item. T.are_alike item other) items.now }
{
    items.iter().any(|item| item.is_like(other))
}

fn has_twice<T: Alike>(items: &[T]) -> bool
    ensures { result ≡ has_twice T.are_alike items.now }
{
    let mut rest = items;
    while let [first, others @ ..] = rest {
        if has_alike(others, *first) {
            return true;
        }
        rest = others;
    }
    false
}

fn repeats(entry: &PlacedEntry) -> bool
    ensures { result ≡ repeats entry.now }
{
    has_twice(entry.listings.as_slice()) || has_twice(entry.results.as_slice())
}

/// Whether an entry has a container twice, or two results of one probe.
pub(crate) fn some_entry_repeats(entries: &[PlacedEntry]) -> bool
    ensures { result ≡ list_any repeats entries.now }
{
    entries.iter().any(|e| repeats(e))
}
