//! Tick lines.

ghost use Rattle.std.specs.Prelude.{◌≡◌, ◌<◌, All, length, option_map, Some, None, if◌then◌else◌, Ok, IfOk};
ghost use Rattle.std.specs.List.{list_any};
ghost use Rattle.std.specs.Prelude.{◌||◌, false, IfErr, IsErrOf, OnOk};
ghost use Rattle.json_fields.specs.rule.Reading.{refused_if};
ghost use Rattle.json_fields.specs.state.Reading.{GivesExactly, GivesUnless};
ghost use Rattle.trace.specs.state.Memory.{is_memory};
ghost use Rattle.trace.specs.rule.TraceSoFar.{with_tick};
ghost use Rattle.trace.specs.state.ByPod.{AreFirst};
ghost use Rattle.trace.specs.rule.Placing.{placed_of, is_doubled, repeats};
ghost use Rattle.line_faults.specs.declared.fault.FaultKind.TheVariants.{Backwards, Doubled, ExitCode};
ghost use Rattle.trace.specs.rule.Observed.{seen_in, outcome_in, results_in, listings_of, results_of, said_from};
ghost use Rattle.trace.specs.rule.Observed.{seen_listed, containers_from, pod_observed, pods_from, observed};
ghost use Rattle.trace.specs.rule.Observed.{resizes_of};
ghost use Rattle.trace.specs.rule.Observed.{lacks_code, some_code_missing};
ghost use Rattle.following.specs.rule.Backwards.{is_backwards};
ghost use Rattle.following.specs.state.Followed.{EndBefore, ComesNext};
ghost use Rattle.trace.specs.state.Pod.{container_counts};
ghost use Rattle.trace.specs.state.Taken.{placed_at, tick_of, tick_after};
ghost use Rattle.trace.specs.rule.Tick.{moment_from, room_for_tick, observed_in};
ghost use Rattle.trace.specs.state.Tick.{MayStandBehind};

use crate::by_pod::{EntriesByPod, entries_by_pod, entry_for};
use crate::placing::{
    EntrySaid, PlacedEntry, PlacedListing, PlacedResult, check_placed, entries_of_pods,
    is_of_probe, place_each, some_entry_repeats,
};
use crate::trace_so_far::{TraceSoFar, heeds_words};
use crate::words::{is_judged, written_in};
use json_lines::TickRecord;
use line_faults::{FaultKind, refused_if};
use lists::Sequence;
use manifest::{ContainerSpec, Outcome, PodSpec, ProbeKind};
use observations::{
    ContainerObs, MOST_TICKS, NO_WORDS, PodObs, PodWords, Resize, Sampling, TickObs,
};
use quantity::END_OF_TIME;
use roster::Roster;
use state_diff::{CriState, Seen};
use std::alloc::{AllocError, Global};
use tick_lines::{ListedInstance, TickLine};

fn moment_from(ticks: &[TickObs], written: Option<u64>) -> Result<u64, FaultKind>
    ensures { GivesExactly (λ n. n) result (moment_from ticks.now written) }
{
    let Some(at) = written else {
        return Err(FaultKind::Moment);
    };
    if at >= END_OF_TIME {
        return Err(FaultKind::Moment);
    }
    match ticks.last() {
        Some(tick) if at <= tick.at => Err(FaultKind::Moment),
        _ => Ok(at),
    }
}

/// The instance that a listing shows. A missing exit code counts as 0 until it is rejected.
pub(crate) fn seen_listed(instance: ListedInstance) -> Seen
    ensures { result ≡ seen_listed instance }
{
    let code = match instance.state {
        CriState::Exited => Some(instance.code.unwrap_or(0)),
        _ => None,
    };
    Seen {
        attempt: instance.attempt,
        state: instance.state,
        code,
    }
}

fn seen_in(listings: &[PlacedListing], container: usize) -> Option<Seen>
    ensures { result ≡ seen_in listings.now container }
{
    for listing in listings {
        if listing.container == container {
            return Some(seen_listed(listing.instance));
        }
    }
    None
}

fn outcome_in(results: &[PlacedResult], container: usize, probe: ProbeKind) -> Option<Outcome>
    ensures { result ≡ outcome_in results.now container probe }
{
    for placed in results {
        if is_of_probe(*placed, container, probe) {
            return Some(placed.outcome);
        }
    }
    None
}

fn results_in(results: &[PlacedResult], container: usize) -> [Option<Outcome>; 3]
    ensures { result ≡ results_in results.now container }
{
    let startup = outcome_in(results, container, ProbeKind::Startup);
    let liveness = outcome_in(results, container, ProbeKind::Liveness);
    let readiness = outcome_in(results, container, ProbeKind::Readiness);
    [startup, liveness, readiness]
}

fn containers_observed(
    alloc: Global,
    listings: &[PlacedListing],
    results: &[PlacedResult],
    containers: &[ContainerSpec],
) -> Result<Vec<ContainerObs>, AllocError>
    ensures { IfOk result (λ v. v.items ≡ containers_from listings.now results.now 0 containers.now) }
{
    let mut all = Vec::with_capacity(alloc, containers.len())?;
    for (number, _) in containers.iter().enumerate() {
        let seen = seen_in(listings, number);
        let results = results_in(results, number);
        all.push(ContainerObs { seen, results })?;
    }
    Ok(all)
}

fn listings_of(entry: Option<&PlacedEntry>) -> &[PlacedListing]
    ensures { result.now ≡ listings_of (option_map (λ e. e.now) entry.entry) }
{
    match entry {
        None => &[],
        Some(entry) => entry.listings.as_slice(),
    }
}

fn results_of(entry: Option<&PlacedEntry>) -> &[PlacedResult]
    ensures { result.now ≡ results_of (option_map (λ e. e.now) entry.entry) }
{
    match entry {
        None => &[],
        Some(entry) => entry.results.as_slice(),
    }
}

/// The words once more. Doesn't allocate.
fn words_again(words: &PodWords) -> PodWords
    ensures { result ≡ words.now }
{
    let failed = match &words.failed {
        Some(reason) => Some(reason.again()),
        None => None,
    };
    PodWords {
        deleting: words.deleting,
        failed,
        gates: words.gates,
    }
}

fn resizes_of(entry: Option<&PlacedEntry>) -> &[Resize]
    ensures { result.now ≡ resizes_of (option_map (λ e. e.now) entry.entry) }
{
    match entry {
        None => &[],
        Some(entry) => entry.resized.as_slice(),
    }
}

fn said_from(entry: Option<&PlacedEntry>) -> EntrySaid
    ensures { result ≡ said_from (option_map (λ e. e.now) entry.entry) }
{
    match entry {
        None => EntrySaid {
            sampling: Sampling::Unsaid,
            words: NO_WORDS,
        },
        Some(entry) => EntrySaid {
            sampling: entry.said.sampling,
            words: words_again(&entry.said.words),
        },
    }
}

fn pod_observed(
    alloc: Global,
    at: u64,
    entry: Option<&PlacedEntry>,
    pod: &PodSpec,
) -> Result<PodObs, AllocError>
    ensures { IfOk result (λ p. p ≡ pod_observed at (option_map (λ e. e.now) entry.entry) pod.now) }
{
    let listings = listings_of(entry);
    let results = results_of(entry);
    let containers = containers_observed(alloc, listings, results, pod.containers.as_slice())?;
    let said = said_from(entry);
    let resized = resizes_of(entry).to_vec(alloc)?;
    PodObs::resized(alloc, at, &containers, said.sampling, said.words, resized)
}

/// What a tick shows of a pod, if it is present.
fn observed_if_present(
    alloc: Global,
    at: u64,
    entry: Option<&PlacedEntry>,
    pod: &PodSpec,
    is_present: bool,
) -> Result<Option<PodObs>, AllocError>
    ensures { IfOk result (λ o. o
        ≡ (if is_present then Some (pod_observed at (option_map (λ e. e.now) entry.entry) pod.now) else None)) }
{
    if !is_present {
        return Ok(None);
    }
    let observed = pod_observed(alloc, at, entry, pod)?;
    Ok(Some(observed))
}

fn pods_observed(
    alloc: Global,
    at: u64,
    entries: &[PlacedEntry],
    first: &[Option<usize>],
    roster: &Roster,
) -> Result<Vec<Option<PodObs>>, AllocError>
    requires { AreFirst entries.now (length roster.now.pods) first.now }
    ensures { IfOk result (λ v. v.items ≡ pods_from at entries.now roster.now.departures 0 roster.now.pods) }
{
    let pods = roster.pods();
    let mut all = Vec::with_capacity(alloc, pods.len())?;
    for (number, pod) in pods.iter().enumerate() {
        let entry = entry_for(entries, first, number);
        all.push(observed_if_present(alloc, at, entry, pod, roster.is_present(number))?)?;
    }
    Ok(all)
}

pub(crate) fn observed(
    alloc: Global,
    heeds: bool,
    at: u64,
    written: &TickLine,
    placed: &[PlacedEntry],
    first: &[Option<usize>],
    roster: &Roster,
) -> Result<TickObs, AllocError>
    requires { AreFirst placed.now (length roster.now.pods) first.now }
    ensures { IfOk result (λ t. t ≡ observed heeds at written.now placed.now roster.now) }
{
    let pods = pods_observed(alloc, at, placed, first, roster)?;
    Ok(TickObs {
        at,
        pods: Sequence::from_vec(pods),
        signals: written.signals,
        after_reclaim: written.after_reclaim,
        judged: is_judged(heeds, written.unjudged),
    })
}

pub(crate) fn lacks_code(instance: ListedInstance) -> bool
    ensures { result ≡ lacks_code instance }
{
    instance.state.is_exited() && instance.code.is_none()
}

fn entry_lacks_code(listings: &[PlacedListing]) -> bool
    ensures { result ≡ list_any (λ l. lacks_code l.instance) listings.now }
{
    listings.iter().any(|l| lacks_code(l.instance))
}

pub(crate) fn some_code_missing(entries: &[PlacedEntry]) -> bool
    ensures { result ≡ some_code_missing entries.now }
{
    entries
        .iter()
        .any(|e| entry_lacks_code(e.listings.as_slice()))
}

pub(crate) fn room(so_far: &TraceSoFar) -> Result<(), FaultKind>
    ensures { GivesExactly (λ t. t) result (room_for_tick so_far.now.ticks) }
{
    refused_if(
        so_far.ticks.as_slice().len() >= MOST_TICKS,
        FaultKind::TooMany,
    )
}

pub(crate) fn moment_in(so_far: &TraceSoFar, written: Option<u64>) -> Result<u64, FaultKind>
    ensures gives { GivesExactly (λ n. n) result (moment_from so_far.now.ticks written) }
    ensures later { IfOk result (λ at. EndBefore so_far.now.ticks at) }
{
    moment_from(so_far.ticks.as_slice(), written)
}

/// The entries with numbers in the place of names: first all pods, then all containers.
#[tactic(auto, unfolding(crate::specs::rule::Placing::placed_of))]
fn placed_entries(
    alloc: Global,
    heeds: bool,
    roster: &Roster,
    written: &TickLine,
) -> Result<Vec<PlacedEntry>, FaultKind>
    ensures gives { GivesUnless is_memory (λ v. v.items) result (placed_of heeds roster.now written.now.entries) }
    ensures known { IfOk result (λ v. All (λ e. e.pod < length roster.now.pods) v.items) }
{
    let entries = written.entries.as_slice();
    let numbers = place_each(alloc, roster, entries)?;
    entries_of_pods(alloc, heeds, roster.pods(), numbers.as_slice(), entries)
}

/// The entries by the numbers of their pods. Out of memory only where every pod and every container is known.
pub(crate) fn placed_by(
    alloc: Global,
    heeds: bool,
    roster: &Roster,
    written: &TickLine,
) -> Result<Vec<PlacedEntry>, FaultKind>
    ensures gives { GivesUnless is_memory (λ v. v.items) result (placed_of heeds roster.now written.now.entries) }
    ensures faults { IfErr (placed_of heeds roster.now written.now.entries) (IsErrOf result) }
    ensures known { IfOk result (λ v. All (λ e. e.pod < length roster.now.pods) v.items) }
{
    match placed_entries(alloc, heeds, roster, written) {
        Err(FaultKind::OutOfMemory) => {
            // A second pass that doesn't allocate, so that no fault is reported as out of memory.
            // (docs/decisions/reading.md)
            check_placed(heeds, roster, written.entries.as_slice())?;
            Err(FaultKind::OutOfMemory)
        }
        placed => placed,
    }
}

/// The entries with numbers in the place of names, by the pods so far.
fn placed_of(
    alloc: Global,
    heeds: bool,
    so_far: &TraceSoFar,
    written: &TickLine,
) -> Result<Vec<PlacedEntry>, FaultKind>
    ensures gives { GivesUnless is_memory (λ v. v.items) result (placed_of heeds so_far.now.roll written.now.entries) }
    ensures faults { IfErr (placed_of heeds so_far.now.roll written.now.entries) (IsErrOf result) }
    ensures known { IfOk result (λ v. All (λ e. e.pod < length so_far.now.roll.pods) v.items) }
{
    placed_by(alloc, heeds, &so_far.roster, written)
}

fn unless_doubled(has_pod_twice: bool, some_entry_repeats: bool) -> Result<(), FaultKind>
    ensures { GivesExactly (λ t. t) result (refused_if (has_pod_twice || some_entry_repeats) Doubled) }
{
    refused_if(has_pod_twice || some_entry_repeats, FaultKind::Doubled)
}

/// No pod has two entries, and no entry repeats a container or a probe. Doesn't allocate.
fn listed_once(has_pod_twice: bool, placed: &[PlacedEntry]) -> Result<(), FaultKind>
    ensures { GivesExactly (λ t. t) result (refused_if (has_pod_twice || list_any repeats placed.now) Doubled) }
{
    unless_doubled(has_pod_twice, some_entry_repeats(placed))
}

/// The places of the entries of each pod so far.
fn by_pod(
    alloc: Global,
    so_far: &TraceSoFar,
    placed: &[PlacedEntry],
) -> Result<EntriesByPod, FaultKind>
    requires { All (λ e. e.pod < length so_far.now.roll.pods) placed.now }
    ensures apart { GivesUnless is_memory (λ _. tt) result (refused_if (is_doubled placed.now) Doubled) }
    ensures first { IfOk result (λ found. AreFirst placed.now (length so_far.now.roll.pods) found.first.items) }
{
    let found = entries_by_pod(alloc, placed, so_far.roster.pods().len())?;
    listed_once(found.has_pod_twice, placed)?;
    Ok(found)
}

/// Whether some listing of the tick may not come after those of the earlier ticks.
pub(crate) fn is_backwards(so_far: &TraceSoFar, tick: &TickObs) -> bool
    requires { ComesNext so_far.now.ticks (container_counts so_far.now.roll.pods) tick.now }
    ensures { result ≡ is_backwards so_far.now.ticks tick.now }
{
    !so_far.following.accepts(tick)
}

/// No listing of the tick goes back. Doesn't allocate.
fn forwards(so_far: &TraceSoFar, tick: &TickObs) -> Result<(), FaultKind>
    requires { ComesNext so_far.now.ticks (container_counts so_far.now.roll.pods) tick.now }
    ensures gives { GivesExactly (λ t. t) result (refused_if (is_backwards so_far.now.ticks tick.now) Backwards) }
    ensures on { OnOk result (is_backwards so_far.now.ticks tick.now ≡ false) }
{
    refused_if(is_backwards(so_far, tick), FaultKind::Backwards)
}

/// Each listing of an exited container has its code. Doesn't allocate.
fn coded(placed: &[PlacedEntry]) -> Result<(), FaultKind>
    ensures { GivesExactly (λ t. t) result (refused_if (some_code_missing placed.now) ExitCode) }
{
    refused_if(some_code_missing(placed), FaultKind::ExitCode)
}

/// The tick, checked against the earlier ticks.
#[tactic(auto, unfolding(crate::specs::rule::Tick::observed_in))]
fn observed_in(
    alloc: Global,
    so_far: &TraceSoFar,
    at: u64,
    written: &TickLine,
    placed: &[PlacedEntry],
) -> Result<TickObs, FaultKind>
    requires later { EndBefore so_far.now.ticks at }
    requires known { All (λ e. e.pod < length so_far.now.roll.pods) placed.now }
    ensures gives { GivesUnless is_memory (λ t. t) result (observed_in so_far.now at written.now placed.now) }
    ensures follows { IfOk result (MayStandBehind so_far.now) }
{
    let by_pod = by_pod(alloc, so_far, placed)?;
    let tick = observed(
        alloc,
        heeds_words(so_far),
        at,
        written,
        placed,
        &by_pod.first,
        &so_far.roster,
    )?;
    forwards(so_far, &tick)?;
    coded(placed)?;
    Ok(tick)
}

pub(crate) fn with_tick(so_far: TraceSoFar, tick: TickObs) -> Result<TraceSoFar, FaultKind>
    requires { MayStandBehind so_far tick }
    ensures { GivesUnless is_memory (λ r. r) result (Ok (with_tick so_far tick)) }
{
    let TraceSoFar {
        format,
        node,
        roster,
        mut ticks,
        mut following,
    } = so_far;
    following.step(&tick);
    ticks.push(tick)?;
    Ok(TraceSoFar {
        format,
        node,
        roster,
        ticks,
        following,
    })
}

/// The tick of a tick line.
#[tactic(auto, unfolding(crate::specs::state::Taken::tick_of, crate::specs::state::Taken::placed_at))]
fn tick_of(alloc: Global, so_far: &TraceSoFar, line: &TickRecord) -> Result<TickObs, FaultKind>
    ensures gives { GivesUnless is_memory (λ t. t) result (tick_of so_far.now line.now.at line.now.written) }
    ensures faults { IfErr (placed_at so_far.now line.now.at line.now.written) (IsErrOf result) }
    ensures follows { IfOk result (MayStandBehind so_far.now) }
{
    room(so_far)?;
    let at = moment_in(so_far, line.at)?;
    let heeds = heeds_words(so_far);
    let written = written_in(heeds, &line.written)?;
    let placed = placed_of(alloc, heeds, so_far, written)?;
    observed_in(alloc, so_far, at, written, &placed)
}

/// Takes a tick line.
#[tactic(auto, unfolding(crate::specs::state::Taken::tick_after))]
pub(crate) fn take_tick(
    alloc: Global,
    so_far: TraceSoFar,
    line: &TickRecord,
) -> Result<TraceSoFar, FaultKind>
    ensures { GivesUnless is_memory (λ r. r) result (tick_after so_far line.now.at line.now.written) }
{
    match tick_of(alloc, &so_far, line) {
        Ok(tick) => with_tick(so_far, tick),
        Err(kind) => {
            drop(so_far);
            Err(kind)
        }
    }
}
