//! The tick that a line shows, read from the tape of its tokens with the pods that are known: no text is copied, and
//! names become numbers where they are. If one of these finds none, the line is read as a `TextLine`.

ghost use Rattle.std.specs.Prelude.{◌≡◌, ◌++◌, ◌∷◌, [], Bool, true, length, List, IfOk, IfSome};
ghost use Rattle.serde_json.specs.Data.{Data};
ghost use Rattle.json_fields.specs.state.Tape.{data_at, items_in};
ghost use Rattle.json_lines.specs.state.Lines.{Tick, line_data};
ghost use Rattle.json_lines.specs.state.Ticks.{moment_at};
ghost use Rattle.tick_lines.specs.rule.Line.{tick_line_of};
ghost use Rattle.tick_lines.specs.state.Tape.{left_in};
ghost use Rattle.trace.specs.state.Ahead.{IsShown};
ghost use Rattle.trace.specs.state.Tape.{EntriesNoted};

use crate::noted::{clear, note_listings, note_results};
use crate::placing::{pod_numbered, sampled_or};
use crate::slots::{no_pods, note_pod, with_others};
use crate::words::{is_judged, is_of_other_kind};
use json_fields::{TapeItems, TapeValue};
use json_lines::{LineBuffers, tape_moment, tick_tape};
use lists::Sequence;
use observations::{ContainerObs, PodObs, Sampling, TickObs};
use roster::Roster;
use std::alloc::{AllocError, Global};
use tick_lines::{entry_text, line_text, samples_text};

/// Notes what an entry shows of its pod. Returns false if the pod is not known or has an earlier entry, or something in
/// the entry is at fault.
fn note_entry(
    alloc: Global,
    roster: &Roster,
    at: u64,
    value: &TapeValue<'_, '_>,
    containers: &mut Vec<ContainerObs>,
    slots: &mut Vec<Option<PodObs>>,
) -> Result<bool, AllocError>
    requires { length slots.old.items ≡ length roster.now.pods }
    ensures { (heeds : Bool) (ds : List Data) → EntriesNoted heeds roster.now at ds slots.old.items
        → IfOk result (λ noted. noted ≡ true
        → EntriesNoted heeds roster.now at (ds ++ data_at value.now ∷ []) slots.new.items) }
{
    let Some(entry) = entry_text(value) else {
        return Ok(false);
    };
    let Some(number) = roster.number_of(entry.key) else {
        return Ok(false);
    };
    let Ok(pod) = pod_numbered(roster.pods(), number) else {
        return Ok(false);
    };
    clear(containers, pod.containers.as_slice())?;
    if !note_listings(pod, entry.listings, containers)
        || !note_results(pod, entry.results, containers)
    {
        return Ok(false);
    }
    let sampling = sampled_or(Sampling::Unsaid, entry.usage);
    let shown = PodObs::new(alloc, at, containers, sampling)?;
    Ok(!note_pod(slots, number, shown))
}

/// What entries show of the pods, each of another pod; none where one of them is left to the other reader.
fn note_entries(
    alloc: Global,
    roster: &Roster,
    at: u64,
    mut items: TapeItems<'_, '_>,
) -> Result<Option<Vec<Option<PodObs>>>, AllocError>
    ensures { IfOk result (λ found. IfSome found (λ slots. (heeds : Bool)
        → EntriesNoted heeds roster.now at (items_in items.entry) slots.items)) }
{
    let mut containers = Vec::new(alloc);
    let mut slots = no_pods(alloc, roster.pods().len())?;
    while let Some(value) = items.next() {
        if !note_entry(alloc, roster, at, &value, &mut containers, &mut slots)? {
            return Ok(None);
        }
    }
    Ok(Some(slots))
}

/// What entries show of the pods, where they may be left out; none where one of them is left to the other reader.
fn entries_noted(
    alloc: Global,
    roster: &Roster,
    at: u64,
    items: Option<TapeItems<'_, '_>>,
) -> Result<Option<Vec<Option<PodObs>>>, AllocError>
    ensures { IfOk result (λ found. IfSome found (λ slots. (heeds : Bool)
        → EntriesNoted heeds roster.now at (left_in items.entry) slots.items)) }
{
    match items {
        Some(items) => note_entries(alloc, roster, at, items),
        None => Ok(Some(no_pods(alloc, roster.pods().len())?)),
    }
}

/// The tick that a tick line shows of these pods.
fn shown_by_value(
    alloc: Global,
    heeds: bool,
    roster: &Roster,
    value: &TapeValue<'_, '_>,
) -> Result<Option<TickObs>, AllocError>
    ensures { IfOk result (λ found. IfSome found
        (IsShown heeds roster.now (Tick (moment_at (data_at value.now)) (tick_line_of (data_at value.now))))) }
{
    // The tape names no fault: whatever cannot be read here is left to the reader that does.
    // (docs/decisions/reading.md)
    let Some(at) = tape_moment(value) else {
        return Ok(None);
    };
    let Some(line) = line_text(value) else {
        return Ok(None);
    };
    if is_of_other_kind(line.unjudged) {
        return Ok(None);
    }
    let Some(samples) = samples_text(alloc, &line)? else {
        return Ok(None);
    };
    let Some(slots) = entries_noted(alloc, roster, at, line.entries)? else {
        return Ok(None);
    };
    let pods = with_others(alloc, at, slots, roster)?;
    Ok(Some(TickObs {
        at,
        pods: Sequence::from_vec(pods),
        signals: samples.signals,
        after_reclaim: samples.after_reclaim,
        judged: is_judged(heeds, line.unjudged),
    }))
}

/// The tick that a line shows of these pods, if nothing in it is at fault by itself; none if it is no tick line of the
/// common shape.
pub(crate) fn shown_on_tape(
    alloc: Global,
    heeds: bool,
    roster: &Roster,
    line: &[u8],
    buffers: &mut LineBuffers,
) -> Result<Option<Option<TickObs>>, AllocError>
    ensures { IfOk result (λ on_tape. IfSome on_tape (λ found.
        IfSome found (IsShown heeds roster.now (line_data line.now)))) }
{
    match tick_tape(alloc, line, buffers)? {
        Some(tape) => Ok(Some(shown_by_value(alloc, heeds, roster, &TapeValue::root(&tape))?)),
        None => Ok(None),
    }
}
