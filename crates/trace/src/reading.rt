//! A line, after the lines before it.

ghost use Rattle.std.specs.Prelude.{◌≡◌, option_map, option_and_then, None, Ok, IfErr, IsErrOf, OnOk, string_bytes};
ghost use Rattle.json_fields.specs.rule.Fields.{field_at};
ghost use Rattle.node_lines.specs.rule.Node.{whole_number};
ghost use Rattle.serde_json.specs.View.{view};
ghost use Rattle.json_fields.specs.state.Reading.{GivesExactly, GivesUnless};
ghost use Rattle.json_lines.specs.state.Lines.{LineData, data_of};
ghost use Rattle.line_faults.specs.state.Text.{said_at};
ghost use Rattle.trace.specs.state.Ahead.{IsReadAhead, IsShown, may_stand};
ghost use Rattle.trace.specs.state.Memory.{is_memory};
ghost use Rattle.roster.specs.rule.Roll.{key_of_pod, number_of};
ghost use Rattle.trace.specs.rule.Written.{is_three, is_foreign, node_in};
ghost use Rattle.trace.specs.rule.TraceSoFar.{version_in, heeds, with_pod, without};
ghost use Rattle.trace.specs.rule.Pod.{named_in};
ghost use Rattle.trace.specs.state.Taken.{tick_line_at, value_at, any_line_at};
ghost use Rattle.trace.specs.rule.Trace.{gone_in, kind_from, kind_of_line, with_node, with_new_pod, is_late, pod_in};
ghost use Rattle.trace.specs.rule.Trace.{pod_line_at, gone_line_at, turn_of, in_order};
ghost use Rattle.trace.specs.rule.Tick.{tick_at};
ghost use Rattle.trace.specs.state.Tick.{MayStandBehind};

use crate::pod::{new_key, pod_of_line, room_for_pod};
use crate::tick::{is_backwards, moment_in, room, take_tick, with_tick};
use crate::trace_so_far::{LineKind, TraceSoFar, Turn, heeds_words};
use json_fields::{field, text_at};
use json_lines::{TextLine, TickRecord, tick_record};
use line_faults::{FaultKind, check_text, refused_if};
use manifest::PodSpec;
use node_config::{Format, NodeConfig, Version};
use node_lines::node_of;
use observations::TickObs;
use roster::Roster;
use serde_json::Value;
use std::alloc::Global;

/// The whole number in a field, if it has one.
fn whole_number_at(line: &Value, name: &str) -> Option<u64>
    ensures { result ≡ option_and_then whole_number (field_at name.now (view line.now)) }
{
    field(line, name)?.as_u64()
}

/// Lines by which a pod leaves are of version 3.
fn gone_in(version: Option<Version>) -> Option<LineKind>
    ensures { result ≡ gone_in version }
{
    match version {
        Some(Version::Three) => Some(LineKind::Gone),
        _ => None,
    }
}

fn kind_from(version: Option<Version>, kind: Option<&str>) -> Option<LineKind>
    ensures { result ≡ kind_from version (option_map (λ s. s.now) kind.entry) }
{
    match kind {
        Some("node") => Some(LineKind::Node),
        Some("pod") => Some(LineKind::Pod),
        Some("tick") => Some(LineKind::Tick),
        Some("gone") => gone_in(version),
        _ => None,
    }
}

/// The kind that a line gives, in a text of this version.
fn kind_of_line(version: Option<Version>, line: &Value) -> Result<LineKind, FaultKind>
    ensures { GivesExactly (λ k. k) result (kind_of_line version (view line.now)) }
{
    kind_from(version, text_at(line, "kind")).ok_or(FaultKind::UnknownKind)
}

fn is_three(version: Option<u64>) -> bool
    ensures { result ≡ is_three version }
{
    version == Some(3)
}

/// Whether the line has version 3, which is not in the standard format.
fn is_foreign(format: Format, line: &Value) -> bool
    ensures { result ≡ is_foreign format (view line.now) }
{
    match format {
        Format::Standard => is_three(whole_number_at(line, "version")),
        Format::Extended => false,
    }
}

/// The configuration of a node line. Out of memory only if the line has no fault.
fn node_in(alloc: Global, format: Format, line: &Value) -> Result<NodeConfig, FaultKind>
    ensures gives { GivesUnless is_memory (λ n. n) result (node_in format (view line.now)) }
    ensures faults { IfErr (node_in format (view line.now)) (IsErrOf result) }
{
    refused_if(is_foreign(format, line), FaultKind::Config)?;
    Ok(node_of(alloc, line)?)
}

/// Takes a node line.
#[tactic(auto, unfolding(crate::specs::rule::Trace::with_node))]
fn take_node(alloc: Global, so_far: TraceSoFar, line: &Value) -> Result<TraceSoFar, FaultKind>
    ensures gives { GivesUnless is_memory (λ r. r) result (with_node so_far (view line.now)) }
    ensures faults { IfErr (with_node so_far (view line.now)) (IsErrOf result) }
{
    let node = match node_in(alloc, so_far.format, line) {
        Ok(node) => node,
        Err(kind) => {
            drop(so_far);
            return Err(kind);
        }
    };
    let TraceSoFar {
        format,
        roster,
        ticks,
        following,
        ..
    } = so_far;
    Ok(TraceSoFar {
        format,
        node: Some(node),
        roster,
        ticks,
        following,
    })
}

/// Adds a pod of a new key.
fn with_pod(
    alloc: Global,
    so_far: TraceSoFar,
    pod: PodSpec,
    key: String,
) -> Result<TraceSoFar, FaultKind>
    requires key { string_bytes key ≡ key_of_pod pod }
    requires new { number_of so_far.roll (string_bytes key) ≡ None }
    ensures { GivesUnless is_memory (λ r. r) result (Ok (with_pod so_far pod)) }
{
    let TraceSoFar {
        format,
        node,
        roster,
        ticks,
        following,
    } = so_far;
    let following = following.with_pod(alloc, pod.containers.as_slice().len())?;
    let roster = roster.with_pod(pod, key, ticks.as_slice().len())?;
    Ok(TraceSoFar {
        format,
        node,
        roster,
        ticks,
        following,
    })
}

/// Adds a pod, if no pod that is present has its key.
fn with_new_pod(alloc: Global, so_far: TraceSoFar, pod: PodSpec) -> Result<TraceSoFar, FaultKind>
    ensures { GivesUnless is_memory (λ r. r) result (with_new_pod so_far pod) }
{
    match new_key(alloc, &so_far, &pod) {
        Ok(key) => with_pod(alloc, so_far, pod, key),
        Err(kind) => {
            drop((so_far, pod));
            Err(kind)
        }
    }
}

/// Whether a pod line comes too late, after the ticks so far.
fn is_late(version: Version, so_far: &TraceSoFar) -> bool
    ensures { result ≡ is_late version so_far.now.ticks }
{
    match version {
        Version::One => !so_far.ticks.as_slice().is_empty(),
        Version::Two | Version::Three => false,
    }
}

/// The pod of a pod line, whatever its key. Out of memory only if the line has no other fault.
#[tactic(auto, unfolding(crate::specs::rule::Trace::pod_in))]
fn pod_in(
    alloc: Global,
    version: Version,
    so_far: &TraceSoFar,
    line: &Value,
) -> Result<PodSpec, FaultKind>
    ensures gives { GivesUnless is_memory (λ p. p) result (pod_in version so_far.now (view line.now)) }
    ensures faults { IfErr (pod_in version so_far.now (view line.now)) (IsErrOf result) }
{
    refused_if(is_late(version, so_far), FaultKind::Order)?;
    room_for_pod(so_far)?;
    pod_of_line(alloc, heeds_words(so_far), line)
}

/// Takes a pod line.
#[tactic(auto, unfolding(crate::specs::rule::Trace::pod_line_at))]
fn take_pod(
    alloc: Global,
    version: Version,
    so_far: TraceSoFar,
    line: &Value,
) -> Result<TraceSoFar, FaultKind>
    ensures gives { GivesUnless is_memory (λ r. r) result (pod_line_at version so_far (view line.now)) }
    ensures faults { IfErr (pod_in version so_far (view line.now)) (IsErrOf result) }
{
    match pod_in(alloc, version, &so_far, line) {
        Ok(pod) => with_new_pod(alloc, so_far, pod),
        Err(kind) => {
            drop(so_far);
            Err(kind)
        }
    }
}

/// The number of the pod that is present and whose key a line has.
fn named_in(roster: &Roster, key: Option<&str>) -> Option<usize>
    ensures { result ≡ named_in roster.now (option_map (λ s. s.now) key.entry) }
{
    roster.number_of(key?)
}

/// The pod with the number, which has this key, is gone.
fn without(so_far: TraceSoFar, number: usize, key: &str) -> TraceSoFar
    requires { number_of so_far.roll key.now ≡ Some number }
    ensures { result ≡ without so_far number }
{
    let TraceSoFar {
        format,
        node,
        mut roster,
        ticks,
        following,
    } = so_far;
    roster.leave(number, key, ticks.as_slice().len());
    TraceSoFar {
        format,
        node,
        roster,
        ticks,
        following,
    }
}

/// Takes a line by which a pod leaves.
#[tactic(auto, unfolding(crate::specs::rule::Trace::gone_line_at))]
fn take_gone(so_far: TraceSoFar, line: &Value) -> Result<TraceSoFar, FaultKind>
    ensures { GivesExactly (λ r. r) result (gone_line_at so_far (view line.now)) }
{
    let key = text_at(line, "pod");
    match (named_in(&so_far.roster, key), key) {
        (Some(number), Some(key)) => Ok(without(so_far, number, key)),
        _ => {
            drop(so_far);
            Err(FaultKind::StrangerPod)
        }
    }
}

/// The version of the format, once there is a node.
fn version_in(so_far: &TraceSoFar) -> Option<Version>
    ensures { result ≡ version_in so_far.now }
{
    match &so_far.node {
        None => None,
        Some(node) => Some(node.version),
    }
}

/// Whether a line of the kind may come after a node line of the version, or as the first line.
fn turn_of(version: Option<Version>, line_kind: LineKind) -> Result<Turn, FaultKind>
    ensures { GivesExactly (λ t. t) result (turn_of version line_kind) }
{
    match (version, line_kind) {
        (None, LineKind::Node) => Ok(Turn::Node),
        (Some(version), LineKind::Pod) => Ok(Turn::Pod(version)),
        (Some(_), LineKind::Tick) => Ok(Turn::Tick),
        (Some(_), LineKind::Gone) => Ok(Turn::Gone),
        _ => Err(FaultKind::Order),
    }
}

/// Takes the JSON value of a tick line.
fn take_tick_value(alloc: Global, so_far: TraceSoFar, line: &Value) -> Result<TraceSoFar, FaultKind>
    ensures { GivesUnless is_memory (λ r. r) result (tick_at so_far (view line.now)) }
{
    match tick_record(alloc, line) {
        Ok(tick) => take_tick(alloc, so_far, &tick),
        Err(error) => {
            drop(so_far);
            Err(FaultKind::from(error))
        }
    }
}

fn take_in_order(
    alloc: Global,
    so_far: TraceSoFar,
    line_kind: LineKind,
    line: &Value,
) -> Result<TraceSoFar, FaultKind>
    ensures { GivesUnless is_memory (λ r. r) result (in_order (version_in so_far) so_far line_kind (view line.now)) }
{
    match turn_of(version_in(&so_far), line_kind) {
        Ok(Turn::Node) => take_node(alloc, so_far, line),
        Ok(Turn::Pod(version)) => take_pod(alloc, version, so_far, line),
        Ok(Turn::Tick) => take_tick_value(alloc, so_far, line),
        Ok(Turn::Gone) => take_gone(so_far, line),
        Err(kind) => {
            drop(so_far);
            Err(kind)
        }
    }
}

/// Takes a line of JSON.
#[tactic(auto, unfolding(crate::specs::state::Taken::value_at))]
fn take_value(alloc: Global, so_far: TraceSoFar, line: &Value) -> Result<TraceSoFar, FaultKind>
    ensures { GivesUnless is_memory (λ r. r) result (value_at so_far (view line.now)) }
{
    match kind_of_line(version_in(&so_far), line) {
        Ok(line_kind) => take_in_order(alloc, so_far, line_kind, line),
        Err(kind) => {
            drop(so_far);
            Err(kind)
        }
    }
}

/// Takes a tick line, if it may come at its place.
fn take_tick_line(
    alloc: Global,
    so_far: TraceSoFar,
    line: &TickRecord,
) -> Result<TraceSoFar, FaultKind>
    ensures { GivesUnless is_memory (λ r. r) result (tick_line_at so_far line.now.at line.now.written) }
{
    match turn_of(version_in(&so_far), LineKind::Tick) {
        Ok(_) => take_tick(alloc, so_far, line),
        Err(kind) => {
            drop(so_far);
            Err(kind)
        }
    }
}

/// Whether a tick whose line was read ahead may follow the ticks so far.
#[tactic(auto, unfolding(crate::specs::state::Ahead::may_stand))]
fn may_stand(so_far: &TraceSoFar, tick: &TickObs) -> Result<(), FaultKind>
    requires { IsReadAhead (heeds so_far.now) so_far.now.roll tick.now }
    ensures gives { GivesExactly (λ u. u) result (may_stand so_far.now tick.now) }
    ensures follows { OnOk result (MayStandBehind so_far.now tick.now) }
{
    turn_of(version_in(so_far), LineKind::Tick)?;
    room(so_far)?;
    moment_in(so_far, Some(tick.at))?;
    refused_if(is_backwards(so_far, tick), FaultKind::Backwards)
}

/// Takes a tick whose line was read ahead, with the pods that are known now.
pub(crate) fn take_shown(so_far: TraceSoFar, tick: TickObs) -> Result<TraceSoFar, FaultKind>
    requires { IsReadAhead (heeds so_far) so_far.roll tick }
    ensures { (said : LineData) → IsShown (heeds so_far) so_far.roll said tick
        → GivesUnless is_memory (λ r. r) result (any_line_at so_far said) }
{
    match may_stand(&so_far, &tick) {
        Ok(()) => with_tick(so_far, tick),
        Err(kind) => {
            drop((so_far, tick));
            Err(kind)
        }
    }
}

/// Takes a line. Doesn't allocate for a line that is no JSON, or too long.
pub(crate) fn take_line(
    alloc: Global,
    so_far: TraceSoFar,
    line: &TextLine,
) -> Result<TraceSoFar, FaultKind>
    ensures gives { GivesUnless is_memory (λ r. r) result (any_line_at so_far (data_of line.now)) }
    ensures faults { IfErr (said_at (data_of line.now)) (IsErrOf result) }
{
    if let Err(kind) = check_text(line) {
        drop(so_far);
        return Err(kind);
    }
    match line {
        TextLine::Tick(tick) => take_tick_line(alloc, so_far, tick),
        TextLine::Json(value) => take_value(alloc, so_far, value),
        // A blank line: what is too long or no JSON was rejected before.
        _ => Ok(so_far),
    }
}
