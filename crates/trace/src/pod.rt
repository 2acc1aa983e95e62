//! Pod lines.

ghost use Rattle.std.specs.Prelude.{◌≡◌, ◌&&◌, is_some, option_map, None, IfErr, IfOk, IsErrOf, string_bytes};
ghost use Rattle.serde_json.specs.View.{view};
ghost use Rattle.json_fields.specs.rule.Reading.{refused_if};
ghost use Rattle.json_fields.specs.state.Reading.{GivesExactly, GivesUnless};
ghost use Rattle.roster.specs.rule.Roll.{key_of_pod, number_of};
ghost use Rattle.trace.specs.state.Memory.{is_memory};
ghost use Rattle.manifest_fields.specs.declared.fault.Field.TheVariants as fields;
ghost use Rattle.manifest_fields.specs.declared.fault.ManifestFault.TheVariants.{WrongKind};
ghost use Rattle.line_faults.specs.declared.fault.FaultKind.TheVariants.{DuplicatePod, Manifest};
ghost use Rattle.trace.specs.rule.Written.{is_of_other_kind};
ghost use Rattle.trace.specs.rule.Pod.{has_key, new_key, room_for_pod, manifest_of, manifest_read};
ghost use Rattle.trace.specs.rule.Pod.{pod_from, pod_of_line};
ghost use Rattle.manifest_fields.specs.state.Memory.{is_memory as is_manifest_memory};

use crate::trace_so_far::TraceSoFar;
use crate::words::{is_of_other_kind, says_so};
use extended_manifest::read_extended_pod;
use json_fields::field;
use line_faults::{FaultKind, refused_if};
use manifest::PodSpec;
use manifest_reader::{Field, ManifestFault, read_pod};
use observations::MOST_PODS;
use roster::Roster;
use serde_json::Value;
use std::alloc::{AllocError, Global};
use tick_lines::{TruthMember, truth_of};

/// The manifest of a pod line.
fn manifest_of(found: Option<&Value>) -> Result<&Value, FaultKind>
    ensures { GivesExactly (λ v. view v.now) result (manifest_of (option_map (λ v. view v.now) found.entry)) }
{
    found.ok_or(FaultKind::Manifest(ManifestFault::Missing(Field::Pod)))
}

/// The pod that a manifest describes, by whether the version reads the extended format's fields.
fn manifest_read(alloc: Global, heeds: bool, manifest: &Value) -> Result<PodSpec, ManifestFault>
    ensures gives { GivesUnless is_manifest_memory (λ p. p) result (manifest_read heeds (view manifest.now)) }
    ensures faults { IfErr (manifest_read heeds (view manifest.now)) (IsErrOf result) }
{
    if heeds {
        read_extended_pod(alloc, manifest)
    } else {
        read_pod(alloc, manifest)
    }
}

/// The pod that a pod line's manifest describes; whether the node exempts it is not in the manifest. Out of memory only
/// if the manifest has no fault.
#[tactic(auto, using(crate::proofs::Manifests::manifest_fault))]
fn pod_from(alloc: Global, heeds: bool, found: Option<&Value>) -> Result<PodSpec, FaultKind>
    ensures gives { GivesUnless is_memory (λ p. p) result (pod_from heeds (option_map (λ v. view v.now) found.entry)) }
    ensures faults { IfErr (pod_from heeds (option_map (λ v. view v.now) found.entry)) (IsErrOf result) }
{
    let manifest = manifest_of(found)?;
    Ok(manifest_read(alloc, heeds, manifest)?)
}

/// Nothing, unless the member `spared` is of another kind than a truth value and the version reads it. Doesn't
/// allocate.
fn known_spared(heeds: bool, spared: TruthMember) -> Result<(), FaultKind>
    ensures { GivesExactly (λ t. t) result
        (refused_if (heeds && is_of_other_kind spared) (Manifest (WrongKind fields.Spared))) }
{
    refused_if(
        heeds && is_of_other_kind(spared),
        FaultKind::Manifest(ManifestFault::WrongKind(Field::Spared)),
    )
}

/// The pod of a pod line. Out of memory only if the line has no other fault.
#[tactic(auto, using(crate::proofs::Manifests::first_besides))]
pub(crate) fn pod_of_line(alloc: Global, heeds: bool, line: &Value) -> Result<PodSpec, FaultKind>
    ensures gives { GivesUnless is_memory (λ p. p) result (pod_of_line heeds (view line.now)) }
    ensures faults { IfErr (pod_of_line heeds (view line.now)) (IsErrOf result) }
{
    let spared = truth_of(field(line, "spared"));
    match pod_from(alloc, heeds, field(line, "pod")) {
        Ok(pod) => {
            known_spared(heeds, spared)?;
            Ok(PodSpec {
                spared: heeds && says_so(spared),
                ..pod
            })
        }
        Err(FaultKind::OutOfMemory) => {
            known_spared(heeds, spared)?;
            Err(FaultKind::OutOfMemory)
        }
        Err(kind) => Err(kind),
    }
}

/// A pod's key.
fn key_text(alloc: Global, pod: &PodSpec) -> Result<String, AllocError>
    ensures { IfOk result (λ s. string_bytes s ≡ key_of_pod pod.now) }
{
    let namespace = pod.namespace.as_str();
    let name = pod.name.as_str();
    format!(in alloc; "{namespace}/{name}")
}

/// There is room for one pod more.
pub(crate) fn room_for_pod(so_far: &TraceSoFar) -> Result<(), FaultKind>
    ensures { GivesExactly (λ t. t) result (room_for_pod so_far.now.roll.pods) }
{
    refused_if(so_far.roster.pods().len() >= MOST_PODS, FaultKind::TooMany)
}

/// Rejects a key for which the number of a pod was found.
fn unless_found(number: Option<usize>) -> Result<(), FaultKind>
    ensures { GivesExactly (λ t. t) result (refused_if (is_some number) DuplicatePod) }
{
    refused_if(number.is_some(), FaultKind::DuplicatePod)
}

/// No pod that is present has this key. Doesn't allocate.
fn unused(roster: &Roster, key: &str) -> Result<(), FaultKind>
    ensures { GivesExactly (λ t. t) result (refused_if (has_key roster.now key.now) DuplicatePod) }
{
    unless_found(roster.number_of(key))
}

/// The key of a pod, if no pod that is present has it.
pub(crate) fn new_key(
    alloc: Global,
    so_far: &TraceSoFar,
    pod: &PodSpec,
) -> Result<String, FaultKind>
    ensures gives { GivesUnless is_memory (λ _. tt) result (new_key so_far.now.roll pod.now) }
    ensures key { IfOk result (λ s. string_bytes s ≡ key_of_pod pod.now) }
    ensures new { IfOk result (λ s. number_of so_far.now.roll (string_bytes s) ≡ None) }
{
    let key = key_text(alloc, pod)?;
    unused(&so_far.roster, key.as_str())?;
    Ok(key)
}
