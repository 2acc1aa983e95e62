//! Reading a manifest as the extended format does.

ghost use Rattle.std.specs.Prelude.{◌≡◌, option_map, IfErr, IsErrOf};
ghost use Rattle.serde_json.specs.View.{view};
ghost use Rattle.json_fields.specs.state.Reading.{GivesExactly, GivesUnless};
ghost use Rattle.manifest_fields.specs.state.Memory.{is_memory};
ghost use Rattle.extended_manifest.specs.rule.Extended.{in_spec, additions_of, extended_pod_at};
ghost use Rattle.extended_manifest.specs.state.Additions.{additions_as};

use crate::gates::{gates_of, kept};
use arrayvec::ArrayVec;
use json_fields::field;
use manifest::{MOST_GATES, PodSpec, Resources};
use manifest_fields::{ManifestFault, pod_resources_of};
use manifest_reader::read_pod_in;
use serde_json::Value;
use std::alloc::Global;

/// The field of this name in a manifest's `spec`.
fn in_spec<'a>(manifest: &'a Value, name: &str) -> Option<&'a Value>
    ensures { option_map (λ v. view v.now) result ≡ in_spec name.now (view manifest.now) }
{
    field(field(manifest, "spec")?, name)
}

/// What is read of a manifest besides.
#[derive(Drop)]
struct Additions<'a> {
    resources: Resources,
    gates: ArrayVec<&'a str, MOST_GATES>,
}

#[tactic(auto, unfolding(crate::specs::rule::Extended::additions_of))]
fn additions_of(manifest: &Value) -> Result<Additions<'_>, ManifestFault>
    ensures { GivesExactly additions_as result (additions_of (view manifest.now)) }
{
    Ok(Additions {
        resources: pod_resources_of(in_spec(manifest, "resources"))?,
        gates: gates_of(in_spec(manifest, "readinessGates"))?,
    })
}

/// The pod that a manifest describes in the extended format, or the manifest's first fault: in the order of
/// `manifest_reader::read_pod_in`, where each container may have a restart policy and rules of its own, then of
/// `spec.resources`, then of `spec.readinessGates`, each gate in its place. `OutOfMemory` only if the manifest has no
/// fault. (Kubernetes, "Pod Quality of Service Classes"; "Pod Lifecycle", "Pod readiness" and "Individual container
/// restart policy and rules".)
#[tactic(auto, using(crate::proofs::Additions::first_besides))]
pub fn read_extended_pod(alloc: Global, manifest: &Value) -> Result<PodSpec, ManifestFault>
    ensures gives { GivesUnless is_memory (λ p. p) result (extended_pod_at (view manifest.now)) }
    ensures faults { IfErr (extended_pod_at (view manifest.now)) (IsErrOf result) }
{
    match read_pod_in(alloc, true, manifest) {
        Ok(pod) => {
            let more = additions_of(manifest)?;
            let gates = kept(alloc, more.gates.as_slice())?;
            Ok(PodSpec {
                resources: more.resources,
                gates,
                ..pod
            })
        }
        Err(ManifestFault::OutOfMemory) => {
            additions_of(manifest)?;
            Err(ManifestFault::OutOfMemory)
        }
        Err(fault) => Err(fault),
    }
}
