//! What a tick line shows of the pods, put at the pods' numbers as their entries come.

ghost use Rattle.std.specs.Prelude.{◌≡◌, ◌++◌, ◌∷◌, [], ℕ, ◌<◌, false, true, All, IfOk, List, None, Some, length};
ghost use Rattle.std.specs.Prelude.{slice_get, if◌then◌else◌};
ghost use Rattle.manifest.specs.declared.pod.PodSpec.{PodSpec};
ghost use Rattle.roster.specs.rule.Roll.{is_present};
ghost use Rattle.trace.specs.declared.placing.PlacedEntry.{PlacedEntry};
ghost use Rattle.trace.specs.state.Noted.{AreUnknown};
ghost use Rattle.trace.specs.rule.Observed.{pod_observed, pods_from};
ghost use Rattle.trace.specs.state.Slots.{has_entry, slots_from};

use crate::noted::keep_unknown;
use manifest::PodSpec;
use observations::{ContainerObs, PodObs, Sampling};
use roster::Roster;
use std::alloc::{AllocError, Global};

/// This many pods, of which nothing is shown yet.
pub(crate) fn no_pods(alloc: Global, pods: usize) -> Result<Vec<Option<PodObs>>, AllocError>
    ensures { IfOk result (λ v. (at : ℕ) (ps : List PodSpec) → pods ≡ length ps → v.items ≡ slots_from at [] 0 ps) }
{
    let mut all = Vec::with_capacity(alloc, pods)?;
    for _ in 0..pods {
        all.push(None)?;
    }
    Ok(all)
}

/// Notes what an entry shows of the pod with the number, unless an earlier one shows something of it. Returns whether
/// one does.
pub(crate) fn note_pod(slots: &mut [Option<PodObs>], number: usize, shown: PodObs) -> bool
    requires { number < length slots.old }
    ensures earlier { (at : ℕ) (es : List PlacedEntry) (ps : List PodSpec) → slots.old ≡ slots_from at es 0 ps
        → number < length ps → result ≡ has_entry es number }
    ensures kept { result ≡ true → slots.new ≡ slots.old }
    ensures noted { (at : ℕ) (es : List PlacedEntry) (ps : List PodSpec) (e : PlacedEntry) (p : PodSpec)
        → slots.old ≡ slots_from at es 0 ps → e.pod ≡ number → slice_get ps number ≡ Some p
        → shown ≡ pod_observed at (Some e) p → result ≡ false → slots.new ≡ slots_from at (es ++ e ∷ []) 0 ps }
{
    if slots[number].is_some() {
        return true;
    }
    slots[number] = Some(shown);
    false
}

/// What is shown of a pod that has no entry, if it is present. The containers are no more than a place to work in, and
/// stay some of which nothing is known.
fn without_entry(
    alloc: Global,
    at: u64,
    pod: &PodSpec,
    is_present: bool,
    containers: &mut Vec<ContainerObs>,
) -> Result<Option<PodObs>, AllocError>
    requires { AreUnknown containers.old.items }
    ensures shown { IfOk result (λ o. o ≡ (if is_present then Some (pod_observed at None pod.now) else None)) }
    ensures unknown { IfOk result (λ _. AreUnknown containers.new.items) }
{
    if !is_present {
        return Ok(None);
    }
    keep_unknown(containers, pod.containers.as_slice())?;
    let observed = PodObs::new(alloc, at, containers, Sampling::Unsaid)?;
    Ok(Some(observed))
}

/// What is shown of all pods, where each entry is of one that is present: of one that is present and has no entry an
/// observation with nothing of its containers.
pub(crate) fn with_others(
    alloc: Global,
    at: u64,
    mut slots: Vec<Option<PodObs>>,
    roster: &Roster,
) -> Result<Vec<Option<PodObs>>, AllocError>
    requires { length slots.items ≡ length roster.now.pods }
    ensures { IfOk result (λ v. (es : List PlacedEntry) → slots.items ≡ slots_from at es 0 roster.now.pods
        → All (λ e. is_present roster.now.departures e.pod ≡ true) es
        → v.items ≡ pods_from at es roster.now.departures 0 roster.now.pods) }
{
    let mut containers = Vec::new(alloc);
    for (number, pod) in roster.pods().iter().enumerate() {
        if slots[number].is_none() {
            let is_present = roster.is_present(number);
            slots[number] = without_entry(alloc, at, pod, is_present, &mut containers)?;
        }
    }
    Ok(slots)
}
