//! What a tick shows of one pod.

ghost use Rattle.std.specs.Prelude.{◌≡◌, length, IfOk, slice_get, option_map};
ghost use Rattle.std.specs.Option.{option_flatten};
ghost use Rattle.observations.specs.state.Pods.{pod_obs, told_obs, resized_obs, sample_in};

use crate::container::ContainerObs;
use crate::packed_containers::PackedContainers;
use crate::reason::EndReason;
use crate::resize::Resize;
use crate::usage::{Sampling, Usage};
use crate::words::PodWords;
use std::alloc::{AllocError, Global};
use std::marker::Model;

/// What a tick shows of one pod, in 40 bytes: a trace has millions of these. Contracts see the moment, an observation
/// for each container by number, the sampling of its use of the node, the tick's words, and its resizes.
#[derive(Drop)]
pub struct PodObs {
    at: u64,
    shown: PackedContainers,
}

impl Model for PodObs {
    ghost use Rattle.std.specs.Prelude.{map};
    ghost use Rattle.observations.specs.state.PackedContainer.{shown_as};
    ghost use Rattle.observations.specs.rule.Pods.{PodObs};
    ghost use Rattle.observations.specs.state.Pods.{resized_obs, kept_in, sampling_in, words_in, resized_in};

    ghost Value = { PodObs };

    ghost view = { λ o. resized_obs o.at (map shown_as (kept_in o.shown)) (sampling_in o.shown) (words_in o.shown)
        (resized_in o.shown) };
}

impl PodObs {
    /// What a tick at the moment, in seconds, shows of a pod: one observation for each container, by number, and the
    /// sampling of its use of the node.
    pub fn new(
        alloc: Global,
        at: u64,
        containers: &[ContainerObs],
        sampling: Sampling,
    ) -> Result<PodObs, AllocError>
        ensures { IfOk result (λ o. o ≡ pod_obs at containers.now sampling) }
    {
        let shown = PackedContainers::new(alloc, containers, sampling)?;
        Ok(PodObs { at, shown })
    }

    /// What such a tick shows of it that has these words on it.
    pub fn told(
        alloc: Global,
        at: u64,
        containers: &[ContainerObs],
        sampling: Sampling,
        words: PodWords,
    ) -> Result<PodObs, AllocError>
        ensures { IfOk result (λ o. o ≡ told_obs at containers.now sampling words) }
    {
        PodObs::resized(alloc, at, containers, sampling, words, Vec::new(alloc))
    }

    /// What such a tick shows of a pod whose containers it resizes.
    pub fn resized(
        alloc: Global,
        at: u64,
        containers: &[ContainerObs],
        sampling: Sampling,
        words: PodWords,
        resized: Vec<Resize>,
    ) -> Result<PodObs, AllocError>
        ensures { IfOk result (λ o. o ≡ resized_obs at containers.now sampling words resized.items) }
    {
        let shown = PackedContainers::told(alloc, containers, sampling, words, resized)?;
        Ok(PodObs { at, shown })
    }

    /// The tick's moment, in seconds.
    pub fn at(&self) -> u64
        ensures { result ≡ self.now.at }
    {
        self.at
    }

    /// How many containers the pod has.
    pub fn container_count(&self) -> usize
        ensures { result ≡ length self.now.containers }
    {
        self.shown.len()
    }

    /// What is shown of the container with the number, if there is one.
    pub fn container(&self, number: usize) -> Option<ContainerObs>
        ensures { result ≡ slice_get self.now.containers number }
    {
        let kept = self.shown.get(number)?;
        Some(kept.shown())
    }

    /// The sampling of the pod's use of the node.
    pub fn sampling(&self) -> Sampling
        ensures { result ≡ self.now.sampling }
    {
        self.shown.sampling()
    }

    /// Whether the tick marks the pod as being deleted. (Kubernetes, "Pod Lifecycle", "Termination of Pods".)
    pub fn deleting(&self) -> bool
        ensures { result ≡ self.now.words.deleting }
    {
        self.shown.deleting()
    }

    /// Why the tick reports that the node has ended the pod with it, if it does. (Kubernetes, "Pod Lifecycle", "Pod
    /// phase".)
    pub fn failed(&self) -> Option<&EndReason>
        ensures { option_map (λ r. r.now) result ≡ self.now.words.failed }
    {
        self.shown.failed()
    }

    /// The status that the tick gives of the condition that the pod's readiness gate with the number names, if it gives
    /// one. (Kubernetes, "Pod Lifecycle", "Pod readiness".)
    pub fn gate(&self, number: usize) -> Option<bool>
        ensures { result ≡ option_flatten (slice_get self.now.words.gates number) }
    {
        self.shown.gate(number)
    }

    /// The resizes of the pod's containers that the tick reports. (Kubernetes, "Pod Lifecycle", "Pod resize".)
    pub fn resizes(&self) -> &[Resize]
        ensures { result.now ≡ self.now.resized }
    {
        self.shown.resizes()
    }

    /// What the pod used, where the tick has a sample of it.
    pub fn usage(&self) -> Option<Usage>
        ensures { result ≡ sample_in self.now.sampling }
    {
        match self.sampling() {
            Sampling::Unsaid | Sampling::Unsampled => None,
            Sampling::Sampled(usage) => Some(usage),
        }
    }
}
