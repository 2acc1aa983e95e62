//! The status of a pod.

ghost use Rattle.std.specs.Prelude.{◌≡◌, ◌↔◌, length, Option, IsTrue, option_map};
ghost use Rattle.manifest.specs.declared.pod.PodSpec.{PodSpec};
ghost use Rattle.phase.specs.rule.RawPhase.{IsTerminal};
ghost use Rattle.qos.specs.rule.Resized.{resized};
ghost use Rattle.pod_piece.specs.rule.Status.{requests_of, reason_in, disrupts, disrupted_at, MayBeEvicted};

use crate::order::EvictOrder;
use containers::ContainerStatus;
use manifest::{PodSpec, Resource, Resources};
use observations::{EndReason, Usage};
use phase::{Conditions, Phase};
use qos::{Qos, pod_request};

/// How the node has ended a pod, except by an eviction, as a tick reports. (Kubernetes, "Pod Lifecycle"; that a trace
/// can report it is this project's extended format.)
#[derive(Drop)]
pub struct PodFailure {
    /// The moment of that tick, in seconds.
    pub at: u64,
    /// Why the node ended the pod.
    pub reason: EndReason,
}

/// Whether the node ends a pod for such a reason to make room, or as it shuts down.
fn disrupts(reason: &str) -> bool
    ensures { result ≡ disrupts reason.now }
{
    reason == "Evicted" || reason == "Preempting" || reason == "Terminated"
}

/// The requests of a pod, in thousandths: the requests of the pod as a whole, if it has them, else the effective
/// requests of its containers. (Kubernetes, "Init Containers" and "Sidecar Containers", "Resource sharing within
/// containers"; "Resource Management for Pods and Containers", "Pod-level resource specification".)
#[derive(Clone, Copy, Debug, PartialEq, Eq)]
pub struct EffectiveRequests {
    /// The CPUs, in thousandths of one.
    pub cpu: u128,
    /// The memory, in thousandths of a byte.
    pub memory: u128,
    /// The storage on the node's own file systems, in thousandths of a byte.
    pub ephemeral_storage: u128,
}

impl EffectiveRequests {
    /// The requests of a pod whose containers have these requests and limits.
    pub(crate) fn of(pod: &PodSpec, resources: &[Resources]) -> EffectiveRequests
        requires { length resources.now ≡ length pod.now.containers }
        ensures { result ≡ requests_of (resized pod.now resources.now) }
    {
        EffectiveRequests {
            cpu: pod_request(pod, resources, Resource::Cpu),
            memory: pod_request(pod, resources, Resource::Memory),
            ephemeral_storage: pod_request(pod, resources, Resource::EphemeralStorage),
        }
    }
}

/// What a pod uses of its node, by the newest sample of each resource.
#[derive(Clone, Copy, Debug, PartialEq, Eq)]
pub struct NewestUsage {
    /// The newest samples, since a tick last reported that there is none.
    pub samples: Usage,
    /// Whether a tick reported that there is none, and none has come since. (This project's extended format.)
    pub is_unsampled: bool,
}

/// The status of a pod. (Kubernetes, "Pod Lifecycle".)
#[derive(Drop)]
pub struct PodStatus {
    /// The pod's number among the pods of its node.
    pub number: usize,
    /// The phase.
    pub phase: Phase,
    /// The conditions, each with the moment of its last transition, but for DisruptionTarget
    /// (`disruption_target`).
    pub conditions: Conditions,
    /// The containers, by number: init containers and sidecars first.
    pub containers: Vec<ContainerStatus>,
    /// The QoS class.
    pub class: Qos,
    /// The requests and limits of the containers by now, by number: those of the manifest, or of the last resize.
    /// (Kubernetes, "Pod Lifecycle", "Pod resize".)
    pub resources: Vec<Resources>,
    /// Its effective requests, with these.
    pub requests: EffectiveRequests,
    /// What it uses, by the newest sample of each resource.
    pub usage: NewestUsage,
    /// Its priority.
    pub priority: i32,
    /// Whether the node exempts it from eviction. (This project's extended format.)
    pub spared: bool,
    /// The order that evicted it, if it was evicted.
    pub order: Option<EvictOrder>,
    /// How the node has ended it, if it has, but for an eviction.
    pub failure: Option<PodFailure>,
}

impl PodStatus {
    /// Why the pod has failed, if it was evicted or the node has ended it otherwise: the `reason` of its status.
    pub fn reason(&self) -> Option<&str>
        ensures { option_map (λ r. r.now) result ≡ reason_in self.now.order self.now.failure }
    {
        if self.order.is_some() {
            return Some("Evicted");
        }
        match &self.failure {
            Some(failure) => Some(failure.reason.as_str()),
            None => None,
        }
    }

    /// Since when the condition DisruptionTarget is true, in seconds, with the reason TerminationByKubelet: since its
    /// eviction, or since the node has ended it as `Evicted`, `Preempting` or `Terminated`. Another pod doesn't have
    /// it. (Kubernetes, "Disruptions", "Pod disruption conditions".)
    pub fn disruption_target(&self) -> Option<u64>
        ensures { result ≡ disrupted_at self.now.order self.now.failure }
    {
        if let Some(order) = self.order {
            return Some(order.at);
        }
        match &self.failure {
            Some(failure) if disrupts(failure.reason.as_str()) => Some(failure.at),
            _ => None,
        }
    }

    /// Whether a tick at the moment, in seconds, may evict the pod: the node doesn't exempt it, and it has not ended,
    /// or that very tick reports that the node has ended it.
    pub fn may_be_evicted(&self, at: u64) -> bool
        ensures { IsTrue result ↔ MayBeEvicted at self.now }
    {
        if self.spared {
            return false;
        }
        if !self.is_terminal() {
            return true;
        }
        match &self.failure {
            Some(failure) => failure.at == at,
            None => false,
        }
    }

    /// Whether the pod has ended: it has succeeded or failed, or the node has ended it.
    pub fn is_terminal(&self) -> bool
        ensures { IsTrue result ↔ IsTerminal self.now.phase }
    {
        self.phase.is_terminal()
    }
}
