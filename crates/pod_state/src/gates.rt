//! The conditions that a pod's readiness gates name, tick by tick.

ghost use Rattle.std.specs.Prelude.{◌≡◌, ◌≤◌, ◌∷◌, ◌++◌, ◌↔◌, [], ℕ, List, length, IsTrue};
ghost use Rattle.manifest.specs.declared.pod.PodSpec.{PodSpec};
ghost use Rattle.manifest.specs.rule.Gates.{most_gates};
ghost use Rattle.pod_state.specs.rule.Pods.{PodTick, pod_tick};
ghost use Rattle.pod_state.specs.rule.Gates.{AreGatesTrue};

use manifest::{MOST_GATES, ReadinessGates};
use observations::PodObs;

/// The statuses of the conditions that a pod's readiness gates name, after its ticks so far: for each the last status
/// that a tick gave, and False without one. (Kubernetes, "Pod Lifecycle", "Pod readiness".)
#[derive(Clone, Copy)]
pub(crate) struct GateStatuses {
    count: usize,
    statuses: [bool; MOST_GATES],
    ghost few: { count ≤ most_gates },
}

impl GateStatuses {
    ghost use Rattle.pod_state.specs.state.Gates.{AreStatusesOf};

    /// The statuses for these gates before any tick.
    pub(crate) fn new(gates: &ReadinessGates) -> GateStatuses
        ensures { AreStatusesOf (length gates.now) [] result }
    {
        GateStatuses {
            count: gates.len(),
            statuses: [false; MOST_GATES],
        }
    }

    /// The statuses after one tick more.
    pub(crate) fn next(self, observed: &PodObs) -> GateStatuses
        ensures { (count : ℕ) (h : List PodTick) → AreStatusesOf count h self
            → AreStatusesOf count (h ++ pod_tick observed.now ∷ []) result }
    {
        let mut statuses = self.statuses;
        for gate in 0..self.count {
            statuses[gate] = observed.gate(gate).unwrap_or(statuses[gate]);
        }
        GateStatuses {
            count: self.count,
            statuses,
        }
    }

    /// Whether each of the conditions is True.
    pub(crate) fn are_true(&self) -> bool
        ensures { (pod : PodSpec) (h : List PodTick) → AreStatusesOf (length pod.gates) h self.now
            → (IsTrue result ↔ AreGatesTrue pod h) }
    {
        for gate in 0..self.count {
            if !self.statuses[gate] {
                return false;
            }
        }
        true
    }
}
