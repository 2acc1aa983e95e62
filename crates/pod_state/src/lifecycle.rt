//! The phase and the conditions of a pod, tick by tick.

ghost use Rattle.std.specs.Prelude.{◌≡◌, ◌↔◌, ℕ, List, [], ◌∷◌, ◌++◌, length, Option, Some, None, IsTrue};
ghost use Rattle.histories.specs.rule.Histories.{recorded};
ghost use Rattle.manifest.specs.declared.pod.PodSpec.{PodSpec};
ghost use Rattle.phase.specs.state.Restarts.{of_restart_view};
ghost use Rattle.phase.specs.rule.RawPhase.{IsTerminal, AreInitialized};
ghost use Rattle.pod_state.specs.rule.Pods.{PodEntry, PodTick, HasEnded};
ghost use Rattle.pod_state.specs.state.Pods.{AreViewsOf};
ghost use Rattle.pod_state.specs.rule.Lifecycles.{IsLifecycleOf};
ghost use Rattle.pod_state.specs.state.Lifecycles.{IsProgressOf, IsNextPhase, IsNext};

use phase::{Conditions, Phase, RestartView, Values, are_initialized_by, raw_phase_by};

/// A pod's phase and conditions, from tick to tick. A pod that has succeeded or failed, or that the node
/// has ended, keeps its phase from then on, whatever its containers do. (Kubernetes,
/// "Pod Lifecycle", "Pod phase" and "Pod conditions".)
#[derive(Clone, Copy, Debug, PartialEq, Eq)]
pub struct Lifecycle {
    /// The phase.
    pub phase: Phase,
    /// The conditions, each with the moment of its last transition.
    pub conditions: Conditions,
}

impl Lifecycle {
    /// The lifecycle of a pod that no tick has shown yet, with these containers.
    pub fn new(containers: &[RestartView]) -> Self
        ensures { (pod : PodSpec) (evicted : Option ℕ) → AreViewsOf pod [] containers.now
            → IsProgressOf pod evicted [] result }
    {
        Lifecycle {
            phase: Phase::Pending,
            conditions: Conditions::new(!are_initialized_by(containers)),
        }
    }

    /// Whether the pod has ended: it has succeeded, failed or been evicted.
    pub fn has_ended(&self) -> bool
        ensures terminal { IsTrue result ↔ IsTerminal self.now.phase }
        ensures ended { (pod : PodSpec) (evicted : Option ℕ) (h : List PodTick)
            → IsLifecycleOf pod evicted h self.now → (IsTrue result ↔ HasEnded pod evicted h) }
    {
        self.phase.is_terminal()
    }

    /// The phase after a tick.
    fn next_phase(&self, containers: &[RestartView], ends: bool) -> Phase
        ensures { IsNextPhase containers.now ends self.now.phase result }
    {
        if self.phase.is_terminal() {
            self.phase
        } else if ends {
            Phase::Failed
        } else {
            raw_phase_by(containers)
        }
    }

    /// Whether the pod is initialized after a tick.
    fn next_initialized(&self, containers: &[RestartView]) -> bool
        ensures ended { IsTerminal self.now.phase → result ≡ self.now.conditions.initialized.value }
        ensures lives { (IsTerminal self.now.phase → ⊥)
            → (IsTrue result ↔ AreInitialized of_restart_view containers.now) }
    {
        if self.phase.is_terminal() {
            self.conditions.initialized.value
        } else {
            are_initialized_by(containers)
        }
    }

    /// A tick comes, at the moment, in seconds, after which the containers are as these views show them; `ready` is
    /// whether all app containers and sidecars are ready after it, `gates` whether each condition that the pod's
    /// readiness gates name is True after it, and `ends` whether the node ends the pod with it: it evicts the pod, or
    /// the tick reports its end. Once the pod has ended, neither these nor the containers are looked at.
    pub fn advance(
        &mut self,
        at: u64,
        containers: &[RestartView],
        ready: bool,
        gates: bool,
        ends: bool,
    )
        ensures { IsNext at containers.now ready gates ends self.old self.new }
    {
        let phase = self.next_phase(containers, ends);
        let containers_ready = are_ready(phase, ready);
        let values = Values {
            initialized: self.next_initialized(containers),
            containers_ready,
            ready: are_both(containers_ready, gates),
        };
        self.phase = phase;
        self.conditions.advance(at, values);
    }
}

impl Lifecycle {
    /// The lifecycle after the last tick, at the moment, if that evicts the pod. `self` is the one before that tick, in
    /// which the pod had not ended, and `updated` the one after it without an eviction. A condition that only this tick
    /// made true, and its eviction false again, was never true: so its last transition is the one of `self`.
    pub(crate) fn evicted(&self, at: u64, updated: &Lifecycle) -> Lifecycle
        requires { IsTerminal self.now.phase → ⊥ }
        ensures { (pod : PodSpec) (h : List PodTick) (entry : PodEntry)
            → IsLifecycleOf pod None h self.now
            → IsLifecycleOf pod None (h ++ recorded at entry ∷ []) updated.now
            → IsProgressOf pod (Some (length h)) h self.now
            → IsProgressOf pod (Some (length h)) (h ++ recorded at entry ∷ []) result }
    {
        let values = Values {
            initialized: updated.conditions.initialized.value,
            containers_ready: false,
            ready: false,
        };
        let mut conditions = self.conditions;
        conditions.advance(at, values);
        Lifecycle {
            phase: Phase::Failed,
            conditions,
        }
    }
}

fn are_both(containers_ready: bool, gates: bool) -> bool
    ensures { IsTrue result ↔ (IsTrue containers_ready × IsTrue gates) }
{
    containers_ready && gates
}

/// Whether the containers of a pod of this phase are ready, if the flag is whether all app containers and sidecars are.
fn are_ready(phase: Phase, all_ready: bool) -> bool
    ensures { IsTrue result ↔ ((IsTerminal phase → ⊥) × IsTrue all_ready) }
{
    !phase.is_terminal() && all_ready
}
