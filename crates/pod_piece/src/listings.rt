//! Which listings of a pod's containers may come next, over all its ticks.

ghost use Rattle.std.specs.Prelude.{◌≡◌, ◌↔◌, ℕ, List, ◌∷◌, ◌++◌, [], length, Option, IfOk, IsTrue};
ghost use Rattle.manifest.specs.declared.pod.PodSpec.{PodSpec};
ghost use Rattle.pod_state.specs.rule.Pods.{PodTick, pod_tick};
ghost use Rattle.pod_state.specs.state.Listings.{listed_in, AreListed, AreAcceptable};
ghost use Rattle.pod_state.specs.state.States.{HasContainers, IsStateOf};
ghost use Rattle.pod_piece.specs.state.Listings.{AllFollow, IsOver, AreListedOnceEnded};

use observations::PodObs;
use pod_state::{PodState, listed_in};
use state_diff::Differ;
use std::alloc::{AllocError, Global};

/// A differ for each of this many containers, before any tick.
pub(crate) fn first_differs(alloc: Global, count: usize) -> Result<Vec<Differ>, AllocError>
    ensures { IfOk result (λ v. (pod : PodSpec) → length pod.containers ≡ count → AreListed pod [] v.items) }
{
    Ok(vec![in alloc; Differ::new(); count]?)
}

/// Whether each listing may come next.
fn are_acceptable(differs: &[Differ], observed: &PodObs) -> bool
    ensures { (pod : PodSpec) (h : List PodTick) → AreListed pod h differs.now
        → (IsTrue result ↔ AreAcceptable pod h observed.now.containers) }
{
    for (number, differ) in differs.iter().enumerate() {
        if !differ.accepts(listed_in(observed, number)) {
            return false;
        }
    }
    true
}

/// Follows a tick, of which each listing may come next.
fn follow(differs: &mut Vec<Differ>, observed: &PodObs)
    requires { AllFollow differs.old.items observed.now.at observed.now.containers }
    ensures { (pod : PodSpec) (h : List PodTick) → AreListed pod h differs.old.items
        → AreListed pod (h ++ pod_tick observed.now ∷ []) differs.new.items }
{
    let at = observed.at();
    for number in 0..differs.len() {
        let seen = listed_in(observed, number);
        differs[number] = differs[number].after(at, seen);
    }
}

/// Whether each listing may come next of a pod in this state, whose differs follow it once it has ended.
pub(crate) fn may_come(state: &PodState, differs: &[Differ], observed: &PodObs) -> bool
    ensures { (pod : PodSpec) (max_restart_delay : ℕ) (evicted : Option ℕ) (h : List PodTick)
        → IsStateOf pod max_restart_delay evicted h state.now
        → AreListedOnceEnded pod evicted h differs.now
        → (IsTrue result ↔ AreAcceptable pod h observed.now.containers) }
{
    if state.lifecycle().has_ended() {
        are_acceptable(differs, observed)
    } else {
        state.accepts(observed)
    }
}

/// The instance trackers of a pod after a tick that leaves it in this state: the ones of its containers. If the tick
/// ends the pod, they follow each tick from then on.
pub(crate) fn follow_on(
    differs: &mut Vec<Differ>,
    state: &PodState,
    had_ended: bool,
    observed: &PodObs,
)
    requires count { HasContainers (length differs.old.items) state.now }
    requires follow { IsTrue had_ended → AllFollow differs.old.items observed.now.at observed.now.containers }
    ensures { (pod : PodSpec) (max_restart_delay : ℕ) (evicted : Option ℕ) (h : List PodTick)
        → IsOver pod evicted h had_ended
        → AreListedOnceEnded pod evicted h differs.old.items
        → IsStateOf pod max_restart_delay evicted (h ++ pod_tick observed.now ∷ []) state.now
        → AreListedOnceEnded pod evicted (h ++ pod_tick observed.now ∷ []) differs.new.items }
{
    if had_ended {
        follow(differs, observed);
    } else if state.lifecycle().has_ended() {
        state.list(differs);
    }
}
