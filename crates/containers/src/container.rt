//! A container, tick by tick.

ghost use Rattle.std.specs.Prelude.{◌≡◌, ◌↔◌, ◌<◌, ◌≤◌, ℕ, List, [], ◌∷◌, ◌++◌, length, Some, IsTrue, IsSomeAnd};
ghost use Rattle.std.specs.Prelude.{IfSome, ℤ, option_map};
ghost use Rattle.quantity.specs.rule.Duration.{end_of_time};
ghost use Rattle.histories.specs.rule.Histories.{recorded, IsFirstMoment, last_moment};
ghost use Rattle.manifest.specs.declared.pod.ContainerSpec.{ContainerSpec};
ghost use Rattle.manifest.specs.declared.pod.Role.TheVariants.{Init};
ghost use Rattle.state_diff.specs.declared.seen.CriState.TheVariants.{Running};
ghost use Rattle.state_diff.specs.rule.Instances.{Ends, ListedAs};
ghost use Rattle.state_diff.specs.state.Instances.{IsAcceptable};
ghost use Rattle.state_diff.specs.declared.differ.Differ.{Differ};
ghost use Rattle.state_diff.specs.state.Differ.{IsStateOf as IsDifferOf, Accepts as DifferAccepts, AreChanges};
ghost use Rattle.state_diff.specs.state.Differ.{IsOfNewest};
ghost use Rattle.restarts.specs.rule.Own.{WantsRestartBy};
ghost use Rattle.restarts.specs.rule.Exits.{Exit};
ghost use Rattle.restarts.specs.rule.Delays.{IsRestartDue};
ghost use Rattle.restarts.specs.state.Backoff.{IsStateOf as IsBackoffOf};
ghost use Rattle.containers.specs.rule.Ticks.{ContainerTick, listings};
ghost use Rattle.containers.specs.rule.Probed.{Serves, IsStarted, IsContainerReady};
ghost use Rattle.containers.specs.rule.Exits.{AreExits, IsToRestart};
ghost use Rattle.containers.specs.rule.Events.{AreEvents};
ghost use Rattle.containers.specs.rule.Shown.{IsShown};
ghost use Rattle.containers.specs.state.Shown.{IsViewOf, IsRestartViewOf};
ghost use Rattle.containers.specs.state.Container.{Accepts, IsBefore, IsStateOf, IsFollowing};
ghost use Rattle.containers.specs.state.Step.{AreVerdictsOf, AreCounted};

use crate::events::ContainerEvents;
use crate::exits::{count_both, is_backed_off, run_until, to_restart};
use crate::follow::{Followed, begin, is_running, lists_running, take};
use crate::places;
use crate::status::ContainerStatus;
use manifest::{ContainerSpec, MaxRestartDelay, OwnRestarts, Policy, Role};
use observations::ContainerObs;
use phase::{ContainerView, RestartView, container_state};
use probes::ProbeSet;
use restarts::{Backoff, wants_restart_by};
use state_diff::{Changes, Differ, Seen};

/// One container of a pod, as its ticks so far leave it. It keeps counters, and no ticks.
#[derive(Clone, Copy, Debug, PartialEq, Eq)]
pub struct Container {
    role: Role,
    differ: Differ,
    probes: ProbeSet,
    backoff: Backoff,
    was_started: bool,
}

impl Container {
    /// A container that no tick has shown yet, on a node with this maximum restart delay.
    pub fn new(spec: &ContainerSpec, max_restart_delay: MaxRestartDelay) -> Self
        ensures { IsStateOf spec.now max_restart_delay [] result }
    {
        Container {
            role: spec.role(),
            differ: Differ::new(),
            probes: ProbeSet::new(spec),
            backoff: Backoff::new(max_restart_delay),
            was_started: false,
        }
    }

    /// Whether the listing, or none, may come next.
    pub fn accepts(&self, seen: Option<Seen>) -> bool
        ensures value { IsTrue result ↔ Accepts self.now seen }
        ensures acceptable { (spec : ContainerSpec) (max_restart_delay : ℕ) (h : List ContainerTick)
            → IsStateOf spec max_restart_delay h self.now → (IsTrue result ↔ IsAcceptable (listings h) seen) }
    {
        self.differ.accepts(seen)
    }

    /// The moment of the last tick, in seconds; none before the first.
    pub fn last_at(&self) -> Option<u64>
        ensures moment { (spec : ContainerSpec) (max_restart_delay : ℕ) (h : List ContainerTick)
            → IsStateOf spec max_restart_delay h self.now → result ≡ last_moment h }
        ensures before { (moment : ℕ)
            → (IfSome result (λ last. last < moment) ↔ IsBefore self.now moment) }
    {
        self.differ.last_at()
    }

    /// The state of its newest instance, by its listings so far.
    pub fn differ(&self) -> Differ
        ensures { (spec : ContainerSpec) (max_restart_delay : ℕ) (h : List ContainerTick)
            → IsStateOf spec max_restart_delay h self.now → IsDifferOf (listings h) result }
    {
        self.differ
    }

    /// The container as the rules on phases see it.
    pub fn view(&self) -> ContainerView
        ensures { (spec : ContainerSpec) (max_restart_delay : ℕ) (h : List ContainerTick)
            → IsStateOf spec max_restart_delay h self.now → IsViewOf spec h result }
    {
        ContainerView {
            role: self.role,
            seen: self.differ.newest(),
            set_up: self.differ.set_up(),
            was_started: self.was_started,
        }
    }

    /// The container as the rules on phases see it, with whether it is restarted: in a pod with this policy, where the
    /// container has these restart policy and rules of its own.
    pub fn restart_view(&self, policy: Policy, own: Option<&OwnRestarts>) -> RestartView
        ensures { (spec : ContainerSpec) (max_restart_delay : ℕ) (h : List ContainerTick)
            → option_map (λ o. o.now) own.entry ≡ spec.own_restarts → IsStateOf spec max_restart_delay h self.now
            → IsRestartViewOf policy spec h result }
    {
        let view = self.view();
        RestartView {
            view,
            wants_restart: wants_after(policy, own, view.role, view.exit_code()),
        }
    }

    /// Whether it is started, and ready by its readiness probe, if it has one.
    pub fn is_ready(&self) -> bool
        ensures { (spec : ContainerSpec) (max_restart_delay : ℕ) (h : List ContainerTick)
            → IsStateOf spec max_restart_delay h self.now → (IsTrue result ↔ IsContainerReady spec h) }
    {
        self.serves() && self.probes.ready()
    }

    /// Returns what its pod's status shows of it; `is_ended_by_node`: the node has ended the pod, by an eviction or for
    /// another reason of its own.
    pub fn status(&self, is_ended_by_node: bool) -> ContainerStatus
        ensures { (spec : ContainerSpec) (max_restart_delay : ℕ) (h : List ContainerTick)
            → IsStateOf spec max_restart_delay h self.now → IsShown spec (IsTrue is_ended_by_node) h result }
    {
        let view = self.view();
        ContainerStatus {
            state: container_state(&view),
            code: view.exit_code(),
            restarts: view.restarts(),
            ready: is_shown(self.is_ready(), is_ended_by_node),
            started: is_shown(self.is_started(), is_ended_by_node),
        }
    }

    /// Whether it serves, as an app container or a sidecar, and its newest instance is running.
    fn serves(&self) -> bool
        ensures { (spec : ContainerSpec) (h : List ContainerTick)
            → IsFollowing spec h self.now → (IsTrue result ↔ ((a : ℕ) × Serves spec h a)) }
    {
        is_up(self.role, self.differ.newest())
    }

    /// Whether it is started: it serves, and startup has passed.
    fn is_started(&self) -> bool
        ensures { (spec : ContainerSpec) (h : List ContainerTick)
            → IsFollowing spec h self.now → (IsTrue result ↔ IsStarted spec h) }
    {
        self.serves() && self.probes.started()
    }

    /// The newest instance, if it has exited and is to be started again.
    fn to_restart(&self, policy: Policy, own: Option<&OwnRestarts>) -> Option<u32>
        ensures { (spec : ContainerSpec) (h : List ContainerTick)
            → option_map (λ o. o.now) own.entry ≡ spec.own_restarts → IsFollowing spec h self.now
            → (a : ℕ) → ((result ≡ Some a) ↔ IsToRestart policy spec h a) }
    {
        to_restart(policy, own, self.role, self.differ.newest())
    }

    /// Whether the restart after the last exit falls due at this moment, and was not due at the last
    /// tick's.
    fn is_due(&self, last_at: Option<u64>, at: u64) -> bool
        ensures { (max_restart_delay : ℕ) (exits : List Exit)
            → IsBackoffOf max_restart_delay exits self.now.backoff
            → (IsTrue result ↔ ((due : ℕ) × IsRestartDue max_restart_delay exits (Some due) × (due ≤ at)
            × IfSome last_at (λ last. last < due))) }
    {
        places::falls_due(self.backoff.due(), last_at, at)
    }

    /// Whether the newest instance has exited at the moment, and is to be started again.
    fn backs_off(&self, policy: Policy, own: Option<&OwnRestarts>, at: u64) -> bool
        ensures { (spec : ContainerSpec) (h : List ContainerTick)
            → option_map (λ o. o.now) own.entry ≡ spec.own_restarts → IsFollowing spec h self.now
            → (IsTrue result ↔ ((a : ℕ) × IsToRestart policy spec h a
            × IsFirstMoment (listings h) (Ends (listings h) a) (Some at))) }
    {
        is_backed_off(self.to_restart(policy, own), self.differ.exited_at(), at)
    }

    /// Takes what the tick lists, and its results: the changes, and the verdicts of the instance
    /// that it lists while it is running.
    fn follow(&mut self, at: u64, observed: ContainerObs) -> Followed
        requires accepted { Accepts self.old observed.seen }
        requires later { IsBefore self.old at }
        ensures role { self.new.role ≡ self.old.role }
        ensures backoff { self.new.backoff ≡ self.old.backoff }
        ensures was_started { self.new.was_started ≡ self.old.was_started }
        ensures followed { (spec : ContainerSpec) (h : List ContainerTick)
            → IsFollowing spec h self.old
            → IsFollowing spec (h ++ recorded at observed ∷ []) self.new }
        ensures changes { (spec : ContainerSpec) (h : List ContainerTick)
            → IsFollowing spec h self.old
            → AreChanges (listings (h ++ recorded at observed ∷ [])) (length h) result.changes }
        ensures verdicts { (spec : ContainerSpec) (h : List ContainerTick)
            → IsFollowing spec h self.old
            → AreVerdictsOf spec h (recorded at observed) result.verdicts }
    {
        let changes = self.differ.step(at, observed.seen);
        begin(&mut self.probes, at, changes.started.is_some());
        let takes = lists_running(observed.seen, self.differ.newest());
        let verdicts = take(&mut self.probes, at, takes, observed.results);
        Followed { changes, verdicts }
    }

    /// Counts the exits of a tick at the moment, by its changes and by when the instance that was the
    /// newest before it began to run. Gives by how many seconds the restart after the last of these
    /// exits is backed off.
    fn count_exits(&mut self, start: Option<u64>, changes: &Changes, at: u64) -> Option<u64>
        requires { at < end_of_time }
        ensures role { self.new.role ≡ self.old.role }
        ensures differ { self.new.differ ≡ self.old.differ }
        ensures probes { self.new.probes ≡ self.old.probes }
        ensures was_started { self.new.was_started ≡ self.old.was_started }
        ensures counted { (max_restart_delay : ℕ) (h : List ContainerTick) (observed : ContainerObs) (exits : List Exit)
            (before : Differ)
            → IsDifferOf (listings h) before
            → IsOfNewest (listings h) (λ a. IsFirstMoment (listings h) (ListedAs (listings h) a Running)) start
            → IsDifferOf (listings (h ++ recorded at observed ∷ [])) self.old.differ
            → DifferAccepts before observed.seen
            → AreChanges (listings (h ++ recorded at observed ∷ [])) (length h) changes.now
            → AreExits (listings h) exits
            → IsBackoffOf max_restart_delay exits self.old.backoff
            → AreCounted max_restart_delay h (recorded at observed) self.new.backoff result }
    {
        let gone = run_until(changes.removed_died, start, at);
        let died = changes.died.and(self.differ.run());
        count_both(&mut self.backoff, at, gone, died)
    }

    /// A tick comes, at the moment, in seconds, before `END_OF_TIME` and later than the last tick's,
    /// with what it shows of the container: a listing that may come next, and results. The policy is that of the pod;
    /// `own` has the container's own restart policy and rules, if it has them.
    pub fn step(
        &mut self,
        policy: Policy,
        own: Option<&OwnRestarts>,
        at: u64,
        observed: ContainerObs,
    ) -> ContainerEvents
        requires accepted { Accepts self.old observed.seen }
        requires later { IsBefore self.old at }
        requires bounded { at < end_of_time }
        ensures state { (spec : ContainerSpec) (max_restart_delay : ℕ) (h : List ContainerTick)
            → IsStateOf spec max_restart_delay h self.old
            → IsStateOf spec max_restart_delay (h ++ recorded at observed ∷ []) self.new }
        ensures events { (spec : ContainerSpec) (max_restart_delay : ℕ) (h : List ContainerTick)
            → option_map (λ o. o.now) own.entry ≡ spec.own_restarts → IsStateOf spec max_restart_delay h self.old
            → AreEvents policy max_restart_delay spec (h ++ recorded at observed ∷ []) (length h) result }
    {
        let last_at = self.differ.last_at();
        let start = self.differ.first_running();
        let was_ready = self.is_ready();
        let followed = self.follow(at, observed);
        let delay = self.count_exits(start, &followed.changes, at);
        self.was_started |= self.is_started();
        let is_due = self.is_due(last_at, at);
        ContainerEvents {
            gone: places::gone(&followed.changes),
            started: places::started(&followed.changes),
            died: places::died(&followed.changes),
            passed: places::passed(observed.seen, followed.verdicts),
            kill: places::kill(observed.seen, followed.verdicts),
            readiness: places::readiness(was_ready, self.is_ready()),
            backoff: places::backoff(delay, self.backs_off(policy, own, at)),
            restart: places::restart(self.to_restart(policy, own), is_due),
        }
    }
}

/// Whether a restart follows an exit with this code, if there is one.
fn wants_after(policy: Policy, own: Option<&OwnRestarts>, role: Role, code: Option<i32>) -> bool
    ensures { (n : ℤ) → code ≡ Some n
        → (IsTrue result ↔ WantsRestartBy policy (option_map (λ o. o.now) own.entry) role n) }
{
    match code {
        Some(code) => wants_restart_by(policy, own, role, code),
        None => false,
    }
}

/// Whether a container of this role serves where its newest instance is this.
fn is_up(role: Role, seen: Option<Seen>) -> bool
    ensures { IsTrue result ↔ ((role ≡ Init → ⊥) × IsSomeAnd seen (λ s. s.state ≡ Running)) }
{
    !matches!(role, Role::Init) && is_running(seen)
}

/// Whether a fact is shown, which none is in a pod that was evicted.
fn is_shown(is_so: bool, is_ended_by_node: bool) -> bool
    ensures { IsTrue result ↔ ((IsTrue is_ended_by_node → ⊥) × IsTrue is_so) }
{
    is_so && !is_ended_by_node
}
