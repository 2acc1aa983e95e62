//! The three probes of a container, over all of its instances.

ghost use Rattle.std.specs.Prelude.{◌≡◌, ◌↔◌, ◌-◌, ℕ, List, [], ◌∷◌, ◌++◌, length, Option, Some, None, IsTrue, false};
ghost use Rattle.manifest.specs.rule.Probe.{Probes};
ghost use Rattle.probes.specs.rule.Ticks.{Tick, tick, IsStarted};
ghost use Rattle.probes.specs.rule.Container.{IsInstanceReady, IsKillOrdered};
ghost use Rattle.probes.specs.state.Container.{IsSomeKillOrdered};
ghost use Rattle.probes.specs.state.ProbeSet.{Follows, HasBegun, HasNotBegun, IsStateOf, AreVerdicts};

use crate::configured::Configured;
use crate::liveness::Liveness;
use crate::readiness::Readiness;
use crate::startup::Startup;
use manifest::{ContainerSpec, Outcome};

/// Why an instance is to be killed: which of its probes failed.
/// (Kubernetes, "Pod Lifecycle", "Types of probe".)
#[derive(Clone, Copy, Debug, PartialEq, Eq)]
pub enum Cause {
    /// The first results of the startup probe, as many as its failure threshold, all failed.
    Startup,
    /// As many results of the liveness probe in a row as its failure threshold failed.
    Liveness,
}

/// The verdicts of a tick's results on an instance.
#[derive(Clone, Copy, Debug, PartialEq, Eq)]
pub struct Verdicts {
    /// Whether the startup probe passes in this tick.
    pub passed: bool,
    /// The cause of the kill order, if it comes in this tick.
    pub kill: Option<Cause>,
    /// Whether the instance is ready after this tick.
    pub ready: bool,
}

/// Follows the probes of one container, one instance after the other. It keeps counters, and no
/// results. (Kubernetes, "Configure Liveness, Readiness and Startup Probes".)
#[derive(Clone, Copy, Debug, PartialEq, Eq)]
pub struct ProbeSet {
    start: Option<u64>,
    startup: Startup,
    liveness: Liveness,
    readiness: Readiness,
}

impl ProbeSet {
    /// Follows the probes of this container. No instance has begun, so nothing is started, ready or
    /// to be killed.
    pub fn new(container: &ContainerSpec) -> Self
        ensures follows { Follows result container.now.probes }
        ensures before { HasNotBegun result }
    {
        let probes = container.probes;
        ProbeSet {
            start: None,
            startup: Startup::new(Configured::new(probes.startup())),
            liveness: Liveness::new(Configured::new(probes.liveness())),
            readiness: Readiness::new(Configured::new(probes.readiness())),
        }
    }

    /// A new instance starts at this moment, in seconds; nothing of the one before is kept.
    pub fn begin_instance(&mut self, start: u64)
        ensures begun { HasBegun self.new }
        ensures state { (probes : Probes) → Follows self.old probes → IsStateOf probes start [] self.new }
    {
        self.start = Some(start);
        self.startup = Startup::new(self.startup.probe);
        self.liveness = Liveness::new(self.liveness.probe);
        self.readiness = Readiness::new(self.readiness.probe);
    }

    /// Whether an instance has begun.
    pub fn has_begun(&self) -> bool
        ensures { IsTrue result ↔ HasBegun self.now }
    {
        self.start.is_some()
    }

    /// Takes the results of the next tick, at this moment in seconds, in the order startup,
    /// liveness, readiness. An instance must have begun.
    pub fn take(&mut self, at: u64, results: [Option<Outcome>; 3]) -> Verdicts
        requires { HasBegun self.old }
        ensures begun { HasBegun self.new }
        ensures state { (probes : Probes) (start : ℕ) (ticks : List Tick) → IsStateOf probes start ticks self.old
            → IsStateOf probes start (ticks ++ tick at results ∷ []) self.new }
        ensures verdicts { (probes : Probes) (start : ℕ) (ticks : List Tick) → IsStateOf probes start ticks self.old
            → AreVerdicts probes start (ticks ++ tick at results ∷ []) (length ticks) result }
    {
        let [startup, liveness, readiness] = results;
        let started = self.started();
        let ordered = self.kill_ordered();
        self.follow(at, startup, liveness, readiness);
        Verdicts {
            passed: became_true(started, self.started()),
            kill: first_order(ordered, self.cause()),
            ready: self.ready(),
        }
    }

    /// Whether startup has passed; without a startup probe it has from the instance's start on.
    /// Before the first instance it has not.
    pub fn started(&self) -> bool
        ensures before { HasNotBegun self.now → result ≡ false }
        ensures state { (probes : Probes) (start : ℕ) (ticks : List Tick) → IsStateOf probes start ticks self.now
            → (IsTrue result ↔ IsStarted probes.startup start ticks) }
    {
        self.start.is_some() && self.startup.has_passed()
    }

    /// Whether startup has passed and the readiness probe, if there is one, holds. Before the first
    /// instance it is not ready.
    pub fn ready(&self) -> bool
        ensures before { HasNotBegun self.now → result ≡ false }
        ensures state { (probes : Probes) (start : ℕ) (ticks : List Tick) → IsStateOf probes start ticks self.now
            → (IsTrue result ↔ IsInstanceReady probes start ticks) }
    {
        self.started() && self.readiness.is_ready()
    }

    /// Whether the instance is to be killed. Before the first instance nothing is.
    pub fn kill_ordered(&self) -> bool
        ensures before { HasNotBegun self.now → result ≡ false }
        ensures state { (probes : Probes) (start : ℕ) (ticks : List Tick) → IsStateOf probes start ticks self.now
            → (IsTrue result ↔ IsSomeKillOrdered probes start ticks) }
    {
        self.cause().is_some()
    }

    /// Why the instance is to be killed, if it is.
    fn cause(&self) -> Option<Cause>
        ensures before { HasNotBegun self.now → result ≡ None }
        ensures state { (probes : Probes) (start : ℕ) (ticks : List Tick) → IsStateOf probes start ticks self.now
            → (cause : Cause) → ((result ≡ Some cause) ↔ IsKillOrdered probes start cause ticks) }
    {
        if self.start.is_none() {
            None
        } else if self.startup.has_failed() {
            Some(Cause::Startup)
        } else if self.liveness.has_failed() {
            Some(Cause::Liveness)
        } else {
            None
        }
    }

    /// Gives each probe its result; liveness and readiness count only if startup had passed before.
    fn follow(
        &mut self,
        at: u64,
        startup: Option<Outcome>,
        liveness: Option<Outcome>,
        readiness: Option<Outcome>,
    )
        requires { HasBegun self.old }
        ensures begun { HasBegun self.new }
        ensures state { (probes : Probes) (start : ℕ) (ticks : List Tick) (next : Tick) → next.moment ≡ at
            → next.entry.startup ≡ startup → next.entry.liveness ≡ liveness → next.entry.readiness ≡ readiness
            → IsStateOf probes start ticks self.old → IsStateOf probes start (ticks ++ next ∷ []) self.new }
    {
        let age = at.saturating_sub(self.start.unwrap());
        let counts = self.started();
        self.startup.take(age, startup);
        if counts {
            self.liveness.take(age, liveness);
            self.readiness.take(age, readiness);
        }
    }
}

/// Whether a fact comes true: it holds now and didn't before.
fn became_true(before: bool, now: bool) -> bool
    ensures { IsTrue result ↔ (IsTrue now × (IsTrue before → ⊥)) }
{
    now && !before
}

/// The cause of a kill that is ordered now; none if one was ordered before.
fn first_order(ordered: bool, cause: Option<Cause>) -> Option<Cause>
    ensures { (of : Cause) → ((result ≡ Some of) ↔ ((cause ≡ Some of) × (IsTrue ordered → ⊥))) }
{
    if ordered { None } else { cause }
}
