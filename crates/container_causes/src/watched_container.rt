//! A container with what the causes of its events need of the past.

ghost use Rattle.std.specs.Prelude.{◌≡◌, ◌≢◌, ◌<◌, ℕ, ℤ, List, [], ◌∷◌, ◌++◌, length, Some, option_map, IsSome};
ghost use Rattle.std.specs.Prelude.{IsSomeAnd, IfOk};
ghost use Rattle.quantity.specs.rule.Duration.{end_of_time};
ghost use Rattle.histories.specs.rule.Histories.{recorded, IsFirstMoment};
ghost use Rattle.manifest.specs.declared.pod.ContainerSpec.{ContainerSpec as AContainerSpec};
ghost use Rattle.manifest.specs.declared.pod.Role.TheVariants.{Init};
ghost use Rattle.state_diff.specs.declared.seen.CriState.TheVariants.{Running};
ghost use Rattle.state_diff.specs.rule.Instances.{ListedAs, IsNewest, IsExit, IsExitCode, killed_code};
ghost use Rattle.containers.specs.declared.pod_event_kind.PodEventKind.TheVariants.{Kill, StartupPassed, Ready};
ghost use Rattle.containers.specs.declared.pod_event_kind.PodEventKind.TheVariants.{Unready};
ghost use Rattle.containers.specs.declared.pod_event_kind.PodEventKind.TheVariants.{Died, Started};
ghost use Rattle.containers.specs.rule.Ticks.{ContainerTick, listings, StartsAt};
ghost use Rattle.containers.specs.rule.Events.{AreEvents, IsKilled, Passes, ChangesReadiness};
ghost use Rattle.containers.specs.rule.Events.{IsGone, HasStarted, HasDied};
ghost use Rattle.containers.specs.state.Container.{Accepts, IsBefore};
ghost use Rattle.container_causes.specs.rule.Exits.{IsLastExit, IsCounted};
ghost use Rattle.container_causes.specs.rule.Lacking.{IsLacking};
ghost use Rattle.container_causes.specs.rule.Listings.{IsUnlisted, IsListed, IsExited};
ghost use Rattle.container_causes.specs.rule.Results.{AreKillFailures, AreReadySuccesses, AreUnreadyFailures};
ghost use Rattle.container_causes.specs.rule.Results.{IsStartupSuccess, IsPassMoment};
ghost use Rattle.container_causes.specs.state.Watched.{IsWatchedOf, RunsOn};

use crate::exits::{LastExit, count_exits, last_exit_of};
use crate::instance_results::{InstanceResults, begin, take_results, takes_results};
use crate::lacking::{Lacking, lacks_probe, lacks_start};
use crate::listing_causes::{
    Exited, KeptTick, Listed, Unlisted, listing_of, moment_of, run_of, unlisted_by,
};
use crate::looked_up::{
    kill_failures_of, pass_moment_of, ready_successes_of, startup_count_of, unready_failures_of,
};
use containers::{Container, ContainerEvents};
use manifest::{ContainerSpec, MaxRestartDelay, OwnRestarts, Policy, Probes};
use observations::ContainerObs;
use probes::Cause;
use restart_causes::ExitCount;
use std::alloc::{AllocError, Global};

/// A container, as its ticks so far leave it, with the moments of its newest instance's results.
#[derive(Drop)]
pub struct WatchedContainer {
    alloc: Global,
    probes: Probes,
    container: Container,
    instance: Option<InstanceResults>,
    count: Option<ExitCount>,
    before: Option<KeptTick>,
    last: Option<KeptTick>,
}

impl WatchedContainer {
    /// A container that no tick has shown yet, on a node with this maximum restart delay.
    pub fn new(alloc: Global, spec: &ContainerSpec, max_restart_delay: MaxRestartDelay) -> Self
        ensures { IsWatchedOf spec.now max_restart_delay [] result }
    {
        WatchedContainer {
            alloc,
            probes: spec.probes,
            container: Container::new(spec, max_restart_delay),
            instance: None,
            count: None,
            before: None,
            last: None,
        }
    }

    /// Takes the next tick, as `Container::step` does, and answers its events. After an error the container takes no
    /// further tick.
    pub fn step(
        &mut self,
        policy: Policy,
        own: Option<&OwnRestarts>,
        at: u64,
        observed: ContainerObs,
    ) -> Result<ContainerEvents, AllocError>
        requires accepted { Accepts self.old.container observed.seen }
        requires later { IsBefore self.old.container at }
        requires bounded { at < end_of_time }
        ensures state { IfOk result (λ events. (spec : AContainerSpec) (max_restart_delay : ℕ) (h : List ContainerTick)
            → option_map (λ o. o.now) own.entry ≡ spec.own_restarts
            → IsWatchedOf spec max_restart_delay h self.old
            → IsWatchedOf spec max_restart_delay (h ++ recorded at observed ∷ []) self.new) }
        ensures events { IfOk result (λ events. (spec : AContainerSpec) (max_restart_delay : ℕ)
            (h : List ContainerTick)
            → option_map (λ o. o.now) own.entry ≡ spec.own_restarts
            → IsWatchedOf spec max_restart_delay h self.old
            → AreEvents policy max_restart_delay spec (h ++ recorded at observed ∷ []) (length h) events) }
    {
        let start = self.container.differ().first_running();
        let events = self.container.step(policy, own, at, observed);
        let differ = self.container.differ();
        self.count = count_exits(
            self.count,
            events.gone,
            start,
            events.died,
            differ.run(),
            at,
        );
        let takes = takes_results(observed.seen, differ.newest());
        begin(
            &mut self.instance,
            self.alloc,
            self.probes,
            events.started,
            at,
        );
        take_results(
            &mut self.instance,
            events.passed,
            takes,
            at,
            observed.results,
        )?;
        self.before = self.last;
        self.last = Some(KeptTick {
            at,
            seen: observed.seen,
        });
        Ok(events)
    }

    /// The moments of the failures for which the newest instance is to be killed, where the tick that was taken last
    /// has that event.
    pub fn kill_failures(&self, cause: Cause) -> Result<Vec<u64>, AllocError>
        ensures { (spec : AContainerSpec) (max_restart_delay : ℕ) (h : List ContainerTick) (x : ContainerTick) (a : ℕ)
            → IsWatchedOf spec max_restart_delay (h ++ x ∷ []) self.now
            → IsKilled spec (h ++ x ∷ []) (length h) (Kill a cause)
            → IfOk result (λ found. AreKillFailures spec cause a (h ++ x ∷ []) found.items) }
    {
        kill_failures_of(&self.instance, self.alloc, cause)
    }

    /// The moments of the successes that made the container ready, where the tick that was taken last has that event,
    /// and the container a readiness probe.
    pub fn ready_successes(&self) -> Result<Vec<u64>, AllocError>
        ensures { (spec : AContainerSpec) (max_restart_delay : ℕ) (h : List ContainerTick) (x : ContainerTick)
            (before : WatchedContainer) → IsWatchedOf spec max_restart_delay h before
            → Accepts before.container x.entry.seen → IsWatchedOf spec max_restart_delay (h ++ x ∷ []) self.now
            → ChangesReadiness spec (h ++ x ∷ []) (length h) Ready → IsSome spec.probes.readiness
            → IfOk result (λ found. (a : ℕ) × IsNewest (listings (h ++ x ∷ [])) a
            × AreReadySuccesses spec a (h ++ x ∷ []) found.items) }
    {
        ready_successes_of(&self.instance, self.alloc)
    }

    /// The moments of the failures that made the container unready, where the tick that was taken last has that event,
    /// and the instance that was ready did not exit.
    pub fn unready_failures(&self) -> Result<Vec<u64>, AllocError>
        ensures { (spec : AContainerSpec) (max_restart_delay : ℕ) (h : List ContainerTick) (x : ContainerTick)
            (before : WatchedContainer) (a : ℕ) → IsWatchedOf spec max_restart_delay h before
            → Accepts before.container x.entry.seen → IsWatchedOf spec max_restart_delay (h ++ x ∷ []) self.now
            → ChangesReadiness spec (h ++ x ∷ []) (length h) Unready → IsNewest (listings h) a
            → ((t : ℕ) → IsExit (listings (h ++ x ∷ [])) a t → ⊥)
            → IfOk result (λ found. AreUnreadyFailures spec a (h ++ x ∷ []) found.items) }
    {
        unready_failures_of(&self.instance, self.alloc)
    }

    /// The number of the success by which the startup probe of the newest instance passed, counted from 1, where the
    /// tick that was taken last has that event.
    pub fn startup_success(&self) -> usize
        ensures { (spec : AContainerSpec) (max_restart_delay : ℕ) (h : List ContainerTick) (x : ContainerTick) (a : ℕ)
            → IsWatchedOf spec max_restart_delay (h ++ x ∷ []) self.now
            → Passes spec (h ++ x ∷ []) (length h) (StartupPassed a)
            → IsStartupSuccess spec a (h ++ x ∷ []) result }
    {
        startup_count_of(&self.instance)
    }

    /// The moment, in seconds, of the start of the newest instance; none if it has not started.
    pub fn start(&self) -> Option<u64>
        ensures { (spec : AContainerSpec) (max_restart_delay : ℕ) (h : List ContainerTick) (a : ℕ)
            → IsWatchedOf spec max_restart_delay h self.now → IsNewest (listings h) a
            → IsFirstMoment (listings h) (ListedAs (listings h) a Running) result }
    {
        self.container.differ().first_running()
    }

    /// The moment, in seconds, in which startup of the newest instance passed, where it has started; none while it has
    /// not passed, and none without a startup probe.
    pub fn pass_moment(&self) -> Option<u64>
        ensures { (spec : AContainerSpec) (max_restart_delay : ℕ) (h : List ContainerTick) (a start : ℕ)
            → IsWatchedOf spec max_restart_delay h self.now → IsNewest (listings h) a → StartsAt h a start
            → IsPassMoment spec a h result }
    {
        pass_moment_of(&self.instance)
    }

    /// What the newest instance lacks to be ready, in a container that is no init container.
    pub fn lacks(&self) -> Lacking
        ensures { (spec : AContainerSpec) (max_restart_delay : ℕ) (h : List ContainerTick) (a : ℕ)
            → IsWatchedOf spec max_restart_delay h self.now → spec.role ≢ Init → IsNewest (listings h) a
            → IsLacking spec h a result }
    {
        let differ = self.container.differ();
        let exited_at = differ.exited_at();
        let status = self.container.status(false);
        Lacking {
            start: lacks_start(exited_at, differ.first_running()),
            startup: lacks_probe(exited_at, self.probes.startup(), status.started),
            readiness: lacks_probe(exited_at, self.probes.readiness(), status.ready),
        }
    }

    /// The exit of the newest instance, where it has exited.
    pub fn last_exit(&self) -> Option<LastExit>
        ensures { (spec : AContainerSpec) (max_restart_delay : ℕ) (h : List ContainerTick) (a : ℕ) (code : ℤ)
            → IsWatchedOf spec max_restart_delay h self.now
            → IsNewest (listings h) a → IsExitCode (listings h) a code
            → IsSomeAnd result (λ cause. (cause.attempt ≡ a) × IsLastExit h cause) }
    {
        let differ = self.container.differ();
        last_exit_of(differ.newest(), differ.exited_at())
    }

    /// Which exits count towards the delay after the last one, where there is one.
    pub fn exit_count(&self) -> Option<ExitCount>
        ensures { (spec : AContainerSpec) (max_restart_delay : ℕ) (h : List ContainerTick) (a t : ℕ)
            → IsWatchedOf spec max_restart_delay h self.now → IsExit (listings h) a t
            → IsSomeAnd result (IsCounted h) }
    {
        self.count
    }

    /// Why an instance died that the tick that was taken last no longer lists, where it has that event.
    pub fn unlisted(&self) -> Option<Unlisted>
        ensures { (spec : AContainerSpec) (max_restart_delay : ℕ) (h : List ContainerTick) (x : ContainerTick) (a : ℕ)
            → IsWatchedOf spec max_restart_delay (h ++ x ∷ []) self.now
            → IsGone (h ++ x ∷ []) (length h) (Died a killed_code)
            → IsSomeAnd result (λ cause. (cause.attempt ≡ a) × IsUnlisted h x cause) }
    {
        unlisted_by(self.before, self.last)
    }

    /// Why this instance started, where the tick that was taken last has that event.
    pub fn listed(&self, attempt: u32) -> Listed
        ensures { (spec : AContainerSpec) (max_restart_delay : ℕ) (h : List ContainerTick) (x : ContainerTick)
            → IsWatchedOf spec max_restart_delay (h ++ x ∷ []) self.now
            → HasStarted (h ++ x ∷ []) (length h) (Started attempt) → IsListed h x result }
    {
        Listed {
            attempt,
            before: moment_of(self.before),
            was: listing_of(self.before),
        }
    }

    /// Why this instance died, where the tick that was taken last has that event and lists it.
    pub fn exited(&self, attempt: u32) -> Exited
        ensures { (spec : AContainerSpec) (max_restart_delay : ℕ) (h : List ContainerTick) (x : ContainerTick)
            (code : ℤ) → IsWatchedOf spec max_restart_delay (h ++ x ∷ []) self.now
            → HasDied (h ++ x ∷ []) (length h) (Died attempt code) → IsExited h x code result }
    {
        let differ = self.container.differ();
        Exited {
            attempt,
            start: differ.first_running(),
            run: run_of(differ.run()),
        }
    }
}
