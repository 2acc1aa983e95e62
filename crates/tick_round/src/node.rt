//! A node, tick by tick.

ghost use Rattle.std.specs.Prelude.{◌≡◌, ◌↔◌, ◌<◌, ◌≤◌, ◌++◌, ◌∷◌, []};
ghost use Rattle.std.specs.Prelude.{List, length, map, None, IsTrue, IfOk, IfErr, OnOk, OnErr, IsErrOf};
ghost use Rattle.manifest.specs.declared.pod.PodSpec.{PodSpec};
ghost use Rattle.node_config.specs.declared.node.NodeConfig.{NodeConfig};
ghost use Rattle.observations.specs.declared.tick.TickObs.{TickObs};
ghost use Rattle.observations.specs.rule.Observations.{all_shown};
ghost use Rattle.observations.specs.rule.Limits.{most_pods};
ghost use Rattle.totals.specs.state.Totals.{nothing};
ghost use Rattle.worker_count.specs.rule.Limit.{most_workers};
ghost use Rattle.tick_round.specs.declared.fault.TickFault.TheVariants.{Halted};
ghost use Rattle.tick_round.specs.state.Node.{IsAfter, MayTake, MayTakeAll, HasRoom, TakesTick, TakesTicks};
ghost use Rattle.tick_round.specs.state.Node.{GatesUpdates};
ghost use Rattle.round_updates.specs.state.Played.{AreFinished};
ghost use Rattle.node_rounds.specs.state.Summary.{IsSummary};

use crate::advance::{advance, advance_all, advance_alone, advance_played};
use crate::fault::TickFault;
use event_book::WholeBook;
use manifest::PodSpec;
use node_config::NodeConfig;
use node_rounds::{Running, Summary};
use observations::TickObs;
use pod_piece::Gate;
use pod_pool::Spawner;
use round_steps::Step;
use std::alloc::{AllocError, Global};
use std::marker::Model;
use std::sync::ledger::Ledger;

/// A node with its pods. After a tick in which an allocation failed it is halted: it takes no further tick and has no
/// report. (Kubernetes, "Node-pressure Eviction".)
#[derive(Drop)]
pub struct Node<U: Ledger, E: Ledger, O: Ledger> {
    running: Option<Running<U, E, O>>,
}

impl<U: Ledger, E: Ledger, O: Ledger> Model for Node<U, E, O> {
    ghost use Rattle.std.specs.Prelude.{Option};
    ghost use Rattle.node_rounds.specs.state.Node.{State};

    ghost Value = { Option State };

    ghost view = { λ n. n.running };
}

impl<U: Ledger, E: Ledger, O: Ledger> Node<U, E, O> {
    /// A node with these pods, at most 256, numbered in their order, and with an empty book, before any tick. Returns
    /// `Err` if an allocation fails; the pods are then dropped.
    pub fn new(
        alloc: Global,
        config: NodeConfig,
        pods: Vec<PodSpec>,
        book: WholeBook<U, E, O>,
    ) -> Result<Node<U, E, O>, AllocError>
        requires empty { book ≡ nothing }
        requires few { length pods.items ≤ most_pods }
        ensures { IfOk result (IsAfter config pods.items []) }
    {
        let mut running = Running::new(alloc, config, book);
        match running.arrive_all(pods) {
            Ok(()) => Ok(Node {
                running: Some(running),
            }),
            Err(fault) => {
                drop(running);
                Err(fault)
            }
        }
    }

    /// Adds a pod, with the next number, if there are fewer than 256: it is present from the next tick on. Returns
    /// `Err` if an allocation fails or the node is halted; the node is then as it was.
    pub fn arrive(&mut self, pod: PodSpec) -> Result<(), TickFault>
        requires { HasRoom self.old }
        ensures arrived { (config : NodeConfig) (pods : List PodSpec) (ticks : List TickObs)
            → IsAfter config pods ticks self.old
            → OnOk result (IsAfter config (pods ++ pod ∷ []) ticks self.new) }
        ensures err { OnErr result (self.new ≡ self.old) }
        ensures halted { IsErrOf result Halted ↔ (self.old ≡ None) }
    {
        match &mut self.running {
            Some(running) => match running.arrive(pod) {
                Ok(()) => Ok(()),
                Err(_) => Err(TickFault::OutOfMemory),
            },
            None => Err(TickFault::Halted),
        }
    }

    /// Whether the tick may come next: fewer than 20,000 were taken, it is later than the last and below 2^40, and it
    /// shows each pod with a listing of each container that may come after all earlier ones, or shows, in version 3,
    /// that the pod is not present. True for a halted node. Doesn't allocate.
    pub fn fits(&self, tick: &TickObs) -> bool
        ensures { IsTrue result ↔ MayTake self.now tick.now }
    {
        match &self.running {
            Some(running) => running.fits(tick),
            None => true,
        }
    }

    /// Takes one tick, on one thread: each pod that is present takes what the tick shows of it, then at most one of
    /// them is evicted. A pod that is not present stays as it is. Returns `Err` if an allocation fails or the node was
    /// halted; it is halted then.
    pub fn tick_alone(&mut self, tick: TickObs) -> Result<(), TickFault>
        requires { MayTake self.old tick }
        ensures taken { TakesTick tick self.old self.new result }
        ensures err { OnErr result (self.new ≡ None) }
        ensures halted { IsErrOf result Halted ↔ (self.old ≡ None) }
    {
        match self.running.take() {
            Some(running) => match advance_alone(running, tick) {
                Ok(next) => {
                    drop(self.running.replace(next));
                    Ok(())
                }
                Err(_) => Err(TickFault::OutOfMemory),
            },
            None => Err(TickFault::Halted),
        }
    }

    /// Takes one tick, with the round simulated on one thread: this many workers, 1 to 64, update the pods by these
    /// steps, then each finishes what it has. A step that is not possible is skipped. Returns for each worker the
    /// places, among the pods that are present, of the pods that it finished. The node is as after `tick_alone`,
    /// whatever the steps are. Returns `Err` if an allocation fails or the node was halted; it is halted then.
    pub fn tick_play(
        &mut self,
        tick: TickObs,
        workers: usize,
        steps: &[Step],
    ) -> Result<Vec<Vec<usize>>, TickFault>
        requires fits { MayTake self.old tick }
        requires some { 0 < workers }
        requires most { workers ≤ most_workers }
        ensures taken { TakesTick tick self.old self.new result }
        ensures finished { IfOk result (λ lists.
            AreFinished (length (all_shown tick)) workers steps.now (map (λ list. list.items) lists.items)) }
        ensures err { OnErr result (self.new ≡ None) }
        ensures halted { IsErrOf result Halted ↔ (self.old ≡ None) }
    {
        match self.running.take() {
            Some(running) => match advance_played(running, tick, workers, steps) {
                Ok((next, finished)) => {
                    drop(self.running.replace(next));
                    Ok(finished)
                }
                Err(_) => Err(TickFault::OutOfMemory),
            },
            None => Err(TickFault::Halted),
        }
    }

    /// What the node has come to, as its ticks leave it. Returns `Err` if the node is halted. Doesn't allocate.
    pub fn summary(&self) -> Result<Summary<'_>, TickFault>
        ensures taken { (config : NodeConfig) (pods : List PodSpec) (ticks : List TickObs)
            → IsAfter config pods ticks self.now → IfOk result (IsSummary config pods ticks) }
        ensures halted { IsErrOf result Halted ↔ (self.now ≡ None) }
        ensures err { IfErr result (λ fault. fault ≡ Halted) }
    {
        match &self.running {
            Some(running) => Ok(running.summary()),
            None => Err(TickFault::Halted),
        }
    }
}

impl<U: Ledger + Send, E: Ledger + Send, O: Ledger + Send> Node<U, E, O> {
    /// Takes one tick, whose pods this many workers, 1 to 64, update in threads of their own: each pod that is present
    /// takes what the tick shows of it, by an update of the gate, then at most one of them is evicted. The node is as
    /// after `tick_alone`, whatever the threads do. Returns `Err` if an allocation fails or the node was halted; it is
    /// halted then.
    pub fn tick<R: Spawner, G: Gate>(
        &mut self,
        rt: &R,
        tick: TickObs,
        workers: usize,
        gate: &G,
    ) -> Result<(), TickFault>
        requires fits { MayTake self.old tick }
        requires some { 0 < workers }
        requires most { workers ≤ most_workers }
        ensures taken { TakesTick tick self.old self.new result }
        ensures gated { GatesUpdates (G.left gate.now) (tick ∷ []) self.old result }
        ensures err { OnErr result (self.new ≡ None) }
        ensures halted { IsErrOf result Halted ↔ (self.old ≡ None) }
    {
        match self.running.take() {
            Some(running) => match advance(running, rt, tick, workers, gate) {
                Ok(next) => {
                    drop(self.running.replace(next));
                    Ok(())
                }
                Err(_) => Err(TickFault::OutOfMemory),
            },
            None => Err(TickFault::Halted),
        }
    }

    /// Takes ticks one after the other, as `tick` takes each. From one tick in which the node acts on an eviction
    /// threshold to the next one a pod depends on no other, so that the workers update it by all these ticks at once: a
    /// round is the ticks up to the next in which the node acts on a threshold, or until so many updates wait. The gate
    /// makes each update. The ticks may show fewer pods than have arrived; the others are not present. Returns `Err` if
    /// an allocation fails or the node was halted; it is halted then.
    pub fn ticks<R: Spawner, G: Gate>(
        &mut self,
        rt: &R,
        ticks: Vec<TickObs>,
        workers: usize,
        gate: &G,
    ) -> Result<(), TickFault>
        requires fits { MayTakeAll self.old ticks.items }
        requires some { 0 < workers }
        requires most { workers ≤ most_workers }
        ensures taken { TakesTicks ticks.items self.old self.new result }
        ensures gated { GatesUpdates (G.left gate.now) ticks.items self.old result }
        ensures err { OnErr result (self.new ≡ None) }
        ensures halted { IsErrOf result Halted ↔ (self.old ≡ None) }
    {
        match self.running.take() {
            Some(running) => match advance_all(running, rt, ticks, workers, gate) {
                Ok(next) => {
                    drop(self.running.replace(next));
                    Ok(())
                }
                Err(_) => Err(TickFault::OutOfMemory),
            },
            None => Err(TickFault::Halted),
        }
    }
}
