//! A node that is not halted.
//!
//! Where a function that owns the node drops it, it says so by `drop`: what goes out of scope by itself costs
//! its proof several times as much.

ghost use Rattle.std.specs.Prelude.{◌≡◌, ◌↔◌, ◌<◌, ◌≤◌, ◌++◌, ◌∷◌, []};
ghost use Rattle.std.specs.Prelude.{List, length, is_some, IsTrue, IfOk, OnOk, OnErr};
ghost use Rattle.std.specs.List.{list_all};
ghost use Rattle.manifest.specs.declared.pod.PodSpec.{PodSpec};
ghost use Rattle.node_config.specs.declared.node.NodeConfig.{NodeConfig};
ghost use Rattle.observations.specs.declared.tick.TickObs.{TickObs};
ghost use Rattle.observations.specs.rule.Limits.{most_pods};
ghost use Rattle.totals.specs.state.Totals.{nothing};
ghost use Rattle.node_pods.specs.state.Pods.{AreNext};
ghost use Rattle.node_rounds.specs.state.Node.{HasTaken, Fits, FitAll, IsWhole};
ghost use Rattle.node_rounds.specs.state.Round.{IsKept};
ghost use Rattle.node_rounds.specs.state.Stretch.{IsOpen, IsOut, AreOut};
ghost use Rattle.node_rounds.specs.state.Summary.{IsSummary};

use crate::stretch::{Begun, Round, Stretch};
use crate::summary::{Summary, conditions_of};
use event_book::WholeBook;
use event_list::Event;
use eviction::Evictions;
use histories::is_before;
use manifest::PodSpec;
use node_config::{NodeConfig, Version};
use node_pods::NodePods;
use node_signals::NodeSignals;
use observations::{MOST_TICKS, PodObs, TickObs};
use pod_piece::PodPiece;
use quantity::END_OF_TIME;
use std::alloc::{AllocError, Global};
use std::marker::Model;
use std::sync::ledger::Ledger;
use std::vec::IntoIter;

/// A node that is not halted. Its type keeps that all in it is the state of the ticks that it took.
#[derive(Drop)]
pub struct Running<U: Ledger, E: Ledger, O: Ledger> {
    pub(crate) alloc: Global,
    pub(crate) config: NodeConfig,
    pub(crate) signals: NodeSignals,
    pub(crate) pods: NodePods,
    pub(crate) evictions: Evictions,
    pub(crate) events: Vec<Event>,
    pub(crate) book: WholeBook<U, E, O>,
    pub(crate) last: Option<u64>,
}

impl<U: Ledger, E: Ledger, O: Ledger> Model for Running<U, E, O> {
    ghost use Rattle.node_rounds.specs.state.Node.{State, state};
    ghost use Rattle.node_rounds.specs.state.Round.{IsKept};

    ghost Value = { State };

    ghost view = { λ r. state r.config r.signals r.pods r.evictions r.events.items r.book r.last };

    ghost invariant = { λ r. IsKept (state r.config r.signals r.pods r.evictions r.events.items r.book r.last) };
}

impl<U: Ledger, E: Ledger, O: Ledger> Running<U, E, O> {
    /// A node without pods and ticks, with an empty book. Doesn't allocate.
    pub fn new(alloc: Global, config: NodeConfig, book: WholeBook<U, E, O>) -> Running<U, E, O>
        requires { book ≡ nothing }
        ensures config { result.config ≡ config }
        ensures taken { HasTaken [] [] result }
    {
        let signals = NodeSignals::new(
            &config.eviction,
            config.eviction_pressure_transition_period,
        );
        let pods = NodePods::new(
            alloc,
            config.max_restart_delay,
            config.has_dedicated_imagefs,
        );
        Running {
            alloc,
            config,
            signals,
            pods,
            evictions: Evictions::new(alloc),
            events: Vec::new(alloc),
            book,
            last: None,
        }
    }

    /// What gives the node its memory.
    pub fn alloc(&self) -> Global {
        self.alloc
    }

    /// A pod arrives: it is present from the next tick on. An `Err` changes nothing.
    pub fn arrive(&mut self, pod: PodSpec) -> Result<(), AllocError>
        requires { length self.old.pods.pieces < most_pods }
        ensures config { self.new.config ≡ self.old.config }
        ensures taken { (pods : List PodSpec) (ticks : List TickObs) → HasTaken pods ticks self.old
            → OnOk result (HasTaken (pods ++ pod ∷ []) ticks self.new) }
        ensures err { OnErr result (self.new ≡ self.old) }
    {
        // For the proof alone: a pod has at most 16 containers, and so few events in a tick.
        let _containers = pod.containers.as_slice();
        self.pods.arrive(pod)?;
        Ok(())
    }

    /// Pods arrive at a node without pods and ticks, at most 256, numbered in their order.
    pub fn arrive_all(&mut self, pods: Vec<PodSpec>) -> Result<(), AllocError>
        requires new { HasTaken [] [] self.old }
        requires few { length pods.items ≤ most_pods }
        ensures config { self.new.config ≡ self.old.config }
        ensures taken { OnOk result (HasTaken pods.items [] self.new) }
    {
        for pod in pods {
            self.arrive(pod)?;
        }
        Ok(())
    }

    /// Whether the tick may come next. Doesn't allocate.
    pub fn fits(&self, tick: &TickObs) -> bool
        ensures { IsTrue result ↔ Fits self.now tick.now }
    {
        self.evictions.len() < MOST_TICKS
            && is_before(self.last, tick.at)
            && tick.at < END_OF_TIME
            && is_whole(self.config.version, tick)
            && self.pods.fits(tick)
    }

    /// Begins a round with a tick: takes its samples, and gives each pod that is present what the tick shows of it. The
    /// book goes out. Drops the node if an allocation fails.
    fn begin(self, tick: TickObs) -> Result<(Stretch, WholeBook<U, E, O>), AllocError>
        requires { AreNext self.pods.pieces tick.pods }
        ensures kept { IfOk result (λ r. IsKept self) }
        ensures is_open { IfOk result (λ r. IsOpen self [] tick r.0) }
        ensures book { IfOk result (λ r. r.1 ≡ self.totals) }
    {
        let Running {
            alloc,
            config,
            signals,
            pods,
            evictions,
            events,
            book,
            last: _,
        } = self;
        let mut stretch = Stretch {
            begun: Begun {
                alloc,
                config,
                signals,
                evictions,
                events,
                ticks: Vec::new(alloc),
                heeded: None,
                at: 0,
            },
            pods: pods.open(),
            waiting: 0,
        };
        match stretch.take_tick(tick) {
            Ok(()) => Ok((stretch, book)),
            Err(fault) => {
                drop((stretch, book));
                Err(fault)
            }
        }
    }

    /// Begins a round of one tick, and sends the pieces of the pods that are present out for their updates, with the
    /// book and the rest of the node. Drops the node if an allocation fails.
    pub fn begin_one(
        self,
        tick: TickObs,
    ) -> Result<(Vec<PodPiece>, WholeBook<U, E, O>, Round), AllocError>
        requires { Fits self tick }
        ensures { IfOk result (λ r. IsOut self [] tick r.0.items r.1 r.2) }
    {
        let (stretch, book) = self.begin(tick)?;
        match stretch.send() {
            Ok((pieces, round)) => Ok((pieces, book, round)),
            Err(fault) => {
                drop(book);
                Err(fault)
            }
        }
    }

    /// Begins a round with this tick and as many more as it takes, and sends the pieces of the pods that they show out
    /// for their updates, with the book and the rest of the node. Drops the node if an allocation fails.
    pub fn begin_some(
        self,
        tick: TickObs,
        more: &mut IntoIter<TickObs>,
    ) -> Result<(Vec<PodPiece>, WholeBook<U, E, O>, Round), AllocError>
        requires { FitAll self (tick ∷ more.old.rest.items) }
        ensures { IfOk result (λ r.
            AreOut self (tick ∷ more.old.rest.items) r.0.items r.1 r.2 more.new.rest.items) }
    {
        let (mut stretch, book) = self.begin(tick)?;
        if let Err(fault) = stretch.go_on(more) {
            drop((stretch, book));
            return Err(fault);
        }
        match stretch.send() {
            Ok((pieces, round)) => Ok((pieces, book, round)),
            Err(fault) => {
                drop(book);
                Err(fault)
            }
        }
    }

    /// What the node has come to. Doesn't allocate.
    pub fn summary(&self) -> Summary<'_>
        ensures { (config : NodeConfig) (pods : List PodSpec) (ticks : List TickObs) → self.now.config ≡ config
            → HasTaken pods ticks self.now → IsSummary config pods ticks result }
    {
        Summary {
            name: self.config.name.as_str(),
            pods: self.pods.pieces(),
            conditions: conditions_of(&self.signals),
            events: &self.events,
            evictions: self.evictions.as_slice(),
            ticks: self.evictions.len(),
            totals: self.book.totals(),
        }
    }
}

/// Whether something is shown of each pod.
fn shows_all(pods: &[Option<PodObs>]) -> bool
    ensures { result ≡ list_all is_some pods.now }
{
    pods.iter().all(|pod| pod.is_some())
}

/// Whether each pod that has arrived is shown, or the version lets a tick leave one out.
fn is_whole(version: Version, tick: &TickObs) -> bool
    ensures { IsTrue result ↔ IsWhole version tick.now }
{
    match version {
        Version::One | Version::Two => shows_all(tick.pods.as_slice()),
        Version::Three => true,
    }
}
