//! A node in the midst of a round, of one tick or of several.

ghost use Rattle.std.specs.Prelude.{◌≡◌, ◌↔◌, ◌∷◌, ◌++◌, [], List, map, None, IsTrue, IfOk, OnOk, OnErr};
ghost use Rattle.std.specs.Option.{option_or};
ghost use Rattle.observations.specs.declared.tick.TickObs.{TickObs as ATick};
ghost use Rattle.eviction.specs.rule.Replay.{unless_recorded};
ghost use Rattle.eviction.specs.state.Pausing.{kept};
ghost use Rattle.event_list.specs.rule.Events.{of_choice};
ghost use Rattle.pod_piece.specs.state.Piece.{all_updated};
ghost use Rattle.node_pods.specs.state.Pods.{AreNext, AreNumbered, sent_from, staying, awaited, joined};
ghost use Rattle.node_rounds.specs.state.Node.{State, IsNextBy};
ghost use Rattle.node_rounds.specs.state.Stretch.{IsOpen, MayGoOn, GoesOnWith, Takes, IsPassed, CanClose, MayClose};
ghost use Rattle.node_rounds.specs.state.Stretch.{CanEnd, MayEnd, HasRoom, IsRefusedIn};

use crate::evict::{carry_out, choice_for};
use crate::running::Running;
use event_book::WholeBook;
use event_list::{Event, TickEvents, add_choice, add_events};
use eviction::{Eviction, Evictions, unless_recorded};
use node_config::NodeConfig;
use node_pods::{AwaitedPods, OpenPods};
use node_signals::{NodeSignals, ThresholdKey};
use observations::{PodObs, TickObs};
use pod_piece::PodPiece;
use std::alloc::{AllocError, Global};
use std::sync::ledger::Ledger;
use std::vec::IntoIter;

/// A round takes no further tick once so many updates wait: by then its threads have cost little in comparison with
/// them, and what waits takes little memory.
const MOST_WAITING: usize = 32_768;

/// What a node that has begun a round keeps in addition to its pods and its book.
#[derive(Drop)]
pub(crate) struct Begun {
    pub(crate) alloc: Global,
    pub(crate) config: NodeConfig,
    pub(crate) signals: NodeSignals,
    pub(crate) evictions: Evictions,
    pub(crate) events: Vec<Event>,
    pub(crate) ticks: Vec<TickEvents>,
    pub(crate) heeded: Option<ThresholdKey>,
    pub(crate) at: u64,
}

/// A node that takes ticks into a round. It acts on no threshold in each tick except the last, so that it evicts nobody
/// by it, and what becomes of a pod depends on its own ticks alone.
#[derive(Drop)]
pub(crate) struct Stretch {
    pub(crate) begun: Begun,
    pub(crate) pods: OpenPods,
    pub(crate) waiting: usize,
}

/// A node whose pods are out for the updates of a round.
#[derive(Drop)]
pub struct Round {
    pub(crate) begun: Begun,
    pub(crate) pods: AwaitedPods,
    pub(crate) waiting: usize,
}

/// How many pods are present.
fn count_present(pods: &[Option<PodObs>]) -> usize {
    let mut count = 0;
    for pod in pods {
        if pod.is_some() {
            count += 1;
        }
    }
    count
}

impl Stretch {
    /// Takes the samples of a tick, and gives each pod that is present what the tick shows of it.
    pub(crate) fn take_tick(&mut self, tick: TickObs) -> Result<(), AllocError>
        requires { AreNext self.old.pods.pieces tick.pods }
        ensures { OnOk result (Takes tick self.old self.new) }
    {
        let begun = &mut self.begun;
        let node_events = begun
            .signals
            .take(begun.alloc, &begun.config.eviction, &tick)?;
        let served = begun.signals.served(&begun.config.eviction, &tick);
        begun.evictions.look(&begun.config, &tick);
        begun.heeded = begun
            .evictions
            .unless_paused(&begun.config, tick.at, served);
        begun.at = tick.at;
        begun.ticks.push(TickEvents {
            at: tick.at,
            node_events,
        })?;
        self.waiting = self
            .waiting
            .saturating_add(count_present(tick.pods.as_slice()));
        self.pods.hand(tick.pods.into_vec())
    }

    /// The last tick evicts nobody, as the node acts on no threshold in it: another one may come.
    fn evict_nobody(&mut self) -> Result<(), AllocError>
        ensures { OnOk result (IsPassed self.old self.new) }
    {
        self.begun.evictions.push(None)
    }

    /// Whether another tick may come: the node acts on no threshold in the last one, and not so many updates wait yet.
    fn has_room(&self) -> bool
        ensures { IsTrue result ↔ HasRoom self.now }
    {
        // Whether the node acts on a threshold depends on no pod, so up to then none depends on another.
        // (docs/decisions/rounds.md)
        self.begun.heeded.is_none() && self.waiting < MOST_WAITING
    }

    /// Takes more ticks, up to the next in which the node acts on a threshold, or until so many updates wait. Returns
    /// `Err` if an allocation fails for a tick for which there was room.
    pub(crate) fn go_on(&mut self, more: &mut IntoIter<TickObs>) -> Result<(), AllocError>
        requires { MayGoOn self.old more.old.rest.items }
        ensures goes { (s : State) (calm : List ATick) (tick : ATick) → IsOpen s calm tick self.old
            → OnOk result (GoesOnWith s calm tick more.old.rest.items self.new more.new.rest.items) }
        ensures refused { (s : State) (calm : List ATick) (tick : ATick) → IsOpen s calm tick self.old
            → OnErr result (IsRefusedIn s calm tick more.old.rest.items more.new.rest.items) }
    {
        for _ in 0..more.len() {
            if !self.has_room() {
                return Ok(());
            }
            let Some(tick) = more.next() else {
                return Ok(());
            };
            self.evict_nobody()?;
            self.take_tick(tick)?;
        }
        Ok(())
    }

    /// The pieces for which ticks wait go out for their updates, with the rest of the node.
    pub(crate) fn send(self) -> Result<(Vec<PodPiece>, Round), AllocError>
        ensures begun { IfOk result (λ r. r.1.begun ≡ self.begun) }
        ensures sent { IfOk result (λ r. r.0.items ≡ sent_from 0 self.pods.pieces) }
        ensures awaited { IfOk result (λ r. r.1.pods
            ≡ awaited (staying self.pods.pieces) self.pods.max_restart_delay self.pods.has_dedicated_imagefs) }
        ensures numbered { IfOk result (λ r. AreNumbered (joined r.1.pods (map all_updated r.0.items))) }
    {
        let Stretch {
            begun,
            pods,
            waiting,
        } = self;
        match pods.send() {
            Ok((pieces, pods)) => Ok((
                pieces,
                Round {
                    begun,
                    pods,
                    waiting,
                },
            )),
            Err(fault) => {
                drop(begun);
                Err(fault)
            }
        }
    }
}

/// Adds the choice of the last tick to the events, and the eviction that it leads to, or none, to the evictions.
fn add_last(
    events: &mut Vec<Event>,
    evictions: &mut Evictions,
    config: &NodeConfig,
    at: u64,
    choice: Option<Eviction>,
) -> Result<(), AllocError>
    ensures events { OnOk result (events.new.items
        ≡ events.old.items ++ of_choice config.now.evictions_recorded at choice) }
    ensures evictions { OnOk result (evictions.new
        ≡ kept (evictions.old.each ++ unless_recorded config.now.evictions_recorded choice ∷ [])
        (option_or (unless_recorded config.now.evictions_recorded choice) evictions.old.pausing)) }
{
    add_choice(events, config.evictions_recorded, at, choice)?;
    evictions.push(unless_recorded(config, choice))?;
    Ok(())
}

/// The node once the round is over: what happened in its ticks is added, and one pod at most is evicted.
fn close<U: Ledger, E: Ledger, O: Ledger>(
    begun: Begun,
    pods: OpenPods,
    book: WholeBook<U, E, O>,
) -> Result<Running<U, E, O>, AllocError>
    requires { CanClose begun pods book }
    ensures { (s : State) (calm : List ATick) (tick : ATick) → MayClose s calm tick begun pods book
        → IfOk result (IsNextBy (calm ++ tick ∷ []) s) }
{
    let Begun {
        alloc,
        config,
        signals,
        mut evictions,
        mut events,
        ticks,
        heeded,
        at,
    } = begun;
    let added = add_events(&mut events, pods.pieces(), &ticks);
    drop(ticks);
    if let Err(fault) = added {
        drop((config, signals, evictions, events, pods, book));
        return Err(fault);
    }
    let mut pods = pods.close();
    let choice = match choice_for(&config, &pods, at, heeded) {
        Ok(choice) => choice,
        Err(fault) => {
            drop((config, signals, evictions, events, pods, book));
            return Err(fault);
        }
    };
    let added = add_last(&mut events, &mut evictions, &config, at, choice);
    carry_out(&mut pods, unless_recorded(&config, choice));
    match added {
        Ok(()) => Ok(Running {
            alloc,
            config,
            signals,
            pods,
            evictions,
            events,
            book,
            last: Some(at),
        }),
        Err(fault) => {
            drop((config, signals, evictions, events, pods, book));
            Err(fault)
        }
    }
}

impl Round {
    /// How many updates wait for the pieces that are out.
    pub fn waiting(&self) -> usize
        ensures { result ≡ self.now.waiting }
    {
        self.waiting
    }

    /// The node after the round, with the pieces that come back, which have taken its ticks into their statuses, and
    /// this book, in which they were entered: the last tick evicts one pod at most. Drops the node if an allocation
    /// fails.
    pub fn end<U: Ledger, E: Ledger, O: Ledger>(
        self,
        back: Vec<PodPiece>,
        book: WholeBook<U, E, O>,
    ) -> Result<Running<U, E, O>, AllocError>
        requires { CanEnd self back.items book }
        ensures { (s : State) (calm : List ATick) (tick : ATick) → MayEnd s calm tick self back.items book
            → IfOk result (IsNextBy (calm ++ tick ∷ []) s) }
    {
        let Round {
            begun,
            pods,
            waiting: _,
        } = self;
        // Another tick may follow only a whole node: if an allocation fails here it is gone. (docs/decisions/rounds.md)
        match pods.with(back) {
            Ok(pods) => close(begun, pods, book),
            Err(fault) => {
                drop((begun, book));
                Err(fault)
            }
        }
    }
}
