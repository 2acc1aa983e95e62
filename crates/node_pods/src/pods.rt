//! The pods of a node.

ghost use Rattle.std.specs.Prelude.{◌≡◌, ◌↔◌, [], length, map, IsTrue, IfOk, OnOk, OnErr};
ghost use Rattle.pod_piece.specs.state.Piece.{all_updated, at_rest};
ghost use Rattle.ranking.specs.rule.Order.{IsVictim};
ghost use Rattle.node_pods.specs.state.Pods.{pods_of, with_pod, AreNumbered, ArePlaced, IsCandidate, AreNext, Fits};
ghost use Rattle.node_pods.specs.state.Pods.{handed_each, sent_from, staying, awaited, joined, IsEvictable};
ghost use Rattle.node_pods.specs.state.Pods.{AreEvicted};
ghost use Rattle.node_pods.specs.state.Steps.{AreFree};

use crate::each::{all_joined, all_sent, are_next, evict_at, hand_all, rank_all, rest_all};
use manifest::{MaxRestartDelay, PodSpec};
use observations::{PodObs, TickObs};
use pod_piece::{EvictOrder, PodPiece};
use ranking::RankIndex;
use signals::Signal;
use std::alloc::{AllocError, Global};
use std::marker::Model;

/// The pods that have arrived on a node, by their numbers. (Kubernetes, "Pod Lifecycle" and
/// "Node-pressure Eviction".)
#[derive(Drop)]
pub struct NodePods {
    alloc: Global,
    max_restart_delay: MaxRestartDelay,
    has_dedicated_imagefs: bool,
    pieces: Vec<PodPiece>,
}

impl Model for NodePods {
    ghost use Rattle.node_pods.specs.state.Pods.{Pods, pods_of, ArePlaced};

    ghost Value = { Pods };

    ghost view = { λ p. pods_of p.pieces.items p.max_restart_delay p.has_dedicated_imagefs };

    ghost invariant = { λ p. ArePlaced (pods_of p.pieces.items p.max_restart_delay p.has_dedicated_imagefs) };
}

impl NodePods {
    /// No pods, on a node with this maximum restart delay. Whether images have a file system of their own decides how
    /// pods are ranked. Doesn't allocate.
    pub fn new(
        alloc: Global,
        max_restart_delay: MaxRestartDelay,
        has_dedicated_imagefs: bool,
    ) -> NodePods
        ensures { result ≡ pods_of [] max_restart_delay has_dedicated_imagefs }
    {
        NodePods {
            alloc,
            max_restart_delay,
            has_dedicated_imagefs,
            pieces: Vec::new(alloc),
        }
    }

    /// The pods by their numbers. All their ticks have come into their statuses.
    pub fn pieces(&self) -> &[PodPiece]
        ensures same { result.now ≡ self.now.pieces }
        ensures placed { ArePlaced self.now }
    {
        &self.pieces
    }

    /// Adds a pod, with the next number. Returns `Err` if an allocation fails; the pods are then as they were.
    pub fn arrive(&mut self, pod: PodSpec) -> Result<(), AllocError>
        ensures ok { OnOk result (self.new ≡ with_pod self.old pod) }
        ensures err { OnErr result (self.new ≡ self.old) }
    {
        self.pieces.try_reserve(1)?;
        let piece = PodPiece::new(self.alloc, self.pieces.len(), pod, self.max_restart_delay)?;
        self.pieces.push_reserved(piece);
        Ok(())
    }

    /// Whether the tick may come next: it has for each pod what it shows of it, at the tick's moment, or that the pod
    /// is not present; its moment is later than the moment of each pod's last tick, and before `END_OF_TIME` if a pod
    /// is present; and each container's listing may come after its earlier ones. Doesn't allocate.
    pub fn fits(&self, tick: &TickObs) -> bool
        ensures { IsTrue result ↔ Fits self.now tick.now }
    {
        let shown = tick.pods.as_slice();
        shown.len() == self.pieces.len() && are_next(&self.pieces, shown, tick.at)
    }

    /// These pods as they are, ready for the ticks of a round that begins.
    pub fn open(self) -> OpenPods
        ensures { result ≡ self }
    {
        let NodePods {
            alloc,
            max_restart_delay,
            has_dedicated_imagefs,
            pieces,
        } = self;
        OpenPods {
            alloc,
            max_restart_delay,
            has_dedicated_imagefs,
            pieces,
        }
    }

    /// The number of the pod that is evicted first under the signal by the tick of the moment, in seconds; none if all
    /// pods that are present have ended. The index of the signal is made here, so that a signal whose threshold the
    /// node never acts on costs nothing. Returns `Err` if an allocation fails. (Kubernetes, "Node-pressure Eviction",
    /// "Pod selection for kubelet eviction".)
    pub fn first(&self, signal: Signal, moment: u64) -> Result<Option<usize>, AllocError>
        ensures { IfOk result
            (IsVictim signal self.now.has_dedicated_imagefs (IsCandidate self.now.pieces moment)) }
    {
        let mut index = RankIndex::new(self.alloc, signal, self.has_dedicated_imagefs);
        rank_all(&mut index, &self.pieces, moment)?;
        Ok(index.first())
    }

    /// Evicts the pod with the number by the tick that came last. Doesn't allocate.
    pub fn evict(&mut self, number: usize, order: EvictOrder)
        requires { IsEvictable self.old.pieces number order.at }
        ensures evicted { AreEvicted self.old.pieces number order self.new.pieces }
        ensures max_restart_delay { self.new.max_restart_delay ≡ self.old.max_restart_delay }
        ensures dedicated { self.new.has_dedicated_imagefs ≡ self.old.has_dedicated_imagefs }
    {
        evict_at(&mut self.pieces, number, order);
    }
}

/// The pods of a node in the midst of a round, by their numbers: they get ticks, one after the other, and then the pods
/// for which some wait go out for their updates.
#[derive(Drop)]
pub struct OpenPods {
    alloc: Global,
    max_restart_delay: MaxRestartDelay,
    has_dedicated_imagefs: bool,
    pieces: Vec<PodPiece>,
}

impl Model for OpenPods {
    ghost use Rattle.node_pods.specs.state.Pods.{Pods, pods_of, AreNumbered};

    ghost Value = { Pods };

    ghost view = { λ p. pods_of p.pieces.items p.max_restart_delay p.has_dedicated_imagefs };

    ghost invariant = { λ p. AreNumbered (pods_of p.pieces.items p.max_restart_delay p.has_dedicated_imagefs) };
}

impl OpenPods {
    /// The pods by their numbers.
    pub fn pieces(&self) -> &[PodPiece]
        ensures { result.now ≡ self.now.pieces }
    {
        &self.pieces
    }

    /// Gives each pod that is present what a tick shows of it, by number. Returns `Err` if an allocation fails; then
    /// some pods have it, and others don't.
    pub fn hand(&mut self, shown: Vec<Option<PodObs>>) -> Result<(), AllocError>
        requires { AreNext self.old.pieces shown.items }
        ensures pieces { OnOk result (self.new.pieces ≡ handed_each self.old.pieces shown.items) }
        ensures max_restart_delay { self.new.max_restart_delay ≡ self.old.max_restart_delay }
        ensures dedicated { self.new.has_dedicated_imagefs ≡ self.old.has_dedicated_imagefs }
    {
        hand_all(&mut self.pieces, shown)
    }

    /// The pieces for which ticks wait go out, the place of each as its number, and come back by `AwaitedPods::with`.
    /// Returns `Err` if an allocation fails.
    pub fn send(self) -> Result<(Vec<PodPiece>, AwaitedPods), AllocError>
        ensures sent { IfOk result (λ r. r.0.items ≡ sent_from 0 self.pieces) }
        ensures awaited { IfOk result (λ r. r.1
            ≡ awaited (staying self.pieces) self.max_restart_delay self.has_dedicated_imagefs) }
        ensures numbered { IfOk result (λ r. AreNumbered (joined r.1 (map all_updated r.0.items))) }
    {
        let OpenPods {
            alloc,
            max_restart_delay,
            has_dedicated_imagefs,
            pieces,
        } = self;
        let (out, kept) = all_sent(alloc, pieces)?;
        Ok((
            out,
            AwaitedPods {
                alloc,
                max_restart_delay,
                has_dedicated_imagefs,
                kept,
            },
        ))
    }

    /// Ends the round, as all ticks of the pods have come into their statuses. Doesn't allocate.
    pub fn close(self) -> NodePods
        requires { AreFree self.pieces }
        ensures { result ≡ pods_of (map at_rest self.pieces) self.max_restart_delay self.has_dedicated_imagefs }
    {
        let OpenPods {
            alloc,
            max_restart_delay,
            has_dedicated_imagefs,
            mut pieces,
        } = self;
        rest_all(&mut pieces);
        NodePods {
            alloc,
            max_restart_delay,
            has_dedicated_imagefs,
            pieces,
        }
    }
}

/// What a node keeps of its pods while the pieces of those for which ticks wait take them into their statuses.
#[derive(Drop)]
pub struct AwaitedPods {
    alloc: Global,
    max_restart_delay: MaxRestartDelay,
    has_dedicated_imagefs: bool,
    kept: Vec<Option<PodPiece>>,
}

impl Model for AwaitedPods {
    ghost use Rattle.node_pods.specs.state.Pods.{Awaited, awaited};

    ghost Value = { Awaited };

    ghost view = { λ a. awaited a.kept.items a.max_restart_delay a.has_dedicated_imagefs };
}

impl AwaitedPods {
    /// The pods of the node with the pieces that come back, each with its number. Returns `Err` if an allocation fails.
    pub fn with(self, back: Vec<PodPiece>) -> Result<OpenPods, AllocError>
        requires { AreNumbered (joined self back.items) }
        ensures { IfOk result (λ pods. pods ≡ joined self back.items) }
    {
        let AwaitedPods {
            alloc,
            max_restart_delay,
            has_dedicated_imagefs,
            kept,
        } = self;
        let pieces = all_joined(alloc, kept, back)?;
        Ok(OpenPods {
            alloc,
            max_restart_delay,
            has_dedicated_imagefs,
            pieces,
        })
    }
}
