//! The pods that may be evicted, by their places in the order of eviction.

ghost use Rattle.std.specs.Prelude.{◌≡◌, ◌==◌, ℕ, [], Option, Some, None, OnOk, OnErr, IsOk, if◌then◌else◌};
ghost use Rattle.pod_piece.specs.declared.status.PodStatus.{PodStatus};
ghost use Rattle.pod_piece.specs.rule.Status.{MayBeEvicted};
ghost use Rattle.ranking.specs.state.Index.{IsIndexOf, AreHeldAfter, AreHeldWithout, ranks, key_at};
ghost use Rattle.ranking.specs.rule.Order.{IsVictim};

use crate::key::{RankKey, rank_key};
use pod_piece::PodStatus;
use signals::Signal;
use std::alloc::{AllocError, Global};
use std::collections::{BTreeMap, BTreeSet};
use std::marker::Model;

/// The pods of a node that may be evicted, by their places in the order of eviction by one signal.
/// (Kubernetes, "Node-pressure Eviction", "Pod selection for kubelet eviction".)
#[derive(Drop)]
pub struct RankIndex {
    signal: Signal,
    has_dedicated_imagefs: bool,
    keys: BTreeMap<usize, RankKey>,
    order: BTreeSet<RankKey>,
}

impl Model for RankIndex {
    ghost use Rattle.std.specs.BTreeMap.{get};
    ghost use Rattle.std.specs.BTreeSet.{contains};
    ghost use Rattle.std.specs.Ordering.{nat_cmp};
    ghost use Rattle.ranking.specs.state.Index.{Ranks, ranks, Matches};
    ghost use Rattle.ranking.specs.state.Keys.{rank_cmp};

    ghost Value = { Ranks };

    ghost view = { λ a. ranks a.signal a.has_dedicated_imagefs a.keys.entries };

    ghost invariant = { λ a. Matches (contains rank_cmp a.order) (get nat_cmp a.keys) };
}

impl RankIndex {
    /// An index without any pod.
    pub fn new(alloc: Global, signal: Signal, has_dedicated_imagefs: bool) -> RankIndex
        ensures value { result ≡ ranks signal has_dedicated_imagefs [] }
        ensures none { IsIndexOf (λ n. None) result }
    {
        RankIndex {
            signal,
            has_dedicated_imagefs,
            keys: BTreeMap::new(alloc),
            order: BTreeSet::new(alloc),
        }
    }

    /// Gives the pod its present place, or takes it out if a tick of the moment, in seconds, may not evict it, which
    /// always succeeds. Returns `Err` if an allocation fails; the index is then as it was.
    pub fn update(&mut self, status: &PodStatus, moment: u64) -> Result<(), AllocError>
        ensures signal { self.new.signal ≡ self.old.signal }
        ensures dedicated { self.new.has_dedicated_imagefs ≡ self.old.has_dedicated_imagefs }
        ensures updated { OnOk result ((held after : ℕ → Option PodStatus)
            → IsIndexOf held self.old → AreHeldAfter moment held status.now after → IsIndexOf after self.new) }
        ensures out { (MayBeEvicted moment status.now → ⊥) → IsOk result }
        ensures err { OnErr result (self.new ≡ self.old) }
    {
        if !status.may_be_evicted(moment) {
            self.remove(status.number);
            return Ok(());
        }
        self.put(rank_key(status, self.signal, self.has_dedicated_imagefs))
    }

    /// Gives the pod with the key's number this key. An `Err` changes nothing.
    fn put(&mut self, key: RankKey) -> Result<(), AllocError>
        ensures signal { self.new.signal ≡ self.old.signal }
        ensures dedicated { self.new.has_dedicated_imagefs ≡ self.old.has_dedicated_imagefs }
        ensures keyed { OnOk result ((n : ℕ)
            → key_at self.new.keys n ≡ (if key.number == n then Some key else key_at self.old.keys n)) }
        ensures err { OnErr result (self.new ≡ self.old) }
    {
        let is_new = match self.order.insert(key) {
            Ok(is_new) => is_new,
            Err(_) => return Err(AllocError),
        };
        if !is_new {
            return Ok(());
        }
        let replaced = match self.keys.insert(key.number, key) {
            Ok(replaced) => replaced,
            Err(_) => {
                self.order.remove(&key);
                return Err(AllocError);
            }
        };
        if let Some(old) = replaced {
            self.order.remove(&old);
        }
        Ok(())
    }

    /// Takes the pod with the number out, if it is held. Doesn't allocate.
    pub fn remove(&mut self, number: usize)
        ensures signal { self.new.signal ≡ self.old.signal }
        ensures dedicated { self.new.has_dedicated_imagefs ≡ self.old.has_dedicated_imagefs }
        ensures removed { (held after : ℕ → Option PodStatus)
            → IsIndexOf held self.old → AreHeldWithout held number after → IsIndexOf after self.new }
    {
        if let Some(key) = self.keys.remove(&number) {
            self.order.remove(&key);
        }
    }

    /// The number of the pod that is evicted first; none if no pod is held. Doesn't allocate.
    pub fn first(&self) -> Option<usize>
        ensures { (held : ℕ → Option PodStatus) → IsIndexOf held self.now
            → IsVictim self.now.signal self.now.has_dedicated_imagefs (λ n p. held n ≡ Some p) result }
    {
        match self.order.first() {
            Some(key) => Some(key.number),
            None => None,
        }
    }
}
