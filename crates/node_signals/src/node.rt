//! A node's thresholds and conditions, tick by tick.

ghost use Rattle.std.specs.Prelude.{◌≡◌, ◌↔◌, ℕ, IsTrue, List, [], ◌∷◌, ◌++◌, OnOk, OnErr, IfOk};
ghost use Rattle.node_config.specs.rule.EvictionConfig.{EvictionConfig};
ghost use Rattle.observations.specs.declared.tick.TickObs.{TickObs};
ghost use Rattle.node_signals.specs.rule.Thresholds.{IsServed};
ghost use Rattle.node_signals.specs.rule.Conditions.{IsTrueAfter, IsSinceMoment};
ghost use Rattle.node_signals.specs.rule.Events.{AreNodeEvents};
ghost use Rattle.node_signals.specs.state.Node.{IsStateOf};

use crate::condition::NodeCondition;
use crate::event::NodeEvent;
use crate::events::{add_condition_events, add_reclaim_events, add_threshold_events};
use crate::key::ThresholdKey;
use crate::pressures::Pressures;
use crate::watches::{Watches, first_watches, sample_all, served};
use node_config::EvictionConfig;
use observations::TickObs;
use std::alloc::{AllocError, Global};

/// Follows the thresholds and the conditions of a node over its ticks, of which it keeps none.
/// (Kubernetes, "Node-pressure Eviction".)
#[derive(Clone, Copy, Debug, PartialEq, Eq)]
pub struct NodeSignals {
    watches: Watches,
    pressures: Pressures,
}

impl NodeSignals {
    /// A node with these thresholds and this transition period of its conditions, in seconds,
    /// before any tick.
    pub fn new(eviction: &EvictionConfig, period: u64) -> NodeSignals
        ensures { IsStateOf eviction.now period [] result }
    {
        NodeSignals {
            watches: first_watches(eviction),
            pressures: Pressures::new(period),
        }
    }

    /// The node after one more tick. A tick that is no sync tick changes nothing.
    fn after(&self, tick: &TickObs) -> NodeSignals
        ensures { (eviction : EvictionConfig) (period : ℕ) (before : List TickObs)
            → IsStateOf eviction period before self.now
            → IsStateOf eviction period (before ++ tick.now ∷ []) result }
    {
        if !tick.judged {
            return *self;
        }
        let mut watches = self.watches;
        sample_all(&mut watches, tick);
        let mut pressures = self.pressures;
        pressures.observe(tick.at, &watches);
        NodeSignals { watches, pressures }
    }

    /// The events of the tick that leads from the old state to this one.
    fn events_since(
        &self,
        alloc: Global,
        old: &NodeSignals,
        eviction: &EvictionConfig,
        tick: &TickObs,
    ) -> Result<Vec<NodeEvent>, AllocError>
        ensures { (period : ℕ) (before : List TickObs)
            → IsStateOf eviction.now period before old.now
            → IsStateOf eviction.now period (before ++ tick.now ∷ []) self.now
            → IfOk result (λ events. AreNodeEvents eviction.now period before tick.now events.items) }
    {
        let mut events = Vec::new(alloc);
        add_threshold_events(&mut events, &old.watches, &self.watches)?;
        add_condition_events(&mut events, &old.pressures, &self.pressures)?;
        add_reclaim_events(&mut events, &self.watches, eviction, tick)?;
        Ok(events)
    }

    /// Takes one more tick of a node with these thresholds. Returns its events: thresholds that became active or were
    /// cleared, conditions that changed, and thresholds for which the node freed enough by itself; none if the tick is
    /// no sync tick. After an `Err` the node is as it was.
    pub fn take(
        &mut self,
        alloc: Global,
        eviction: &EvictionConfig,
        tick: &TickObs,
    ) -> Result<Vec<NodeEvent>, AllocError>
        ensures state { (period : ℕ) (before : List TickObs)
            → IsStateOf eviction.now period before self.old
            → OnOk result (IsStateOf eviction.now period (before ++ tick.now ∷ []) self.new) }
        ensures events { (period : ℕ) (before : List TickObs)
            → IsStateOf eviction.now period before self.old
            → IfOk result (λ events. AreNodeEvents eviction.now period before tick.now events.items) }
        ensures err { OnErr result (self.new ≡ self.old) }
    {
        let new = self.after(tick);
        let events = new.events_since(alloc, self, eviction, tick)?;
        *self = new;
        Ok(events)
    }

    /// The threshold for which a pod is to be evicted in the last tick taken: the first in the serving order that is
    /// due and for which the node has not freed enough by itself; none if the tick is no sync tick.
    pub fn served(&self, eviction: &EvictionConfig, tick: &TickObs) -> Option<ThresholdKey>
        ensures { (period : ℕ) (before : List TickObs)
            → IsStateOf eviction.now period (before ++ tick.now ∷ []) self.now
            → IsServed eviction.now before tick.now result }
    {
        served(&self.watches, eviction, tick)
    }

    /// Whether a condition is true. (Kubernetes, "Node-pressure Eviction", "Node conditions".)
    pub fn is_true(&self, condition: NodeCondition) -> bool
        ensures { (eviction : EvictionConfig) (period : ℕ) (ticks : List TickObs)
            → IsStateOf eviction period ticks self.now
            → (IsTrue result ↔ IsTrueAfter eviction period condition ticks) }
    {
        self.pressures.of(condition).is_true()
    }

    /// Since when a condition has been true, or has not been, in seconds; 0 without ticks.
    pub fn since(&self, condition: NodeCondition) -> u64
        ensures { (eviction : EvictionConfig) (period : ℕ) (ticks : List TickObs)
            → IsStateOf eviction period ticks self.now
            → IsSinceMoment eviction period condition ticks result }
    {
        self.pressures.of(condition).since()
    }
}
