//! A node's thresholds for eviction, over its capacity.

ghost use Rattle.std.specs.Prelude.{◌≡◌, IfSome};
ghost use Rattle.signals.specs.rule.BySignal.{of};
ghost use Rattle.node_config.specs.rule.EvictionConfig.{threshold_of};
ghost use Rattle.node_config.specs.state.EvictionConfig.{HasCapacity, HaveCapacities};

use quantity::Quantity;
use signals::{BySignal, Signal, Threshold, ThresholdKind};
use std::marker::Model;

/// The capacity of each signal and the thresholds on it, where there are. Each percentage among the
/// limits and reclaims has its signal's capacity. Contracts see the three. (Kubernetes,
/// "Node-pressure Eviction", "Eviction thresholds".)
#[derive(Clone, Copy, Debug, PartialEq, Eq)]
pub struct EvictionConfig {
    capacity: BySignal<Option<Quantity>>,
    hard: BySignal<Option<Threshold>>,
    soft: BySignal<Option<Threshold>>,
}

impl Model for EvictionConfig {
    ghost use Rattle.node_config.specs.rule.EvictionConfig.{EvictionConfig};
    ghost use Rattle.node_config.specs.state.EvictionConfig.{HaveCapacities};

    ghost Value = { EvictionConfig };

    ghost view = { λ e. record { capacity = e.capacity; hard = e.hard; soft = e.soft } };

    ghost invariant = { λ e. HaveCapacities e.capacity e.hard × HaveCapacities e.capacity e.soft };

    ghost inverse = { λ v. record { capacity = v.capacity; hard = v.hard; soft = v.soft } };
}

impl EvictionConfig {
    /// These thresholds, over this capacity.
    pub fn new(
        capacity: BySignal<Option<Quantity>>,
        hard: BySignal<Option<Threshold>>,
        soft: BySignal<Option<Threshold>>,
    ) -> EvictionConfig
        requires hard { HaveCapacities capacity hard }
        requires soft { HaveCapacities capacity soft }
        ensures { result ≡ record { capacity = capacity; hard = hard; soft = soft } }
    {
        EvictionConfig {
            capacity,
            hard,
            soft,
        }
    }

    /// The capacity of a signal, in bytes, inodes or processes, where one is given.
    pub fn capacity(&self, signal: Signal) -> Option<Quantity>
        ensures { result ≡ of self.now.capacity signal }
    {
        self.capacity.of(signal)
    }

    /// The threshold of this kind on a signal, if there is one.
    pub fn threshold(&self, kind: ThresholdKind, signal: Signal) -> Option<Threshold>
        ensures value { result ≡ threshold_of self.now kind signal }
        ensures capacity { IfSome result (HasCapacity (of self.now.capacity signal)) }
    {
        match kind {
            ThresholdKind::Hard => self.hard.of(signal),
            ThresholdKind::Soft => self.soft.of(signal),
        }
    }
}
