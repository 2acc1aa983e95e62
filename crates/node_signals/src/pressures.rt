//! A node's conditions over its ticks.

ghost use Rattle.std.specs.Prelude.{◌≡◌, ◌↔◌, ◌<◌, ℕ, slice_get, Some, IsTrue, List, [], ◌∷◌, ◌++◌};
ghost use Rattle.node_config.specs.rule.EvictionConfig.{EvictionConfig};
ghost use Rattle.observations.specs.declared.tick.TickObs.{TickObs};
ghost use Rattle.node_signals.specs.declared.key.ThresholdKey.{ThresholdKey};
ghost use Rattle.node_signals.specs.rule.Keys.{serving_order};
ghost use Rattle.node_signals.specs.declared.condition.NodeCondition.{NodeCondition};
ghost use Rattle.node_signals.specs.rule.Conditions.{Meets, IsMet};
ghost use Rattle.node_signals.specs.state.Node.{AreWatches, IsPressureOf, ArePressures};

use crate::condition::NodeCondition;
use crate::key::{THRESHOLDS, key_at};
use crate::watches::{Watches, is_active};
use pressure::Pressure;

/// One pressure for each condition.
#[derive(Clone, Copy, Debug, PartialEq, Eq)]
pub(crate) struct Pressures {
    memory: Pressure,
    disk: Pressure,
    pid: Pressure,
}

/// Whether the threshold at this place is one of the condition's, and active.
fn meets(watches: &Watches, condition: NodeCondition, place: usize) -> bool
    requires { place < THRESHOLDS }
    ensures { (eviction : EvictionConfig) (ticks : List TickObs) (key : ThresholdKey)
        → slice_get serving_order place ≡ Some key
        → AreWatches eviction ticks watches.now
        → (IsTrue result ↔ Meets eviction condition ticks key) }
{
    NodeCondition::of(key_at(place).signal) == condition && is_active(watches, place)
}

/// Whether the condition is met: one of its thresholds is active.
fn is_met(watches: &Watches, condition: NodeCondition) -> bool
    ensures { (eviction : EvictionConfig) (ticks : List TickObs)
        → AreWatches eviction ticks watches.now
        → (IsTrue result ↔ IsMet eviction condition ticks) }
{
    for place in 0..THRESHOLDS {
        if meets(watches, condition, place) {
            return true;
        }
    }
    false
}

/// The pressure after one more tick, at this moment.
fn observed(pressure: Pressure, condition: NodeCondition, at: u64, watches: &Watches) -> Pressure
    ensures { (eviction : EvictionConfig) (period : ℕ) (before : List TickObs) (tick : TickObs)
        → tick.at ≡ at
        → AreWatches eviction (before ++ tick ∷ []) watches.now
        → IsPressureOf eviction period condition before pressure
        → IsPressureOf eviction period condition (before ++ tick ∷ []) result }
{
    let mut pressure = pressure;
    pressure.observe(at, is_met(watches, condition));
    pressure
}

impl Pressures {
    /// The pressures of a node before any tick, with this transition period in seconds.
    pub(crate) fn new(period: u64) -> Pressures
        ensures { (eviction : EvictionConfig) → ArePressures eviction period [] result }
    {
        let pressure = Pressure::new(period);
        Pressures {
            memory: pressure,
            disk: pressure,
            pid: pressure,
        }
    }

    /// Takes one more tick, at this moment, which leaves the watches so.
    pub(crate) fn observe(&mut self, at: u64, watches: &Watches)
        ensures { (eviction : EvictionConfig) (period : ℕ) (before : List TickObs) (tick : TickObs)
            → tick.at ≡ at
            → AreWatches eviction (before ++ tick ∷ []) watches.now
            → ArePressures eviction period before self.old
            → ArePressures eviction period (before ++ tick ∷ []) self.new }
    {
        self.memory = observed(self.memory, NodeCondition::MemoryPressure, at, watches);
        self.disk = observed(self.disk, NodeCondition::DiskPressure, at, watches);
        self.pid = observed(self.pid, NodeCondition::PidPressure, at, watches);
    }

    /// The pressure of a condition.
    pub(crate) fn of(&self, condition: NodeCondition) -> Pressure
        ensures { (eviction : EvictionConfig) (period : ℕ) (ticks : List TickObs)
            → ArePressures eviction period ticks self.now
            → IsPressureOf eviction period condition ticks result }
    {
        match condition {
            NodeCondition::MemoryPressure => self.memory,
            NodeCondition::DiskPressure => self.disk,
            NodeCondition::PidPressure => self.pid,
        }
    }
}
