//! The conditions of a node under pressure.

ghost use Rattle.std.specs.Prelude.{◌≡◌};
ghost use Rattle.node_signals.specs.rule.Conditions.{name_of, condition_of};

use signals::Signal;

/// A condition of a node that is true while one of its thresholds is active, and for some time
/// after. (Kubernetes, "Node-pressure Eviction", "Node conditions".)
#[derive(Clone, Copy, Debug, PartialEq, Eq)]
pub enum NodeCondition {
    /// Of the signal `memory.available`.
    MemoryPressure,
    /// Of the four signals of file systems.
    DiskPressure,
    /// Of the signal `pid.available`.
    PidPressure,
}

impl NodeCondition {
    /// Its name in Kubernetes, as `MemoryPressure`.
    pub fn name(self) -> &'static str
        ensures { result.now ≡ name_of self }
    {
        match self {
            NodeCondition::MemoryPressure => "MemoryPressure",
            NodeCondition::DiskPressure => "DiskPressure",
            NodeCondition::PidPressure => "PIDPressure",
        }
    }

    /// The condition that a signal's thresholds belong to.
    pub fn of(signal: Signal) -> NodeCondition
        ensures { result ≡ condition_of signal }
    {
        match signal {
            Signal::MemoryAvailable => NodeCondition::MemoryPressure,
            Signal::NodefsAvailable
            | Signal::ImagefsAvailable
            | Signal::NodefsInodesFree
            | Signal::ImagefsInodesFree => NodeCondition::DiskPressure,
            Signal::PidAvailable => NodeCondition::PidPressure,
        }
    }
}
