//! What a node has come to.

ghost use Rattle.std.specs.Prelude.{◌≡◌, List};
ghost use Rattle.node_config.specs.declared.node.NodeConfig.{NodeConfig};
ghost use Rattle.observations.specs.declared.tick.TickObs.{TickObs};
ghost use Rattle.node_signals.specs.state.Node.{IsStateOf};
ghost use Rattle.node_rounds.specs.rule.Summary.{IsConditionAfter, AreConditionsAfter};

use event_list::{Event, Names};
use eviction::Eviction;
use node_signals::{NodeCondition, NodeSignals};
use pod_piece::PodPiece;
use totals::Totals;

/// A condition of a node. (Kubernetes, "Node-pressure Eviction", "Node conditions".)
#[derive(Clone, Copy, Debug, PartialEq, Eq)]
pub struct ConditionStatus {
    /// Which one it is.
    pub condition: NodeCondition,
    /// Whether it is true.
    pub value: bool,
    /// Since when it has been so, in seconds; 0 without ticks.
    pub since: u64,
}

impl ConditionStatus {
    fn of(condition: NodeCondition, signals: &NodeSignals) -> ConditionStatus
        ensures { (config : NodeConfig) (ticks : List TickObs)
            → IsStateOf config.eviction config.eviction_pressure_transition_period ticks signals.now
            → IsConditionAfter config ticks condition result }
    {
        ConditionStatus {
            condition,
            value: signals.is_true(condition),
            since: signals.since(condition),
        }
    }
}

/// The conditions of a node, in the order of the report.
pub(crate) fn conditions_of(signals: &NodeSignals) -> [ConditionStatus; 3]
    ensures { (config : NodeConfig) (ticks : List TickObs)
        → IsStateOf config.eviction config.eviction_pressure_transition_period ticks signals.now
        → AreConditionsAfter config ticks result }
{
    [
        ConditionStatus::of(NodeCondition::MemoryPressure, signals),
        ConditionStatus::of(NodeCondition::DiskPressure, signals),
        ConditionStatus::of(NodeCondition::PidPressure, signals),
    ]
}

/// What a node has come to, as its ticks leave it.
#[derive(Clone, Copy)]
pub struct Summary<'n> {
    /// The node's name.
    pub name: &'n str,
    /// Its pods by their numbers, each with its status.
    pub pods: &'n [PodPiece],
    /// MemoryPressure, DiskPressure and PIDPressure.
    pub conditions: [ConditionStatus; 3],
    /// What happened, tick after tick.
    pub events: &'n [Event],
    /// The eviction of each tick, or none.
    pub evictions: &'n [Option<Eviction>],
    /// How many ticks were taken.
    pub ticks: usize,
    /// What is counted over them.
    pub totals: Totals,
}

impl<'n> Summary<'n> {
    /// The names of the node's pods and of their containers.
    pub fn names(&self) -> Names<'n>
        ensures { result.pods.now ≡ self.now.pods.now }
    {
        Names::of(self.pods)
    }
}
