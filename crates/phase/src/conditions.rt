//! The conditions of a pod, and when each changed.

ghost use Rattle.std.specs.Prelude.{◌≡◌, ◌≢◌, ◌⊎◌, ◌↔◌, List, [], ◌∷◌, ◌++◌, Bool, true, false, not, Option, None};
ghost use Rattle.std.specs.Prelude.{IsTrue};
ghost use Rattle.histories.specs.rule.Histories.{Recorded, recorded};
ghost use Rattle.phase.specs.state.Conditions.{IsConditionOf, IsStateOf};
ghost use Rattle.phase.specs.declared.conditions.Values.{Values};

/// Whether a condition is true, and since when. (Kubernetes, "Pod Lifecycle", "Pod conditions".)
#[derive(Clone, Copy, Debug, PartialEq, Eq)]
pub struct Condition {
    /// Whether it is true.
    pub value: bool,
    /// The moment of the last transition, in seconds; none without ticks.
    pub since: Option<u64>,
}

/// The values that a tick gives to a pod's conditions.
#[derive(Clone, Copy, Debug, PartialEq, Eq)]
pub struct Values {
    /// Whether every init container has completed, and every sidecar was started.
    pub initialized: bool,
    /// Whether the pod has not ended, and every app container and sidecar is ready.
    pub containers_ready: bool,
    /// Whether that is so, and the condition that each of the pod's readiness gates names is True.
    pub ready: bool,
}

/// A pod's conditions.
#[derive(Clone, Copy, Debug, PartialEq, Eq)]
pub struct Conditions {
    /// The pod is placed on a node, which is always true here.
    pub pod_scheduled: Condition,
    /// Every init container has completed, and every sidecar was started.
    pub initialized: Condition,
    /// The pod has not ended, and every app container and sidecar is ready.
    pub containers_ready: Condition,
    /// ContainersReady is True, and so is the condition that each of the pod's readiness gates names. (Kubernetes, "Pod
    /// Lifecycle", "Pod readiness".)
    pub ready: Condition,
}

impl Condition {
    /// A condition before any tick, with this value.
    pub fn new(value: bool) -> Self
        ensures { IsConditionOf value [] result }
    {
        Condition { value, since: None }
    }

    /// Whether the value is another than before, or the first.
    fn changes(&self, value: bool) -> bool
        ensures { IsTrue result ↔ ((self.now.since ≡ None) ⊎ (self.now.value ≢ value)) }
    {
        self.since.is_none() || self.value != value
    }

    /// A tick gives it a value, at the moment, in seconds.
    pub fn advance(&mut self, at: u64, value: bool)
        ensures { (initially : Bool) (h : List (Recorded Bool))
            → IsConditionOf initially h self.old
            → IsConditionOf initially (h ++ recorded at value ∷ []) self.new }
    {
        if self.changes(value) {
            self.value = value;
            self.since = Some(at);
        }
    }
}

impl Conditions {
    /// The conditions of a pod that no tick has shown yet, with an init container or sidecar or without.
    pub fn new(has_init: bool) -> Self
        ensures { IsStateOf has_init [] result }
    {
        Conditions {
            pod_scheduled: Condition::new(true),
            initialized: Condition::new(!has_init),
            containers_ready: Condition::new(false),
            ready: Condition::new(false),
        }
    }

    /// A tick gives them their values, at the moment, in seconds.
    pub fn advance(&mut self, at: u64, values: Values)
        ensures { (has_init : Bool) (h : List (Recorded Values))
            → IsStateOf has_init h self.old
            → IsStateOf has_init (h ++ recorded at values ∷ []) self.new }
    {
        self.pod_scheduled.advance(at, true);
        self.initialized.advance(at, values.initialized);
        self.containers_ready.advance(at, values.containers_ready);
        self.ready.advance(at, values.ready);
    }
}
