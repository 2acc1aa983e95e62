//! What a manifest says of a pod.
#![tactic(auto)]

mod gates;
mod grace;
mod names;
mod outcome;
mod own_restarts;
mod pod;
mod policy;
mod probe;
mod resources;
mod restart_delay;
mod text;

pub use gates::{MOST_GATES, ReadinessGates, is_condition_type};
pub use grace::GracePeriod;
pub use names::{is_label, is_name};
pub use outcome::{Outcome, ProbeKind};
pub use own_restarts::{ExitCodeOperator, ExitCodes, OwnRestarts, RestartRule, RestartRules};
pub use pod::{ContainerList, ContainerSpec, MOST_CONTAINERS, Place, PodSpec, Role};
pub use policy::Policy;
pub use probe::{Probe, Probes};
pub use resources::{Amounts, Resource, Resources};
pub use restart_delay::MaxRestartDelay;
pub use text::Text;
