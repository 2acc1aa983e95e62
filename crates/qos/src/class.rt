//! QoS classes.

ghost use Rattle.std.specs.Prelude.{◌↔◌, All, Any, IsTrue};
ghost use Rattle.qos.specs.rule.Container.{IsGuaranteed, HasSomeRequestOrLimit};
ghost use Rattle.qos.specs.rule.Class.{IsOfClass};

use crate::container::{has_some_request_or_limit, is_guaranteed};
use manifest::{ContainerSpec, PodSpec};

/// The QoS class of a pod (Kubernetes, "Pod Quality of Service Classes").
#[derive(Clone, Copy, Debug, PartialEq, Eq)]
pub enum Qos {
    /// Every container has limits of cpu and memory, and requests that equal them.
    Guaranteed,
    /// The pod is not Guaranteed, and some container has a request or a limit of cpu or memory.
    Burstable,
    /// No container has a request or a limit of cpu or memory.
    BestEffort,
}

fn all_guaranteed(containers: &[ContainerSpec]) -> bool
    ensures { IsTrue result ↔ All IsGuaranteed containers.now }
{
    containers.iter().all(|container| is_guaranteed(container))
}

fn some_has_request_or_limit(containers: &[ContainerSpec]) -> bool
    ensures { IsTrue result ↔ Any HasSomeRequestOrLimit containers.now }
{
    containers
        .iter()
        .any(|container| has_some_request_or_limit(container))
}

pub(crate) fn class_of(containers: &[ContainerSpec]) -> Qos
    ensures { IsOfClass containers.now result }
{
    if all_guaranteed(containers) {
        Qos::Guaranteed
    } else if some_has_request_or_limit(containers) {
        Qos::Burstable
    } else {
        Qos::BestEffort
    }
}

/// The class of a pod. Init containers and sidecars count as well; a zero amount counts as unset,
/// and a limit without a request gives the request the limit's value (Kubernetes, "Pod Quality of
/// Service Classes").
pub fn qos_class(pod: &PodSpec) -> Qos
    ensures { IsOfClass pod.now.containers result }
{
    class_of(pod.containers.as_slice())
}
