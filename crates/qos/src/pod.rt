//! The class and the requests of a pod that may have resources as a whole.

ghost use Rattle.std.specs.Prelude.{◌≡◌, length};
ghost use Rattle.qos.specs.rule.Pod.{as_one, IsPodClass, own_request_of, own_limit_of, request_by, pod_request_of};
ghost use Rattle.qos.specs.rule.Resized.{resized};

use crate::class::{Qos, class_of, qos_class};
use crate::container::{has_some_request_or_limit, set_amount};
use crate::resized::effective_request_with;
use manifest::{ContainerSpec, PodSpec, Probes, Resource, Resources, Role, Text};
use std::alloc::Global;

/// One container that has a pod's resources. Doesn't allocate.
fn as_one(alloc: Global, resources: Resources) -> ContainerSpec
    ensures { result ≡ as_one resources }
{
    let name = Text::new(String::new(alloc));
    ContainerSpec::new(name, Role::App, resources, Probes::none())
}

/// The class of a pod. If an amount of cpu or memory is set for the pod as a whole, the class is that of one container
/// with the pod's amounts; else that of its containers, as [`qos_class`] has it. Doesn't allocate. (Kubernetes, "Pod
/// Quality of Service Classes".)
pub fn pod_class(alloc: Global, pod: &PodSpec) -> Qos
    ensures { IsPodClass pod.now result }
{
    let one = as_one(alloc, pod.resources);
    if has_some_request_or_limit(&one) {
        class_of(&[one])
    } else {
        qos_class(pod)
    }
}

/// The pod's own request of the resource, in thousandths, if one is set.
fn own_request_of(pod: &PodSpec, resource: Resource) -> Option<u128>
    ensures { result ≡ own_request_of resource pod.now }
{
    match resource {
        Resource::Cpu | Resource::Memory => set_amount(pod.resources.requests().of(resource)),
        Resource::EphemeralStorage => None,
    }
}

/// The pod's own limit of the resource, in thousandths, if one is set.
fn own_limit_of(pod: &PodSpec, resource: Resource) -> Option<u128>
    ensures { result ≡ own_limit_of resource pod.now }
{
    match resource {
        Resource::Cpu | Resource::Memory => set_amount(pod.resources.limits().of(resource)),
        Resource::EphemeralStorage => None,
    }
}

/// The request by these: the pod's own request and limit, and what its containers request.
fn request_by(request: Option<u128>, limit: Option<u128>, of_containers: u128) -> u128
    ensures { result ≡ request_by request limit of_containers }
{
    match (request, limit) {
        (Some(request), _) => request,
        (None, Some(limit)) if of_containers == 0 => limit,
        (None, _) => of_containers,
    }
}

/// The request of a resource, in thousandths, of a pod whose containers have these requests and limits by now, each by
/// its number. For cpu and memory it is the pod's own, if one is set; else the effective request of its containers, or
/// the pod's own limit if that is set and the containers request nothing. (Kubernetes, "Resource Management for Pods
/// and Containers", "Pod-level resource specification"; "Pod Lifecycle", "Pod resize".)
pub fn pod_request(pod: &PodSpec, resources: &[Resources], resource: Resource) -> u128
    requires { length resources.now ≡ length pod.now.containers }
    ensures { result ≡ pod_request_of resource (resized pod.now resources.now) }
{
    let containers = pod.containers.as_slice();
    request_by(
        own_request_of(pod, resource),
        own_limit_of(pod, resource),
        effective_request_with(containers, resources, resource),
    )
}
