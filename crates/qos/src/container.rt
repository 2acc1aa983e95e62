//! The requests and limits of one container.

ghost use Rattle.std.specs.Prelude.{◌≡◌, ◌≤◌, ◌↔◌, IfSome, IsTrue};
ghost use Rattle.manifest.specs.declared.resources.Resource.TheVariants.{Cpu, Memory};
ghost use Rattle.quantity.specs.rule.Quantity.{greatest_quantity};
ghost use Rattle.qos.specs.rule.Container.{set_amount, limit_of, request_of, requested, RequestEqualsLimit};
ghost use Rattle.qos.specs.rule.Container.{IsGuaranteed, HasRequestOrLimit, HasSomeRequestOrLimit};
ghost use Rattle.qos.specs.rule.Pod.{as_one};

use manifest::{ContainerSpec, Resource, Resources};
use quantity::Quantity;

/// An amount in thousandths, where it is set: a zero counts as unset.
pub(crate) fn set_amount(amount: Option<Quantity>) -> Option<u128>
    ensures value { result ≡ set_amount amount }
    ensures bound { IfSome result (λ n. n ≤ greatest_quantity) }
{
    match amount {
        Some(amount) if amount.milli() != 0 => Some(amount.milli()),
        _ => None,
    }
}

/// The limit of the resource of a container with these resources, in thousandths.
fn limit_in(resources: Resources, resource: Resource) -> Option<u128>
    ensures value { result ≡ limit_of (as_one resources) resource }
    ensures bound { IfSome result (λ n. n ≤ greatest_quantity) }
{
    set_amount(resources.limits().of(resource))
}

/// The request of the resource of a container with these resources, in thousandths: its limit where it has no request.
fn request_in(resources: Resources, resource: Resource) -> Option<u128>
    ensures value { result ≡ request_of (as_one resources) resource }
    ensures bound { IfSome result (λ n. n ≤ greatest_quantity) }
{
    match set_amount(resources.requests().of(resource)) {
        Some(request) => Some(request),
        None => limit_in(resources, resource),
    }
}

/// What a container with these resources requests of the resource, in thousandths; 0 where it requests none.
pub(crate) fn requested_in(resources: Resources, resource: Resource) -> u128
    ensures value { result ≡ requested resource (as_one resources) }
    ensures bound { result ≤ greatest_quantity }
{
    request_in(resources, resource).unwrap_or(0)
}

/// The container's limit of the resource, in thousandths.
fn limit_of(container: &ContainerSpec, resource: Resource) -> Option<u128>
    ensures { result ≡ limit_of container.now resource }
{
    limit_in(container.resources, resource)
}

/// The container's request of the resource, in thousandths: its limit where it has no request.
fn request_of(container: &ContainerSpec, resource: Resource) -> Option<u128>
    ensures { result ≡ request_of container.now resource }
{
    request_in(container.resources, resource)
}

/// What the container requests of the resource, in thousandths; 0 where it requests none.
pub(crate) fn requested(container: &ContainerSpec, resource: Resource) -> u128
    ensures value { result ≡ requested resource container.now }
    ensures bound { result ≤ greatest_quantity }
{
    requested_in(container.resources, resource)
}

/// Whether the container has a limit of the resource, and its request equals it.
fn request_equals_limit(container: &ContainerSpec, resource: Resource) -> bool
    ensures { IsTrue result ↔ RequestEqualsLimit resource container.now }
{
    match limit_of(container, resource) {
        Some(limit) => request_of(container, resource) == Some(limit),
        None => false,
    }
}

/// Whether that is so of cpu and of memory.
#[tactic(auto, unfolding(crate::specs::rule::Container::IsGuaranteed))]
pub(crate) fn is_guaranteed(container: &ContainerSpec) -> bool
    ensures { IsTrue result ↔ IsGuaranteed container.now }
{
    request_equals_limit(container, Resource::Cpu)
        && request_equals_limit(container, Resource::Memory)
}

/// Whether a request or a limit of the resource is written for the container: a limit gives a
/// request too.
fn has_request_or_limit(container: &ContainerSpec, resource: Resource) -> bool
    ensures { IsTrue result ↔ HasRequestOrLimit resource container.now }
{
    request_of(container, resource).is_some()
}

/// Whether that is so of cpu or of memory.
pub(crate) fn has_some_request_or_limit(container: &ContainerSpec) -> bool
    ensures { IsTrue result ↔ HasSomeRequestOrLimit container.now }
{
    has_request_or_limit(container, Resource::Cpu)
        || has_request_or_limit(container, Resource::Memory)
}
