//! Effective requests of a pod whose containers were resized.

ghost use Rattle.std.specs.Prelude.{◌≡◌, ◌≤◌, length};
ghost use Rattle.manifest.specs.rule.Containers.{most_containers};
ghost use Rattle.quantity.specs.rule.Quantity.{greatest_quantity};
ghost use Rattle.qos.specs.rule.Container.{requested};
ghost use Rattle.qos.specs.rule.Pod.{as_one};
ghost use Rattle.qos.specs.rule.Requests.{for_app_or_sidecar, for_init, sum_of_apps_and_sidecars, greatest_of_inits};
ghost use Rattle.qos.specs.rule.Requests.{effective_request_of};
ghost use Rattle.qos.specs.rule.Resized.{with_resources};

use crate::container::requested_in;
use manifest::{ContainerSpec, Resource, Resources, Role};

/// What a container with these resources requests, if its role is that of an app container or a sidecar.
fn requested_by_app_or_sidecar(role: Role, resources: Resources, resource: Resource) -> u128
    ensures value { result ≡ for_app_or_sidecar role (requested resource (as_one resources)) }
    ensures bound { result ≤ greatest_quantity }
{
    match role {
        Role::Init => 0,
        Role::Sidecar | Role::App => requested_in(resources, resource),
    }
}

/// What a container with these resources requests, if its role is that of an init container.
fn requested_by_init(role: Role, resources: Resources, resource: Resource) -> u128
    ensures { result ≡ for_init role (requested resource (as_one resources)) }
{
    match role {
        Role::Init => requested_in(resources, resource),
        Role::Sidecar | Role::App => 0,
    }
}

/// What the app containers and sidecars request together, with these resources.
fn sum_of_apps_and_sidecars(
    containers: &[ContainerSpec],
    resources: &[Resources],
    resource: Resource,
) -> u128
    requires few { length containers.now ≤ most_containers }
    requires each { length resources.now ≡ length containers.now }
    ensures { result ≡ sum_of_apps_and_sidecars resource (with_resources containers.now resources.now) }
{
    let mut sum = 0;
    let mut rest = resources;
    for container in containers {
        if let [first, others @ ..] = rest {
            sum += requested_by_app_or_sidecar(container.role(), *first, resource);
            rest = others;
        }
    }
    sum
}

/// The greatest request of an init container, with these resources.
fn greatest_of_inits(
    containers: &[ContainerSpec],
    resources: &[Resources],
    resource: Resource,
) -> u128
    requires { length resources.now ≡ length containers.now }
    ensures { result ≡ greatest_of_inits resource (with_resources containers.now resources.now) }
{
    let mut greatest = 0;
    let mut rest = resources;
    for container in containers {
        if let [first, others @ ..] = rest {
            greatest = requested_by_init(container.role(), *first, resource).max(greatest);
            rest = others;
        }
    }
    greatest
}

/// The effective request of these containers, with these resources in place of their own.
pub(crate) fn effective_request_with(
    containers: &[ContainerSpec],
    resources: &[Resources],
    resource: Resource,
) -> u128
    requires few { length containers.now ≤ most_containers }
    requires each { length resources.now ≡ length containers.now }
    ensures { result ≡ effective_request_of resource (with_resources containers.now resources.now) }
{
    sum_of_apps_and_sidecars(containers, resources, resource).max(greatest_of_inits(
        containers, resources, resource,
    ))
}
