//! Effective requests.

ghost use Rattle.std.specs.Prelude.{◌≡◌, ◌≤◌, ◌*◌, length};
ghost use Rattle.manifest.specs.rule.Containers.{most_containers};
ghost use Rattle.quantity.specs.rule.Quantity.{greatest_quantity};
ghost use Rattle.qos.specs.rule.Requests.{requested_by_app_or_sidecar, requested_by_init, sum_of_apps_and_sidecars};
ghost use Rattle.qos.specs.rule.Requests.{greatest_of_inits, effective_request_of};

use crate::container::requested;
use manifest::{ContainerSpec, PodSpec, Resource, Role};

/// What the container requests, if it is an app container or a sidecar.
fn requested_by_app_or_sidecar(container: &ContainerSpec, resource: Resource) -> u128
    ensures value { result ≡ requested_by_app_or_sidecar resource container.now }
    ensures bound { result ≤ greatest_quantity }
{
    match container.role() {
        Role::Init => 0,
        Role::Sidecar | Role::App => requested(container, resource),
    }
}

/// What the container requests, if it is an init container.
fn requested_by_init(container: &ContainerSpec, resource: Resource) -> u128
    ensures { result ≡ requested_by_init resource container.now }
{
    match container.role() {
        Role::Init => requested(container, resource),
        Role::Sidecar | Role::App => 0,
    }
}

/// What the app containers and sidecars request together.
fn sum_of_apps_and_sidecars(containers: &[ContainerSpec], resource: Resource) -> u128
    requires { length containers.now ≤ most_containers }
    ensures { result ≡ sum_of_apps_and_sidecars resource containers.now }
{
    let mut sum = 0;
    for container in containers {
        sum += requested_by_app_or_sidecar(container, resource);
    }
    sum
}

/// The greatest request of an init container.
fn greatest_of_inits(containers: &[ContainerSpec], resource: Resource) -> u128
    ensures { result ≡ greatest_of_inits resource containers.now }
{
    let mut greatest = 0;
    for container in containers {
        greatest = requested_by_init(container, resource).max(greatest);
    }
    greatest
}

/// The pod's effective request of a resource, in thousandths: the greater of what its app containers
/// and sidecars request together and the greatest request of an init container.
/// (Kubernetes, "Init Containers" and "Sidecar Containers", "Resource sharing within containers".)
/// A zero amount counts as unset, and a limit without a request gives the request the limit's
/// value.
pub fn effective_request(pod: &PodSpec, resource: Resource) -> u128
    ensures { result ≡ effective_request_of resource pod.now.containers }
{
    let containers = pod.containers.as_slice();
    sum_of_apps_and_sidecars(containers, resource).max(greatest_of_inits(containers, resource))
}
