//! The requests and limits of a pod's containers, from tick to tick.

ghost use Rattle.std.specs.Prelude.{◌≡◌, length, if◌then◌else◌, IfOk};
ghost use Rattle.qos.specs.rule.Resized.{resized};
ghost use Rattle.pod_piece.specs.rule.Status.{requests_of};
ghost use Rattle.pod_piece.specs.state.Resources.{first_resources, resized_by};

use crate::status::EffectiveRequests;
use manifest::{ContainerSpec, PodSpec, Resources};
use observations::{Resize, resized_to};
use std::alloc::{AllocError, Global};

/// The requests and limits that the manifest gives its containers.
pub(crate) fn first_resources(
    alloc: Global,
    containers: &[ContainerSpec],
) -> Result<Vec<Resources>, AllocError>
    ensures { IfOk result (λ all. all.items ≡ first_resources containers.now) }
{
    let mut all = Vec::with_capacity(alloc, containers.len())?;
    for container in containers {
        all.push(container.resources)?;
    }
    Ok(all)
}

/// Gives each container that a tick resizes its new requests and limits.
fn resize_each(all: &mut Vec<Resources>, resizes: &[Resize])
    ensures { all.new.items ≡ resized_by resizes.now 0 all.old.items }
{
    for number in 0..all.len() {
        let old = all[number];
        all[number] = resized_to(resizes, number).unwrap_or(old);
    }
}

/// Applies the resizes of a tick, if the tick counts, and then finds the pod's requests again.
pub(crate) fn resize_while(
    counts: bool,
    pod: &PodSpec,
    resources: &mut Vec<Resources>,
    requests: &mut EffectiveRequests,
    resizes: &[Resize],
)
    requires many { length resources.old.items ≡ length pod.now.containers }
    requires asked { requests.old ≡ requests_of (resized pod.now resources.old.items) }
    ensures now { resources.new.items
        ≡ (if counts then resized_by resizes.now 0 resources.old.items else resources.old.items) }
    ensures asked { requests.new ≡ requests_of (resized pod.now resources.new.items) }
{
    if counts && !resizes.is_empty() {
        resize_each(resources, resizes);
        *requests = EffectiveRequests::of(pod, resources);
    }
}
