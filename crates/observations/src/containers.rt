//! What a tick shows of a pod's containers, as it is kept in a block.

ghost use Rattle.std.specs.Prelude.{◌≡◌, length, map, IfOk, slice_get};
ghost use Rattle.observations.specs.state.PackedContainer.{shown_as};
ghost use Rattle.observations.specs.state.Pods.{containers_in};

use crate::container::ContainerObs;
use crate::packed_container::PackedContainer;
use std::alloc::{AllocError, Global};

/// The listings of containers, packed.
pub(crate) fn kept(
    alloc: Global,
    containers: &[ContainerObs],
) -> Result<Vec<PackedContainer>, AllocError>
    ensures { IfOk result (λ kept. map shown_as kept.items ≡ containers.now) }
{
    let mut kept = Vec::with_capacity(alloc, containers.len())?;
    for one in containers {
        kept.push(PackedContainer::of(*one))?;
    }
    Ok(kept)
}

/// Of one or two containers in place: few pods have more.
#[derive(Drop)]
pub(crate) enum Containers {
    One(PackedContainer),
    Two(PackedContainer, PackedContainer),
    More(Vec<PackedContainer>),
}

impl Containers {
    pub(crate) fn new(alloc: Global, containers: &[ContainerObs]) -> Result<Containers, AllocError>
        ensures { IfOk result (λ c. map shown_as (containers_in c) ≡ containers.now) }
    {
        match containers {
            [one] => Ok(Containers::One(PackedContainer::of(*one))),
            [one, two] => Ok(Containers::Two(PackedContainer::of(*one), PackedContainer::of(*two))),
            _ => Ok(Containers::More(kept(alloc, containers)?)),
        }
    }

    pub(crate) fn len(&self) -> usize
        ensures { result ≡ length (containers_in self.now) }
    {
        match self {
            Containers::One(_) => 1,
            Containers::Two(..) => 2,
            Containers::More(containers) => containers.len(),
        }
    }

    pub(crate) fn get(&self, number: usize) -> Option<PackedContainer>
        ensures { result ≡ slice_get (containers_in self.now) number }
    {
        match self {
            Containers::One(one) => [*one].get(number).copied(),
            Containers::Two(one, two) => [*one, *two].get(number).copied(),
            Containers::More(containers) => containers.get(number).copied(),
        }
    }
}
