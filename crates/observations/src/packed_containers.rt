//! What a tick shows of a pod's containers and of its use of the node, as it is kept.

ghost use Rattle.std.specs.Prelude.{◌≡◌, [], length, map, IfOk, IfSome, IsTrue, is_none, slice_get};
ghost use Rattle.std.specs.Prelude.{option_map};
ghost use Rattle.std.specs.List.{list_all};
ghost use Rattle.std.specs.Option.{option_flatten};
ghost use Rattle.observations.specs.state.PackedContainer.{shown_as};
ghost use Rattle.observations.specs.rule.Pods.{no_gates, no_words};
ghost use Rattle.observations.specs.state.Pods.{kept_in, sampling_in, words_in, resized_in};
ghost use Rattle.observations.specs.state.Whole.{memory_as, usage_as};
ghost use Rattle.observations.specs.declared.usage.Sampling.TheVariants.{Unsaid, Sampled};

use crate::container::ContainerObs;
use crate::containers::{Containers, kept};
use crate::packed_container::PackedContainer;
use crate::reason::EndReason;
use crate::resize::Resize;
use crate::usage::{Sampling, Usage};
use crate::whole::{WholeUsage, usage_of_memory};
use crate::words::PodWords;
use manifest::MOST_GATES;
use std::alloc::{AllocError, Global};

/// What a tick shows of a pod whose sample is in whole units.
#[derive(Drop)]
pub(crate) struct Whole {
    pub(crate) containers: Containers,
    pub(crate) usage: WholeUsage,
}

/// What a tick shows of a pod that it has any other sample of.
#[derive(Drop)]
pub(crate) struct Used {
    pub(crate) containers: Containers,
    pub(crate) usage: Usage,
}

/// What a tick shows of a pod on which it has a word, or that it resizes.
#[derive(Drop)]
pub(crate) struct Told {
    pub(crate) containers: Containers,
    pub(crate) sampling: Sampling,
    pub(crate) words: PodWords,
    pub(crate) resized: Vec<Resize>,
}

/// What a tick shows of a pod, in 32 bytes. Three containers or more take a block of their own, and so do a sample of
/// more than the memory, each word and each resize: all are rarer than one or two containers without a sample, or with
/// one of their memory.
#[derive(Drop)]
pub(crate) enum PackedContainers {
    One(PackedContainer),
    Two(PackedContainer, PackedContainer),
    OneWithMemory(PackedContainer, u64),
    TwoWithMemory(PackedContainer, PackedContainer, u32),
    Unused(Vec<PackedContainer>),
    Unsampled(Box<Containers>),
    Whole(Box<Whole>),
    Used(Box<Used>),
    Told(Box<Told>),
}

/// What is kept of containers if the tick has nothing of samples.
fn unused(alloc: Global, containers: &[ContainerObs]) -> Result<PackedContainers, AllocError>
    ensures containers { IfOk result (λ s. map shown_as (kept_in s) ≡ containers.now) }
    ensures sampling { IfOk result (λ s. sampling_in s ≡ Unsaid) }
    ensures words { IfOk result (λ s. words_in s ≡ no_words) }
    ensures resized { IfOk result (λ s. resized_in s ≡ []) }
{
    match containers {
        [one] => Ok(PackedContainers::One(PackedContainer::of(*one))),
        [one, two] => Ok(PackedContainers::Two(
            PackedContainer::of(*one),
            PackedContainer::of(*two),
        )),
        _ => Ok(PackedContainers::Unused(kept(alloc, containers)?)),
    }
}

/// What is kept without a block of containers and of a sample of so much memory alone.
fn in_place(containers: &[ContainerObs], memory: u64) -> Option<PackedContainers>
    ensures containers { IfSome result (λ s. map shown_as (kept_in s) ≡ containers.now) }
    ensures sampling { IfSome result (λ s. sampling_in s ≡ Sampled (memory_as memory)) }
    ensures words { IfSome result (λ s. words_in s ≡ no_words) }
    ensures resized { IfSome result (λ s. resized_in s ≡ []) }
{
    match containers {
        [one] => Some(PackedContainers::OneWithMemory(PackedContainer::of(*one), memory)),
        [one, two] => {
            let memory = u32::try_from(memory).ok()?;
            Some(PackedContainers::TwoWithMemory(
                PackedContainer::of(*one),
                PackedContainer::of(*two),
                memory,
            ))
        }
        _ => None,
    }
}

/// What is kept of containers and of a sample in whole units.
fn in_units(
    alloc: Global,
    containers: &[ContainerObs],
    usage: WholeUsage,
) -> Result<PackedContainers, AllocError>
    ensures containers { IfOk result (λ s. map shown_as (kept_in s) ≡ containers.now) }
    ensures sampling { IfOk result (λ s. sampling_in s ≡ Sampled (usage_as usage)) }
    ensures words { IfOk result (λ s. words_in s ≡ no_words) }
    ensures resized { IfOk result (λ s. resized_in s ≡ []) }
{
    if let Some(memory) = usage.memory_alone()
        && let Some(shown) = in_place(containers, memory)
    {
        return Ok(shown);
    }
    let containers = Containers::new(alloc, containers)?;
    let whole = Whole { containers, usage };
    Ok(PackedContainers::Whole(Box::new(alloc, whole)?))
}

/// What is kept of containers and of a sample.
fn sampled(
    alloc: Global,
    containers: &[ContainerObs],
    usage: Usage,
) -> Result<PackedContainers, AllocError>
    ensures containers { IfOk result (λ s. map shown_as (kept_in s) ≡ containers.now) }
    ensures sampling { IfOk result (λ s. sampling_in s ≡ Sampled usage) }
    ensures words { IfOk result (λ s. words_in s ≡ no_words) }
    ensures resized { IfOk result (λ s. resized_in s ≡ []) }
{
    if let Some(usage) = WholeUsage::of(usage) {
        return in_units(alloc, containers, usage);
    }
    let containers = Containers::new(alloc, containers)?;
    let used = Used { containers, usage };
    Ok(PackedContainers::Used(Box::new(alloc, used)?))
}

fn are_none(gates: &[Option<bool>]) -> bool
    ensures { result ≡ list_all is_none gates.now }
{
    gates.iter().all(|gate| gate.is_none())
}

/// Whether no condition has a status.
#[tactic(auto, using(crate::proofs::Gates::none_said))]
fn says_no_gate(gates: &[Option<bool>; MOST_GATES]) -> bool
    ensures { IsTrue result → gates.now ≡ no_gates }
{
    are_none(gates)
}

/// Whether the words are no words.
fn are_no_words(words: &PodWords) -> bool
    ensures { IsTrue result → words.now ≡ no_words }
{
    !words.deleting && words.failed.is_none() && says_no_gate(&words.gates)
}

impl PackedContainers {
    pub(crate) fn new(
        alloc: Global,
        containers: &[ContainerObs],
        sampling: Sampling,
    ) -> Result<PackedContainers, AllocError>
        ensures containers { IfOk result (λ s. map shown_as (kept_in s) ≡ containers.now) }
        ensures sampling { IfOk result (λ s. sampling_in s ≡ sampling) }
        ensures words { IfOk result (λ s. words_in s ≡ no_words) }
        ensures resized { IfOk result (λ s. resized_in s ≡ []) }
    {
        match sampling {
            Sampling::Unsaid => unused(alloc, containers),
            Sampling::Unsampled => {
                let containers = Containers::new(alloc, containers)?;
                Ok(PackedContainers::Unsampled(Box::new(alloc, containers)?))
            }
            Sampling::Sampled(usage) => sampled(alloc, containers, usage),
        }
    }

    /// What is kept of containers, of the sampling, of the tick's words, and of its resizes.
    pub(crate) fn told(
        alloc: Global,
        containers: &[ContainerObs],
        sampling: Sampling,
        words: PodWords,
        resized: Vec<Resize>,
    ) -> Result<PackedContainers, AllocError>
        ensures containers { IfOk result (λ s. map shown_as (kept_in s) ≡ containers.now) }
        ensures sampling { IfOk result (λ s. sampling_in s ≡ sampling) }
        ensures words { IfOk result (λ s. words_in s ≡ words) }
        ensures resized { IfOk result (λ s. resized_in s ≡ resized.items) }
    {
        if resized.is_empty() && are_no_words(&words) {
            return PackedContainers::new(alloc, containers, sampling);
        }
        let containers = Containers::new(alloc, containers)?;
        let told = Told {
            containers,
            sampling,
            words,
            resized,
        };
        Ok(PackedContainers::Told(Box::new(alloc, told)?))
    }

    /// How many containers there are.
    pub(crate) fn len(&self) -> usize
        ensures { result ≡ length (kept_in self.now) }
    {
        match self {
            PackedContainers::One(_) | PackedContainers::OneWithMemory(..) => 1,
            PackedContainers::Two(..) | PackedContainers::TwoWithMemory(..) => 2,
            PackedContainers::Unused(containers) => containers.len(),
            PackedContainers::Unsampled(containers) => containers.len(),
            PackedContainers::Whole(whole) => whole.containers.len(),
            PackedContainers::Used(used) => used.containers.len(),
            PackedContainers::Told(told) => told.containers.len(),
        }
    }

    /// What is kept of the container with the number, if there is one.
    pub(crate) fn get(&self, number: usize) -> Option<PackedContainer>
        ensures { result ≡ slice_get (kept_in self.now) number }
    {
        match self {
            PackedContainers::One(one) | PackedContainers::OneWithMemory(one, _) => [*one]
                .get(number)
                .copied(),
            PackedContainers::Two(one, two) | PackedContainers::TwoWithMemory(one, two, _) => {
                [*one, *two].get(number).copied()
            }
            PackedContainers::Unused(containers) => containers.get(number).copied(),
            PackedContainers::Unsampled(containers) => containers.get(number),
            PackedContainers::Whole(whole) => whole.containers.get(number),
            PackedContainers::Used(used) => used.containers.get(number),
            PackedContainers::Told(told) => told.containers.get(number),
        }
    }

    /// The sampling of the pod's use of the node.
    pub(crate) fn sampling(&self) -> Sampling
        ensures { result ≡ sampling_in self.now }
    {
        match self {
            PackedContainers::OneWithMemory(_, memory) => Sampling::Sampled(usage_of_memory(
                *memory,
            )),
            PackedContainers::TwoWithMemory(_, _, memory) => Sampling::Sampled(usage_of_memory(
                u64::from(*memory),
            )),
            PackedContainers::Whole(whole) => Sampling::Sampled(whole.usage.usage()),
            PackedContainers::Used(used) => Sampling::Sampled(used.usage),
            PackedContainers::Told(told) => told.sampling,
            PackedContainers::Unsampled(_) => Sampling::Unsampled,
            PackedContainers::One(_) | PackedContainers::Two(..) | PackedContainers::Unused(_) =>
                Sampling::Unsaid,
        }
    }

    /// The status that the tick gives of the condition that the pod's readiness gate with the number names, if it gives
    /// one.
    pub(crate) fn gate(&self, number: usize) -> Option<bool>
        ensures { result ≡ option_flatten (slice_get (words_in self.now).gates number) }
    {
        match self {
            PackedContainers::Told(told) => told.words.gates.get(number).copied().flatten(),
            _ => None,
        }
    }

    /// Whether the tick marks the pod as being deleted.
    pub(crate) fn deleting(&self) -> bool
        ensures { result ≡ (words_in self.now).deleting }
    {
        match self {
            PackedContainers::Told(told) => told.words.deleting,
            _ => false,
        }
    }

    /// The tick's resizes of the pod's containers.
    pub(crate) fn resizes(&self) -> &[Resize]
        ensures { result.now ≡ resized_in self.now }
    {
        match self {
            PackedContainers::Told(told) => told.resized.as_slice(),
            _ => &[],
        }
    }

    /// Why the tick reports that the node has ended the pod, if it does.
    pub(crate) fn failed(&self) -> Option<&EndReason>
        ensures { option_map (λ r. r.now) result ≡ (words_in self.now).failed }
    {
        match self {
            PackedContainers::Told(told) => told.words.failed.as_ref(),
            _ => None,
        }
    }
}
