//! What is read of manifests, as text.

use anyhow::Result;
use manifest::{Amounts, ContainerSpec, PodSpec, Probe, Resource};
use manifest_reader::{ManifestFault, read_pod};
use qos::{effective_request, qos_class};
use quantity::Quantity;
use serde_json::Value;
use std::alloc::{AllocError, Global};

/// Pieces of text, with something between each two.
#[derive(Drop)]
struct Pieces<'a> {
    text: String,
    between: &'a str,
}

impl Pieces<'_> {
    fn push(&mut self, piece: &str) -> Result<(), AllocError> {
        self.text.push_str(self.between)?;
        self.text.push_str(piece)
    }

    fn push_amount(
        &mut self,
        alloc: Global,
        word: &str,
        amount: Option<Quantity>,
    ) -> Result<(), AllocError> {
        let Some(amount) = amount else {
            return Ok(());
        };
        let piece = format!(in alloc; "  {word} {amount}")?;
        self.push(piece.as_str())
    }

    fn push_amounts(
        &mut self,
        alloc: Global,
        word: &str,
        amounts: Amounts,
    ) -> Result<(), AllocError> {
        let cpu = format!(in alloc; "{word} cpu")?;
        self.push_amount(alloc, cpu.as_str(), amounts.cpu)?;
        let memory = format!(in alloc; "{word} memory")?;
        self.push_amount(alloc, memory.as_str(), amounts.memory)?;
        let storage = format!(in alloc; "{word} storage")?;
        self.push_amount(alloc, storage.as_str(), amounts.ephemeral_storage)
    }

    fn push_probe(
        &mut self,
        alloc: Global,
        word: &str,
        probe: Option<Probe>,
    ) -> Result<(), AllocError> {
        let Some(probe) = probe else {
            return Ok(());
        };
        let (delay, period) = (probe.initial_delay_seconds(), probe.period_seconds());
        let timeout = probe.timeout_seconds();
        let (successes, failures) = (probe.success_threshold(), probe.failure_threshold());
        let piece = format!(in alloc;
            "  {word} delay {delay} period {period} timeout {timeout} successes {successes} failures {failures}"
        )?;
        self.push(piece.as_str())
    }

    fn push_container(
        &mut self,
        alloc: Global,
        container: &ContainerSpec,
    ) -> Result<(), AllocError> {
        let (role, name) = (container.role(), container.name.as_str());
        let piece = format!(in alloc; "{role:?} {name}")?;
        self.push(piece.as_str())?;
        self.push_amounts(alloc, "requests", container.resources.requests())?;
        self.push_amounts(alloc, "limits", container.resources.limits())?;
        let probes = container.probes;
        self.push_probe(alloc, "startup", probes.startup())?;
        self.push_probe(alloc, "liveness", probes.liveness())?;
        self.push_probe(alloc, "readiness", probes.readiness())
    }
}

/// The pod, its containers, and behind each its requests, limits and probes.
fn text_of(alloc: Global, pod: &PodSpec, between: &str) -> Result<String, AllocError> {
    let (namespace, name) = (pod.namespace.as_str(), pod.name.as_str());
    let (policy, priority) = (pod.policy, pod.priority);
    let grace = pod.grace_period_seconds.get();
    let text = format!(in alloc;
        "{namespace}/{name} {policy:?}, priority {priority}, grace {grace}"
    )?;
    let mut pieces = Pieces { text, between };
    for container in pod.containers.as_slice() {
        pieces.push_container(alloc, container)?;
    }
    Ok(pieces.text)
}

/// The class, and the effective requests in thousandths.
fn class_of(alloc: Global, pod: &PodSpec) -> Result<String, AllocError> {
    let class = qos_class(pod);
    let cpu = effective_request(pod, Resource::Cpu);
    let memory = effective_request(pod, Resource::Memory);
    let storage = effective_request(pod, Resource::EphemeralStorage);
    format!(in alloc; "{class:?}, requests cpu {cpu} memory {memory} storage {storage}")
}

/// The number of the fault, and its name with the field that has it.
fn fault_of(alloc: Global, fault: ManifestFault) -> Result<String, AllocError> {
    let number = fault.number();
    format!(in alloc; "{number} {fault:?}")
}

/// What is told of a manifest.
#[derive(Clone, Copy)]
pub(crate) enum Telling {
    /// What is read of it, in one line.
    Pod,
    /// The class and the effective requests.
    Class,
    /// What is read of it, line by line, and its class in the last line.
    Whole,
}

fn whole_of(alloc: Global, pod: &PodSpec) -> Result<String, AllocError> {
    let (lines, class) = (text_of(alloc, pod, "\n")?, class_of(alloc, pod)?);
    format!(in alloc; "{lines}\n{class}\n")
}

impl Telling {
    fn of(
        self,
        alloc: Global,
        read: &Result<PodSpec, ManifestFault>,
    ) -> Result<String, AllocError> {
        match read {
            Err(fault) => fault_of(alloc, *fault),
            Ok(pod) => match self {
                Telling::Pod => text_of(alloc, pod, ";"),
                Telling::Class => class_of(alloc, pod),
                Telling::Whole => whole_of(alloc, pod),
            },
        }
    }
}

/// What is told of the manifest of this text, or its fault.
pub(crate) fn told(alloc: Global, text: &str, telling: Telling) -> Result<String> {
    let value = Value::from_str(alloc, text)?;
    let read = read_pod(alloc, &value);
    drop(value);
    let told = telling.of(alloc, &read);
    drop(read);
    Ok(told?)
}
