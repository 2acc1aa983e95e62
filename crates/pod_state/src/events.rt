//! The events of a pod in a tick: container by container, and then the pod's own.

ghost use Rattle.std.specs.Prelude.{◌≡◌, ◌≢◌, ◌↔◌, ◌++◌, ◌∷◌, [], Some, None, OnOk, IfOk};
ghost use Rattle.containers.specs.declared.pod_event_kind.PodEventKind.{PodEventKind};
ghost use Rattle.containers.specs.declared.pod_event_kind.PodEventKind.TheVariants as kinds;
ghost use Rattle.pod_state.specs.rule.Events.{restart_in, unless_leaving, coming_in, places, events_at, events_from};

use containers::{ContainerEvents, PodEventKind};
use phase::Phase;
use std::alloc::{AllocError, Global};

/// What happened to a pod, or to one of its containers.
#[derive(Clone, Copy, Debug, PartialEq, Eq)]
pub struct PodEvent {
    /// The container's number; none for an event of the pod.
    pub container: Option<usize>,
    /// What happened.
    pub kind: PodEventKind,
}

/// The restart event, in a pod that the tick leaves in this phase: none once the pod has ended.
fn restart_in(phase: Phase, restart: Option<PodEventKind>) -> Option<PodEventKind>
    ensures { result ≡ restart_in phase restart }
{
    match phase {
        Phase::Pending | Phase::Running => restart,
        Phase::Succeeded | Phase::Failed => None,
    }
}

/// The event, unless the pod is leaving: it is being deleted, or the node has ended it. (Kubernetes, "Pod Lifecycle",
/// "Termination of Pods".)
fn unless_leaving(leaving: bool, event: Option<PodEventKind>) -> Option<PodEventKind>
    ensures { result ≡ unless_leaving leaving event }
{
    if leaving { None } else { event }
}

/// What comes of a container's events in a pod that the tick leaves in this phase, and that is leaving or not.
fn coming_in(phase: Phase, leaving: bool, made: &ContainerEvents) -> ContainerEvents
    ensures { result ≡ coming_in phase leaving made.now }
{
    ContainerEvents {
        kill: unless_leaving(leaving, made.kill),
        backoff: unless_leaving(leaving, made.backoff),
        restart: unless_leaving(leaving, restart_in(phase, made.restart)),
        ..*made
    }
}

/// Adds the event of a place, if there is one.
fn add_event(
    events: &mut Vec<PodEvent>,
    container: Option<usize>,
    place: Option<PodEventKind>,
) -> Result<(), AllocError>
    ensures { OnOk result (events.new.items ≡ events.old.items ++ events_at container (place ∷ [])) }
{
    if let Some(kind) = place {
        events.push(PodEvent { container, kind })?;
    }
    Ok(())
}

/// Adds the events of the container with the number: place by place, where most ticks have none.
fn add_events(
    events: &mut Vec<PodEvent>,
    number: usize,
    made: &ContainerEvents,
) -> Result<(), AllocError>
    ensures { OnOk result (events.new.items ≡ events.old.items ++ events_at (Some number) (places made.now)) }
{
    let container = Some(number);
    add_event(events, container, made.gone)?;
    add_event(events, container, made.started)?;
    add_event(events, container, made.died)?;
    add_event(events, container, made.passed)?;
    add_event(events, container, made.kill)?;
    add_event(events, container, made.readiness)?;
    add_event(events, container, made.backoff)?;
    add_event(events, container, made.restart)?;
    Ok(())
}

/// The pod's new phase, if it is another than the old one.
pub(crate) fn phase_event(old: Phase, new: Phase) -> Option<PodEventKind>
    ensures { (kind : PodEventKind) → ((result ≡ Some kind) ↔ ((kind ≡ kinds.Phase new) × (old ≢ new))) }
{
    if old == new {
        None
    } else {
        Some(PodEventKind::Phase { phase: new })
    }
}

/// The events of a tick that makes this of the containers, leaves the pod in the phase, and has this event of the pod
/// itself, which is leaving or not.
pub(crate) fn events_of(
    alloc: Global,
    made: &[ContainerEvents],
    phase: Phase,
    leaving: bool,
    change: Option<PodEventKind>,
) -> Result<Vec<PodEvent>, AllocError>
    ensures { IfOk result (λ v. v.items ≡ events_from phase leaving 0 made.now ++ events_at None (change ∷ [])) }
{
    let mut events = Vec::new(alloc);
    for (number, container) in made.iter().enumerate() {
        add_events(&mut events, number, &coming_in(phase, leaving, container))?;
    }
    add_event(&mut events, None, change)?;
    Ok(events)
}
