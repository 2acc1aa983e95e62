//! The lines of events, and the words of evictions, as `docs/report.md` writes them.

use containers::PodEventKind;
use event_list::{Event, EventKind, Names, event_text, eviction_words};
use eviction::Eviction;
use manifest::MaxRestartDelay;
use node_signals::{NodeCondition, NodeEvent, ThresholdKey};
use phase::Phase;
use pod_piece::{EvictOrder, PodPiece};
use pod_state::PodEvent;
use probes::Cause;
use signals::{Signal, ThresholdKind};
use std::alloc::Global;
use std::test::Fail;
use trace::{Format, read_trace};

/// A node with two pods of one container each.
const PODS: &str = r#"{"kind":"node","name":"n1"}
{"kind":"pod","pod":{"metadata":{"name":"p0"},"spec":{"containers":[{"name":"c"}]}}}
{"kind":"pod","pod":{"metadata":{"name":"p1"},"spec":{"containers":[{"name":"c"}]}}}
"#;

/// The second of two pods is evicted.
const EVICTION: Eviction = Eviction {
    pod: 1,
    order: EvictOrder {
        at: 7,
        signal: Signal::NodefsInodesFree,
        kind: ThresholdKind::Soft,
        grace: 30,
    },
};

const KEY: ThresholdKey = ThresholdKey {
    signal: Signal::MemoryAvailable,
    kind: ThresholdKind::Hard,
};

/// To the container with the number 0 of the first pod, to the pod, and to no container of the second pod.
const POD_EVENTS: [(usize, Option<usize>, PodEventKind, &str); 11] = [
    (
        0,
        Some(0),
        PodEventKind::Died {
            attempt: 2,
            exit_code: -1,
        },
        "event 7 default/p0 c died 2 -1\n",
    ),
    (
        0,
        Some(0),
        PodEventKind::Started { attempt: 3 },
        "event 7 default/p0 c started 3\n",
    ),
    (
        0,
        Some(0),
        PodEventKind::StartupPassed { attempt: 3 },
        "event 7 default/p0 c startup-passed 3\n",
    ),
    (
        0,
        Some(0),
        PodEventKind::Kill {
            attempt: 3,
            cause: Cause::Startup,
        },
        "event 7 default/p0 c kill 3 startup\n",
    ),
    (
        1,
        Some(0),
        PodEventKind::Kill {
            attempt: 0,
            cause: Cause::Liveness,
        },
        "event 7 default/p1 c kill 0 liveness\n",
    ),
    (
        0,
        Some(0),
        PodEventKind::Ready,
        "event 7 default/p0 c ready\n",
    ),
    (
        0,
        Some(0),
        PodEventKind::Unready,
        "event 7 default/p0 c unready\n",
    ),
    (
        1,
        Some(0),
        PodEventKind::Backoff { delay: 160 },
        "event 7 default/p1 c backoff 160\n",
    ),
    (
        0,
        Some(0),
        PodEventKind::Restart { attempt: 3 },
        "event 7 default/p0 c restart 3\n",
    ),
    (
        1,
        None,
        PodEventKind::Phase {
            phase: Phase::Failed,
        },
        "event 7 default/p1 - phase Failed\n",
    ),
    (2, Some(1), PodEventKind::Ready, "event 7   ready\n"),
];

const OTHER_EVENTS: [(EventKind, &str); 7] = [
    (
        EventKind::Node(NodeEvent::Threshold {
            key: KEY,
            active: true,
        }),
        "event 7 node threshold memory.available hard active\n",
    ),
    (
        EventKind::Node(NodeEvent::Threshold {
            key: KEY,
            active: false,
        }),
        "event 7 node threshold memory.available hard cleared\n",
    ),
    (
        EventKind::Node(NodeEvent::Pressure {
            condition: NodeCondition::DiskPressure,
            value: true,
        }),
        "event 7 node pressure DiskPressure True\n",
    ),
    (
        EventKind::Node(NodeEvent::Pressure {
            condition: NodeCondition::PidPressure,
            value: false,
        }),
        "event 7 node pressure PIDPressure False\n",
    ),
    (
        EventKind::Node(NodeEvent::Reclaim { key: KEY }),
        "event 7 node reclaim memory.available hard\n",
    ),
    (
        EventKind::Evicted(EVICTION),
        "event 7 node evicted default/p1 nodefs.inodesFree soft 30\n",
    ),
    (
        EventKind::Named(EVICTION),
        "event 7 node names default/p1 nodefs.inodesFree soft\n",
    ),
];

/// The pods, of which no tick has shown anything.
fn two_pods(alloc: Global) -> Result<Vec<PodPiece>, Fail> {
    let trace = read_trace(alloc, Format::Standard, PODS.as_bytes())?;
    let mut pieces = Vec::new(alloc);
    for pod in trace.pods.into_vec() {
        let number = pieces.len();
        pieces.push(PodPiece::new(alloc, number, pod, MaxRestartDelay::unset())?)?;
    }
    Ok(pieces)
}

#[test]
fn events_have_a_line_each(rt: HostRuntime) -> Result<(), Fail> {
    let pieces = two_pods(rt.alloc())?;
    for (number, container, kind, line) in POD_EVENTS {
        let kind = EventKind::Pod {
            number,
            event: PodEvent { container, kind },
        };
        let text = event_text(rt.alloc(), &Event { at: 7, kind }, Names::of(&pieces))?;
        assert_eq!(rt; text.as_str(), line);
    }
    for (kind, line) in OTHER_EVENTS {
        let text = event_text(rt.alloc(), &Event { at: 7, kind }, Names::of(&pieces))?;
        assert_eq!(rt; text.as_str(), line);
    }
    Ok(())
}

#[test]
fn names_have_the_keys_of_their_pods(rt: HostRuntime) -> Result<(), Fail> {
    let pieces = two_pods(rt.alloc())?;
    for (number, wanted) in [(0, "default/p0"), (1, "default/p1"), (2, "")] {
        let key = Names::of(&pieces).key(rt.alloc(), number)?;
        assert_eq!(rt; key.as_str(), wanted);
    }
    let words = eviction_words(rt.alloc(), "shop/web", EVICTION.order)?;
    assert_eq!(rt; words.as_str(), "shop/web nodefs.inodesFree soft 30");
    Ok(())
}
