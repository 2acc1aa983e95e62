//! What the traces of a workload are like.

use crate::words::{COMPACT, LONG_NAMES, RECORDED, SPACED, Words};
use kubelet_replay::Format;

/// What the traces of a workload are like.
#[derive(Clone, Copy)]
pub(crate) struct Shape {
    pub(crate) format: Format,
    /// The node's version of the trace, as its line says it.
    pub(crate) version: u64,
    pub(crate) pods: u64,
    /// The containers of each pod.
    pub(crate) containers: u64,
    /// The probes of each container.
    pub(crate) probes: &'static [&'static str],
    /// This many ticks an attempt is listed.
    pub(crate) attempt: u64,
    /// This many of these as running, the first ones.
    pub(crate) running: u64,
    /// What the probes found is listed in each tick of this many.
    pub(crate) probed: u64,
    /// The node is short of memory in one tick of this many.
    pub(crate) shortage: u64,
    /// A pod goes and another comes in one tick of this many, but never where it is 0.
    pub(crate) turnover: u64,
    pub(crate) words: &'static Words,
}

/// Two hundred and fifty-six pods, as many as a trace may have.
const BUSY_NODE: Shape = Shape {
    format: Format::Standard,
    version: 1,
    pods: 256,
    containers: 1,
    probes: &["readiness", "liveness"],
    attempt: 20,
    running: 15,
    probed: 1,
    shortage: 50,
    turnover: 0,
    words: &COMPACT,
};

/// Twenty pods, whose trace may have as many ticks as any.
const LONG_HISTORY: Shape = Shape {
    pods: 20,
    probed: 5,
    shortage: 4_000,
    ..BUSY_NODE
};

/// One pod with as many containers as one may have.
const WIDE_POD: Shape = Shape {
    pods: 1,
    containers: 16,
    probes: &["startup", "liveness", "readiness"],
    probed: 2,
    shortage: 20_000,
    words: &LONG_NAMES,
    ..BUSY_NODE
};

/// Thirty pods of two containers, as a recorder writes what a node shows.
const RECORDED_NODE: Shape = Shape {
    version: 2,
    pods: 30,
    containers: 2,
    attempt: 3_000,
    running: 2_999,
    probed: 6,
    shortage: 2_000,
    words: &RECORDED,
    ..BUSY_NODE
};

/// Pods that crash every other tick and are unready in between, while some go and others come.
const CRASH_LOOPS: Shape = Shape {
    format: Format::Extended,
    version: 3,
    pods: 60,
    attempt: 2,
    running: 1,
    shortage: 25,
    turnover: 20,
    ..BUSY_NODE
};

/// A trace that a program of another kind wrote.
const FOREIGN_WRITER: Shape = Shape {
    pods: 40,
    probed: 2,
    shortage: 100,
    words: &SPACED,
    ..BUSY_NODE
};

impl Shape {
    /// The shape of this name.
    pub(crate) fn of_name(name: &str) -> Option<Shape> {
        match name {
            "busy_node" => Some(BUSY_NODE),
            "long_history" => Some(LONG_HISTORY),
            "wide_pod" => Some(WIDE_POD),
            "recorded_node" => Some(RECORDED_NODE),
            "crash_loops" => Some(CRASH_LOOPS),
            "foreign_writer" => Some(FOREIGN_WRITER),
            _ => None,
        }
    }
}
