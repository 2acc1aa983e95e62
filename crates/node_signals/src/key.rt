//! The thresholds that a node may have.

ghost use Rattle.std.specs.Prelude.{◌≡◌, ◌<◌, slice_get, Some};
ghost use Rattle.node_signals.specs.rule.Keys.{serving_order};

use signals::{Signal, ThresholdKind};

/// One of the thresholds that a node may have: on a signal there is one of each kind at most.
#[derive(Clone, Copy, Debug, PartialEq, Eq)]
pub struct ThresholdKey {
    /// The signal that it is on.
    pub signal: Signal,
    /// Whether it is hard or soft.
    pub kind: ThresholdKind,
}

/// How many thresholds a node may have: of each signal one of each kind.
pub(crate) const THRESHOLDS: usize = 12;

/// The order in which the node acts on thresholds: signal after signal, and of one signal the hard threshold before the
/// soft one. (This profile's rule.)
const SERVING_ORDER: [ThresholdKey; THRESHOLDS] = [
    ThresholdKey {
        signal: Signal::MemoryAvailable,
        kind: ThresholdKind::Hard,
    },
    ThresholdKey {
        signal: Signal::MemoryAvailable,
        kind: ThresholdKind::Soft,
    },
    ThresholdKey {
        signal: Signal::NodefsAvailable,
        kind: ThresholdKind::Hard,
    },
    ThresholdKey {
        signal: Signal::NodefsAvailable,
        kind: ThresholdKind::Soft,
    },
    ThresholdKey {
        signal: Signal::ImagefsAvailable,
        kind: ThresholdKind::Hard,
    },
    ThresholdKey {
        signal: Signal::ImagefsAvailable,
        kind: ThresholdKind::Soft,
    },
    ThresholdKey {
        signal: Signal::NodefsInodesFree,
        kind: ThresholdKind::Hard,
    },
    ThresholdKey {
        signal: Signal::NodefsInodesFree,
        kind: ThresholdKind::Soft,
    },
    ThresholdKey {
        signal: Signal::ImagefsInodesFree,
        kind: ThresholdKind::Hard,
    },
    ThresholdKey {
        signal: Signal::ImagefsInodesFree,
        kind: ThresholdKind::Soft,
    },
    ThresholdKey {
        signal: Signal::PidAvailable,
        kind: ThresholdKind::Hard,
    },
    ThresholdKey {
        signal: Signal::PidAvailable,
        kind: ThresholdKind::Soft,
    },
];

/// The threshold at this place of the serving order.
pub(crate) fn key_at(place: usize) -> ThresholdKey
    requires { place < THRESHOLDS }
    ensures { slice_get serving_order place ≡ Some result }
{
    SERVING_ORDER[place]
}
