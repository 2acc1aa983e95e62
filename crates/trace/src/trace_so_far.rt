//! What the lines so far have given.

ghost use Rattle.std.specs.Prelude.{◌≡◌, Some};
ghost use Rattle.trace.specs.rule.TraceSoFar.{heeds, heeds_words};

use following::ListingOrder;
use lists::Sequence;
use manifest::PodSpec;
use node_config::{Format, NodeConfig, Version};
use observations::TickObs;
use roster::Roster;
use std::marker::Model;

/// The kinds of line.
#[derive(Clone, Copy, PartialEq, Eq)]
pub(crate) enum LineKind {
    Node,
    Pod,
    Tick,
    /// By which a pod leaves: of version 3 alone.
    Gone,
}

/// What a line that may come at its place is taken as.
#[derive(Clone, Copy)]
pub(crate) enum Turn {
    Node,
    /// A pod line, in a text of this version.
    Pod(Version),
    Tick,
    Gone,
}

/// What the lines so far have given, and what follows the pods' containers.
#[derive(Drop)]
pub(crate) struct TraceSoFar {
    pub(crate) format: Format,
    pub(crate) node: Option<NodeConfig>,
    pub(crate) roster: Roster,
    pub(crate) ticks: Sequence<TickObs>,
    pub(crate) following: ListingOrder,
}

impl Model for TraceSoFar {
    ghost use Rattle.following.specs.state.Followed.{HasFollowed};
    ghost use Rattle.trace.specs.rule.TraceSoFar.{TraceSoFar};
    ghost use Rattle.trace.specs.state.Pod.{container_counts};

    ghost Value = { TraceSoFar };

    ghost view = { λ r. record {
      format = r.format;
      node = r.node;
      roll = r.roster;
      ticks = r.ticks;
    } };

    ghost invariant = { λ r. HasFollowed r.ticks (container_counts r.roster.pods) r.following };
}

fn is_heeded_in(version: Version) -> bool
    ensures { result ≡ heeds_words (Some version) }
{
    matches!(version, Version::Three)
}

/// Returns whether the version reads the extended format's members of pod lines, tick lines and entries: only version 3
/// does.
pub(crate) fn heeds_words(so_far: &TraceSoFar) -> bool
    ensures { result ≡ heeds so_far.now }
{
    match &so_far.node {
        None => false,
        Some(node) => is_heeded_in(node.version),
    }
}

/// A whole trace: the node, its pods, and what was recorded of them tick by tick.
#[derive(Drop)]
pub struct Trace {
    pub node: NodeConfig,
    /// The pods, by number.
    pub pods: Sequence<PodSpec>,
    /// For each pod how many ticks come before its line; the pod is present from the next tick on.
    pub arrivals: Sequence<usize>,
    /// For each pod how many ticks come before the line by which it is gone, if it has one; it is not present from the
    /// next tick on.
    pub departures: Sequence<Option<usize>>,
    /// The ticks, in the order of their moments.
    pub ticks: Sequence<TickObs>,
}
