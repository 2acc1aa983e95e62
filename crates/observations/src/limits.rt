//! How much a recorder may have seen.

/// The greatest number of ticks of a node.
pub const MOST_TICKS: usize = 20_000;

/// The greatest number of pods on a node.
pub const MOST_PODS: usize = 256;
