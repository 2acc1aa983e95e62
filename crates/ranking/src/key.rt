//! A pod's place in the order of eviction, as a key.

ghost use Rattle.std.specs.Prelude.{◌≡◌};
ghost use Rattle.ranking.specs.state.Keys.{key_of};

use crate::amounts::{has_requests, ranks_unsampled_first, requested, used};
use pod_piece::PodStatus;
use signals::Signal;
use std::cmp::Reverse;

/// A pod's place in the order of eviction by one signal: the pod of the least key is evicted first.
/// (Kubernetes, "Node-pressure Eviction", "Pod selection for kubelet eviction".)
#[derive(Clone, Copy, PartialEq, Eq, PartialOrd, Ord)]
pub struct RankKey {
    /// Whether it has a sample, where pods without one come before all others.
    pub follows_unsampled: bool,
    /// Whether its usage is within its request, where pods request anything of this.
    pub within_request: bool,
    /// The pod's priority: the pod of the lower one is evicted first.
    pub priority: i32,
    /// Whether it has a sample, or none was reported missing.
    pub is_sampled: bool,
    /// By how much its usage is above its request, in thousandths.
    pub excess: Reverse<u128>,
    /// By how much its usage is below its request, in thousandths.
    pub shortfall: u128,
    /// The pod's number.
    pub number: usize,
}

/// The key of the pod with this status, by the signal. Whether images and containers have a file system of their own
/// decides what counts for the signals of file systems. Doesn't allocate.
pub fn rank_key(status: &PodStatus, signal: Signal, has_dedicated_imagefs: bool) -> RankKey
    ensures { result ≡ key_of signal has_dedicated_imagefs status.now }
{
    let used = used(&status.usage.samples, signal, has_dedicated_imagefs);
    let requested = requested(&status.requests, signal);
    let is_sampled = !status.usage.is_unsampled;
    RankKey {
        follows_unsampled: ranks_unsampled_first(signal) && is_sampled,
        within_request: has_requests(signal) && used <= requested,
        priority: status.priority,
        is_sampled,
        excess: Reverse(used.saturating_sub(requested)),
        shortfall: requested.saturating_sub(used),
        number: status.number,
    }
}
