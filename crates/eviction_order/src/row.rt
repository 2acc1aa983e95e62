//! What the order compares of a candidate.

ghost use Rattle.std.specs.Prelude.{◌≡◌};
ghost use Rattle.eviction_order.specs.rule.Rows.{exceeds, request_of, row_of};

use pod_piece::PodStatus;
use ranking::{requested, used};
use signals::Signal;

/// What the order compares of a candidate; amounts are in thousandths.
#[derive(Clone, Copy, Debug, PartialEq, Eq)]
pub struct CandidateRow {
    /// The pod's number.
    pub number: usize,
    /// Whether a tick recorded that it has no sample, and none came since.
    pub is_unsampled: bool,
    pub priority: i32,
    /// Its usage of what the signal measures, and 0 without a sample.
    pub usage: u128,
    /// Its request of that; none of inodes and processes.
    pub request: Option<u128>,
}

impl CandidateRow {
    /// Whether its usage is above its request; none of inodes and processes.
    pub fn exceeds(&self) -> Option<bool>
        ensures { result ≡ exceeds self.now }
    {
        let request = self.request?;
        Some(request < self.usage)
    }
}

/// The row of the pod with this status, by the signal. Whether images and containers have a file system of their own
/// decides what counts for the signals of file systems.
pub fn row_of(status: &PodStatus, signal: Signal, has_dedicated_imagefs: bool) -> CandidateRow
    ensures { result ≡ row_of signal has_dedicated_imagefs status.now }
{
    CandidateRow {
        number: status.number,
        is_unsampled: status.usage.is_unsampled,
        priority: status.priority,
        usage: used(&status.usage.samples, signal, has_dedicated_imagefs),
        request: request_of(status, signal),
    }
}

/// The pod's request of what the signal measures; none of inodes and processes.
fn request_of(status: &PodStatus, signal: Signal) -> Option<u128>
    ensures { result ≡ request_of signal status.now }
{
    match signal {
        Signal::MemoryAvailable | Signal::NodefsAvailable | Signal::ImagefsAvailable => {
            Some(requested(&status.requests, signal))
        }
        Signal::NodefsInodesFree | Signal::ImagefsInodesFree | Signal::PidAvailable => None,
    }
}
