//! Why a tick was not taken.

use thiserror::Error;

/// Why a node did not take a tick or a pod, or has no report.
#[derive(Clone, Copy, Debug, PartialEq, Eq, Error)]
pub enum TickFault {
    /// An allocation failed. If it failed in a tick, the node is halted.
    #[error("out of memory")]
    OutOfMemory,
    /// The node is halted, since an earlier tick failed.
    #[error("halted")]
    Halted,
}
