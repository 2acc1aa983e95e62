//! What a kubelet watches for eviction: its signals, and the thresholds on them.
#![tactic(auto)]

mod by_signal;
pub mod laws;
mod signal;
mod threshold;

pub use by_signal::BySignal;
pub use signal::Signal;
pub use threshold::{Threshold, ThresholdKind};
