//! Eviction thresholds over time: when a threshold on a signal is active, and when it is due.
//!
//! A `Watch` takes the samples of its signal one after the other and keeps none of them. What it
//! answers is defined in `specs/` over the whole list of samples.
#![tactic(auto)]

pub mod laws;
mod watch;

pub use watch::Watch;
