//! Quantities, percentages and durations, read as Kubernetes writes them.
#![tactic(auto)]

mod digits;
mod duration;
mod fault;
mod form;
pub mod laws;
mod limit;
mod number;
mod percent;
mod quantity;
mod suffix;

pub use duration::{END_OF_TIME, seconds_of};
pub use fault::QuantityFault;
pub use limit::Limit;
pub use percent::Percent;
pub use quantity::Quantity;
