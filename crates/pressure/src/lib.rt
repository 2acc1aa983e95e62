//! Node conditions under pressure: whether a condition is true, and since when.
//!
//! A `Pressure` takes one observation after the other, whether its condition is met, and keeps none
//! of them. What it answers is defined in `specs/` over the whole list of observations.
#![tactic(auto)]

pub mod laws;
mod pressure;

pub use pressure::Pressure;
