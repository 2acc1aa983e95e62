//! How much happened: what the updates of pods add to the totals of a report.
//!
//! A pod's tick has an entry, the number of its events and of the orders among them. A round of a pod, one tick or
//! many, adds up the entries of its ticks ([`Totals::of_round`]). Each adds little, since a pod has few containers, and
//! a round's ticks are at different seconds: so the sums of a node stay far below what a number holds.
#![tactic(auto)]

mod totals;

pub use totals::{Entry, Totals};
