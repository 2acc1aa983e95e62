//! What workers that steal from each other do in one round, over the numbers of the pieces alone: the pieces stand in
//! the workers' deques, are taken by their owner or by a thief, updated, and entered in the book of totals.
#![tactic(auto)]

mod hand;
pub mod laws;

pub use hand::Hand;
