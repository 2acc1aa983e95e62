//! A round that is simulated on one thread: the workers of a tick, each with a deque, update its pods by a list of
//! steps.
#![tactic(auto)]

mod played;
mod round;
mod table;
mod worker;

pub use played::{Played, update_played};
