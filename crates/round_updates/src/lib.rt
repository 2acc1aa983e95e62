//! The updates of all pods in a round, on one thread: one pod after the other, or by workers that are played by a list
//! of steps. Each pod takes the ticks that wait for it into its status, and is entered once in the book.
//!
//! Both promise what workers in threads do (`pod_pool`): all pods with all their ticks, and the totals grown by what
//! the round of each adds. Which of the three a node takes its ticks by is said in `tick_round`.
#![tactic(auto)]

mod alone;
mod steps;

pub use alone::update_alone;
pub use steps::update_by_steps;
