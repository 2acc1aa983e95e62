//! What a worker does with a piece of a round: it takes it from a deque by a permit, takes the ticks that wait for it
//! into its status, enters it once in the book, and keeps it. And how what the workers keep comes together again, in
//! the order of the pieces' numbers.
//!
//! ```text
//! deque ──take──> piece ──update_waiting──> all its ticks are taken ──enter──> done, or uncounted: the book was full
//!                             └───────────> an update was refused ───────────> refused
//! ```
//!
//! By its type a worker's result is right at each moment: what it keeps as done are pieces of the round with all their
//! ticks, each update of which the gate has made, and the totals of its share are what their rounds add. So two results
//! are merged without a look at the pieces.
//!
//! Who takes which piece and when, the threads and the order of their steps are the concern of `pool_workers`. On one
//! thread `round_updates` does the same without deques, by [`update_waiting`] too.
#![tactic(auto)]

mod finish;
mod handle;
mod order;
mod round_gate;
mod worker_result;

pub use finish::update_waiting;
pub use handle::StealHandle;
pub use order::in_order;
pub use round_gate::RoundGate;
pub use worker_result::WorkerResult;
