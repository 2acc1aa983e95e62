//! The workers of a round: what is made ready for them, how pieces, permits and shares are dealt, what each does in its
//! thread, and how all that they keep is gathered when they have ended. `pod_pool` puts these steps one behind the
//! other, and has the picture.
//!
//! ```text
//! make_buffers   all memory but that of the updates: deques, room for what workers keep
//! lay_out        a deque of pieces, a permit of each deque and a part of the share for each worker
//! run            each in a thread: it empties its own deque, then steals from the others
//! gather         permits go back, what is left in deques is finished, results are merged, pieces put in order
//! ```
//!
//! `lay_out` and all that follows take no memory but in the updates, so nothing else can be refused once pieces are
//! dealt.
#![tactic(auto)]

mod absorb;
mod buffers;
mod collect;
mod context;
mod contexts;
mod deal;
mod drain;
mod finished_worker;
mod gathered;
mod permits;
mod settle;
mod slot;
mod spawner;
mod take_apart;
mod threads;
mod work;

pub use buffers::make_buffers;
pub use context::WorkerContext;
pub use contexts::lay_out;
pub use gathered::{ResultBuffers, gather};
pub use slot::RoundBuffers;
pub use spawner::Spawner;
pub use threads::run;
