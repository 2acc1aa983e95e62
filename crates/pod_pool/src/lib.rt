//! A pool of workers that update the pieces of a round. Each is dealt a deque of its own, with a permit at each
//! deque; it takes pieces from its own and steals from the others, takes the ticks that wait into their statuses,
//! enters each once in the book, and keeps it. When all have ended the permits go back to their deques, what is left in
//! these is finished, and what the workers keep is put together, in order. All memory but that of the updates is taken
//! before the first piece is dealt.
//!
//! ```text
//! pieces ──deal──> deque 0 ──pop──> worker 0 ──┐ update, enter, keep
//!                  deque 1 ──pop──> worker 1 ──┤
//!                     ^                        │
//!                     └──────── steal ─────────┘ ──settle, gather──> pieces, by number; book
//! ```
//!
//! [`update_all`] promises what one thread would have done: the pieces it gives back are those that went in, each with
//! all its ticks and under its number, and the book has the sum of what their rounds add. That each piece is taken
//! once, by its owner or by one thief, follows from the deques' permits (`piece_deques`), and not from a count at the
//! end; that all are updated when the workers have ended follows from the last look into each deque (`settle`).
//!
//! What a worker does with a piece is said in `worker_results`; how workers are made ready, dealt, run and gathered in
//! `pool_workers`. Here these steps are put one behind the other.
//!
//! A refused update or missing room ends the round with a fault that gives the piece back. A `pod_piece::Gate` makes
//! each update: the program's counts ticks, those of tests hold updates back, so that thefts can be made to happen.
//!
//! A worker finishes the piece that it has before it takes another, so its hand is empty at each pop and steal. It has
//! a permit of its own deque too, and passes over it. It ends when it has found its own deque and each other one
//! without a piece, or where an update was refused. Where there are fewer pieces than workers, as many workers run as
//! there are pieces, one at least.
//!
//! `round_core` says what is true of each round by its events. Which of them a step of the threads is, for worker w and
//! the deque of worker v, this list says to a reader; no clause ties a run of threads to a list of events, since what
//! is proved of threads is proved by the rule of the deques:
//!
//! ```text
//! push, before the threads start (`deal`)                             part of the deal
//! pop that finds a piece (`empty_own`)                                Pop(v)
//! steal that finds a piece, v is not w (`empty_other`)                Steal(w, v)
//! pop or steal that finds nothing, a steal that is tried anew         none
//! a permit is made or taken back (`permit_slot`, `absorb`)            none
//! update of a piece by all ticks that wait for it (`finish`)          Update(w)
//! a hold of the lock, in which its round is entered (`finish`)        Enter(w)
//! a hold of the lock, in which the book is full (`finish`)            none: the piece is uncounted
//! pop, update and entry by the caller, after the joins (`drain`)      Pop(v), Update(v), Enter(v)
//! entry of an uncounted piece, after the joins (`settle`)             Enter(w), of the worker that kept it
//! ```
//!
//! It is not promised that the work runs on several threads, since the system may start fewer, and those that run do
//! the rest; nor that it ends, since a thread may wait for the lock, for another thread, or for a steal that is tried
//! anew.
#![tactic(auto)]

mod fault;
pub mod laws;
mod pool;

pub use fault::PoolFault;
pub use pool::update_all;
pub use pool_workers::Spawner;
pub use worker_results::update_waiting;
