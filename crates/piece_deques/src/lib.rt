//! Deques of pods' pieces, whose owner pushes and pops while thieves steal, and the rule that each of them keeps: which
//! pieces were pushed, and by which pass each piece that is gone was taken.
//!
//! A pass is the owner's end of a deque, or a permit of it. The rule is kept by the types of a deque's ends:
//!
//! - The numbers taken, in order, followed by those of the pieces still in the deque, are the numbers pushed.
//! - Each piece in it is one of the round, still to be updated.
//! - Each number taken stands in the tally of exactly one pass.
//!
//! The right to know the whole deque is cut into 65 parts, one for the permit of each of 64 workers and one for the
//! owner. A pass that has all parts and finds the deque empty knows that each number pushed was taken. Any other that
//! finds it empty knows that in some state that keeps the rule, and gives the pass this view, no piece is in it.
//! Lists of numbers are compared by their sums, however numbers are weighed: with 1 for the number 7 and 0 for each
//! other, the sum says how often 7 occurs.
#![tactic(auto)]

mod deque;
mod rule;

pub use deque::{
    Owner, Permit, Thief, new_permit, number_of, open, pop, push, return_permit, steal,
};
pub use rule::{Deal, Dealing, Tally};
