//! A step of a simulated round.

/// A step of a simulated round. Workers are numbered from 0.
#[derive(Clone, Copy, Debug, PartialEq, Eq)]
pub enum Step {
    /// The worker takes the first pod of its own deque.
    Pop(usize),
    /// A worker takes the first pod of another's deque.
    Steal { thief: usize, owner: usize },
    /// The worker updates the pod in its hand.
    Update(usize),
    /// The worker enters the pod in its hand in the book of events.
    Enter(usize),
}
