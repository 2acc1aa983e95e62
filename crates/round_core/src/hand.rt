//! What a worker of a round holds.

/// What a worker holds: nothing, or the piece with this number, which it has updated or not.
#[derive(Clone, Copy, Debug, PartialEq, Eq)]
pub enum Hand {
    Empty,
    Taken(usize),
    Updated(usize),
}
