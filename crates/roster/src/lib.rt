//! The pods of a trace by their numbers, and which of them are present, by their keys.
#![tactic(auto)]

mod hold;
mod roster;

pub use roster::Roster;
