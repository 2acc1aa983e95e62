//! What was recorded, and when: the words in which rules over recorded histories are stated.
//!
//! A history is the list of all records so far, oldest first; a record has its moment, in seconds,
//! and an entry of any type. A place is a number below the list's length, so a record keeps its
//! place whatever comes later. The definitions stand in `specs/`, and what one more record does to
//! them in `proofs/`.
#![tactic(auto)]

mod before;

pub use before::is_before;
