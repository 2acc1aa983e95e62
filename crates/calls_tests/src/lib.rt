//! Tests of calls of a replay, of its ticks and of its rounds that no text of a case reaches: a caller from memory to
//! memory, inputs that are cut or stop, writers that stop; and what workers do in threads: how many updates stand side
//! by side, that each passes the gate once, that one which is refused ends the replay, that pods are stolen, and that
//! rounds of several ticks tell what their ticks tell one after the other. And a full book, and which ticks a node
//! takes.
#![tactic(auto)]

#[cfg(test)]
mod book_tests;
#[cfg(test)]
mod calls;
#[cfg(test)]
mod gates;
#[cfg(test)]
mod halting;
#[cfg(test)]
mod node_tests;
#[cfg(test)]
mod overlap_tests;
#[cfg(test)]
mod pods;
#[cfg(test)]
mod refusal;
#[cfg(test)]
mod refusal_tests;
#[cfg(test)]
mod replay_tests;
#[cfg(test)]
mod replays;
#[cfg(test)]
mod rounds;
#[cfg(test)]
mod scenario;
#[cfg(test)]
mod steal_tests;
#[cfg(test)]
mod stretch_tests;
#[cfg(test)]
mod stretches;
#[cfg(test)]
mod tally;
#[cfg(test)]
mod test_gate;
#[cfg(test)]
mod traces;
#[cfg(test)]
mod turns;
mod uses;
#[cfg(test)]
mod uses_tests;

pub use uses::{NoReport, report_of};
