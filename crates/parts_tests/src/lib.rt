//! Tests of calls of the parts of a replay that no text of a case reaches: the windows of a text, whose lines are
//! compared with those that `serde_json` reads, quantities made of numbers, readers and writers over memory, and the
//! lines of events.
#![tactic(auto)]

#[cfg(test)]
mod ahead;
#[cfg(test)]
mod event_tests;
#[cfg(test)]
mod line_tests;
#[cfg(test)]
mod line_texts;
#[cfg(test)]
mod quantity_tests;
#[cfg(test)]
mod replay_stream_tests;
#[cfg(test)]
mod said;
#[cfg(test)]
mod window_tests;
#[cfg(test)]
mod windows;
