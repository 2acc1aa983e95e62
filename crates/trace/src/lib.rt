//! The trace that a text says, read line by line, or the text's first faulty line.
//!
//! The module `Trace` of `specs/` defines it line by line (`line_at`): what a line says depends on the lines before it
//! alone, and on the format. A text says a trace, or it has a first faulty line with that line's first fault, and never
//! both.
//!
//! ```text
//! a line:  length -> JSON -> kind -> its place -> what it says by itself -> beside the lines before it
//! ```
//!
//! [`read_trace`] answers exactly that, or that memory was refused. It reads a text in windows, each line of a window
//! beside the pods that there were before it, so that [`read_trace_by_workers`] can have the lines of one window read
//! by several threads; then the lines are taken one after the other, and what was read ahead beside other pods is read
//! again. A tick line of the common shape is read from a tape of its tokens, without a value in between (`tape.rt`);
//! all others are read through a JSON value (`tick.rt`), by the same definition.
#![tactic(auto)]

mod ahead;
mod by_pod;
pub mod laws;
mod noted;
mod placing;
mod pod;
mod reading;
mod slots;
mod tape;
mod text;
mod tick;
mod trace_so_far;
mod windows;
mod words;

pub use line_faults::{FaultKind, LineFault};
pub use node_config::{Format, NodeConfig, Version};
pub use text::{read_trace, read_trace_by_workers};
pub use trace_so_far::Trace;
