//! Why a line of a trace is refused: the kinds of fault, by number and word, and which of them a reader's own fault is.
#![tactic(auto)]

mod fault;
mod text;

pub use fault::{FaultKind, LineFault, refused_if};
pub use text::check_text;
