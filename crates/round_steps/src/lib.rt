//! The steps of a simulated round, and the text of a steps file.
#![tactic(auto)]

mod fault;
pub mod laws;
mod lines;
mod reading;
mod spelling;
mod step;

pub use fault::{StepsFault, steps_fault_line, steps_status_of};
pub use reading::{LONGEST_STEPS_FILE, read_steps};
pub use step::Step;
