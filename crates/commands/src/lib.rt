//! What the program's words ask for.
#![tactic(auto)]

mod fault;
mod job;
mod program;

pub use fault::UsageFault;
pub use job::{Job, job_of};
pub use node_config::Format;
