//! Why a steps file was rejected.

ghost use Rattle.std.specs.Prelude.{◌≡◌, IfOk, string_bytes};
ghost use Rattle.round_steps.specs.state.Fault.{status, line_of};

use std::alloc::{AllocError, Global};
use thiserror::Error;

/// Why a text gave no steps.
#[derive(Clone, Copy, Debug, PartialEq, Eq, Error)]
pub enum StepsFault {
    /// The text has more than 1 MiB.
    #[error("input too long")]
    TooLong,
    /// The line of this number, from 1, is the first faulty one.
    #[error("steps line {0}")]
    Line(u64),
    /// An allocation failed.
    #[error("out of memory")]
    OutOfMemory,
}

/// The status with which the program ends: 1 for the length and memory, and 3 for a faulty line.
pub fn steps_status_of(fault: &StepsFault) -> u8
    ensures { result ≡ status fault.now }
{
    match fault {
        StepsFault::Line(_) => 3,
        StepsFault::TooLong | StepsFault::OutOfMemory => 1,
    }
}

/// The line that the program writes on standard error, without its newline.
pub fn steps_fault_line(alloc: Global, fault: &StepsFault) -> Result<String, AllocError>
    ensures { IfOk result (λ text. string_bytes text ≡ line_of fault.now) }
{
    match fault {
        StepsFault::TooLong => String::from_str(alloc, "input too long"),
        StepsFault::Line(number) => format!(in alloc; "steps line {number}"),
        StepsFault::OutOfMemory => String::from_str(alloc, "out of memory"),
    }
}
