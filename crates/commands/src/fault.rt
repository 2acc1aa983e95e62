//! Why the program's arguments were rejected.

use clap::Error;
use thiserror::Error as ThisError;

/// Why the words ask for no job.
#[derive(Debug, Drop, ThisError)]
pub enum UsageFault {
    /// They are mistaken, or ask for help. The text has the details.
    #[error("{0}")]
    Refused(Error),
    /// An allocation failed.
    #[error("out of memory")]
    OutOfMemory,
}
