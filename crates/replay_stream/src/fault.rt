//! Why bytes did not move.

use thiserror::Error;

/// A read failed.
#[derive(Clone, Copy, Debug, PartialEq, Eq, Error)]
#[error("read failed")]
pub struct ReadFailed;

/// A write failed, or took none of some bytes.
#[derive(Clone, Copy, Debug, PartialEq, Eq, Error)]
#[error("write failed")]
pub struct WriteFailed;

/// Why an input was not read to its end.
#[derive(Clone, Copy, Debug, PartialEq, Eq, Error)]
pub enum ReadAllFault {
    /// The reader failed.
    #[error("read failed")]
    Read,
    /// The input is longer than the limit.
    #[error("input too long")]
    TooLong,
    /// There was no memory for the input.
    #[error("out of memory")]
    OutOfMemory,
}
