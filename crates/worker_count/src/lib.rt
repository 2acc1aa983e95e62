//! How many workers a replay may have: from 1 to this many. Their number never changes the report.
#![tactic(auto)]

/// The greatest number of workers that a replay may have.
pub const MOST_WORKERS: usize = 64;
