//! What the program's arguments ask for.

use std::env::{Env, FillError};

/// What the program's arguments ask for.
#[derive(Clone, Copy)]
pub(crate) enum Job {
    Calls,
    CallsAndFolder,
}

/// The only argument.
const CALLS: &[u8] = b"calls";

impl Job {
    /// Returns `None` if the first argument is another one. Doesn't allocate, so that with `calls` the first
    /// allocation that fails is one of the calls.
    pub(crate) fn of_arguments(rt: &impl Env) -> Option<Job> {
        let mut room = [0u8; 8];
        match rt.arg(1, &mut room) {
            Err(FillError::NotPresent) => Some(Job::CallsAndFolder),
            Ok(length) if &room[..length] == CALLS => Some(Job::Calls),
            _ => None,
        }
    }
}
