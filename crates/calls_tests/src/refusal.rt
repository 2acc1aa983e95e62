//! What refuses one update.

use std::sync::atomic::{AtomicU64, Ordering};

/// Refuses memory to the update that comes after this many.
#[derive(Drop)]
pub(crate) struct Refusal {
    after: u64,
    updates: AtomicU64,
}

impl Refusal {
    pub(crate) fn new(after: u64) -> Refusal {
        Refusal {
            after,
            updates: AtomicU64::new(0),
        }
    }

    /// Whether it refuses the update that comes now.
    pub(crate) fn comes(&self) -> bool {
        self.updates.fetch_add(1, Ordering::SeqCst) == self.after
    }
}
