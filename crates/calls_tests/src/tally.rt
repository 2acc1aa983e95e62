//! What counts updates.

use crate::turns::Turns;
use observations::MOST_PODS;
use std::alloc::{AllocError, Global};
use std::sync::atomic::{AtomicU64, Ordering};

/// Counts the updates, and those that begin while others are under way.
#[derive(Drop)]
pub(crate) struct Tally {
    turns: Turns,
    under_way: AtomicU64,
    overlaps: AtomicU64,
}

impl Tally {
    /// No update was made yet.
    pub(crate) fn new(alloc: Global) -> Result<Tally, AllocError> {
        Ok(Tally {
            turns: Turns::new(alloc, MOST_PODS)?,
            under_way: AtomicU64::new(0),
            overlaps: AtomicU64::new(0),
        })
    }

    /// How many updates there were, if each began and ended once.
    pub(crate) fn updates(&self) -> Option<u64> {
        self.turns.updates()
    }

    /// How many of them began while others were under way.
    pub(crate) fn overlaps(&self) -> u64 {
        self.overlaps.load(Ordering::SeqCst)
    }

    /// The update of the pod with the number begins.
    pub(crate) fn begin(&self, pod: usize) {
        self.turns.begin(pod);
        if self.under_way.fetch_add(1, Ordering::SeqCst) > 0 {
            self.overlaps.fetch_add(1, Ordering::SeqCst);
        }
    }

    /// It has ended.
    pub(crate) fn end(&self, pod: usize) {
        self.under_way.fetch_sub(1, Ordering::SeqCst);
        self.turns.end(pod);
    }
}
