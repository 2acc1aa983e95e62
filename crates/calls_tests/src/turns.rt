//! The updates of a gate, by pod.

use std::alloc::{AllocError, Global};
use std::sync::atomic::{AtomicU64, Ordering};

/// How often an update of each pod has begun or ended, by its place among those that are present: it begins where that
/// is even, and ends where it is odd.
#[derive(Drop)]
pub(crate) struct Turns {
    calls: Vec<AtomicU64>,
    disordered: AtomicU64,
}

fn zeros(alloc: Global, count: usize) -> Result<Vec<AtomicU64>, AllocError> {
    let mut counts = Vec::new(alloc);
    for _ in 0..count {
        counts.push(AtomicU64::new(0))?;
    }
    Ok(counts)
}

impl Turns {
    /// No call of this many pods.
    pub(crate) fn new(alloc: Global, pods: usize) -> Result<Turns, AllocError> {
        Ok(Turns {
            calls: zeros(alloc, pods)?,
            disordered: AtomicU64::new(0),
        })
    }

    /// Counts a call, and whether it came out of its turn.
    fn count(&self, pod: usize, turn: u64) {
        let in_turn = match self.calls.get(pod) {
            Some(calls) => calls.fetch_add(1, Ordering::SeqCst) % 2 == turn,
            None => false,
        };
        if !in_turn {
            self.disordered.fetch_add(1, Ordering::SeqCst);
        }
    }

    /// An update of the pod begins.
    pub(crate) fn begin(&self, pod: usize) {
        self.count(pod, 0);
    }

    /// It has ended.
    pub(crate) fn end(&self, pod: usize) {
        self.count(pod, 1);
    }

    /// Whether each call came in its turn, and no update is under way.
    fn are_in_order(&self) -> bool {
        self.disordered.load(Ordering::SeqCst) == 0
            && self
                .calls
                .iter()
                .all(|calls| calls.load(Ordering::SeqCst) % 2 == 0)
    }

    /// Whether so many updates of each pod began and ended, in turn, and none of another pod.
    pub(crate) fn are_each(&self, updates: u64) -> bool {
        self.are_in_order()
            && self.calls.iter().all(|calls| calls.load(Ordering::SeqCst)
                == updates.saturating_mul(2))
    }

    /// How many updates began and ended, those of each pod in turn; `None` where some did not.
    pub(crate) fn updates(&self) -> Option<u64> {
        if !self.are_in_order() {
            return None;
        }
        let mut calls = 0u64;
        for of_pod in self.calls.iter() {
            calls = calls.saturating_add(of_pod.load(Ordering::SeqCst));
        }
        Some(calls / 2)
    }
}
