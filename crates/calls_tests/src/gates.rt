//! What holds updates until others stand beside them.

ghost use Rattle.std.specs.Prelude.{◌<◌};

use crate::turns::Turns;
use std::alloc::{AllocError, AllocGlobal};
use std::process::Abort;
use std::sync::atomic::{AtomicU64, Ordering};
use std::thread;
use std::time::{Clock, Duration};

/// An update that waits for another gives up after this many looks: some 15 seconds.
const LOOKS: u64 = 100_000;

/// Waits until this many are counted, and says whether they ever were. It gives up early where another update did.
fn is_reached(clock: &impl Clock, count: &AtomicU64, wanted: u64, missed: &AtomicU64) -> bool {
    let pause = Duration::from_micros(100);
    for _ in 0..LOOKS {
        if count.load(Ordering::SeqCst) >= wanted {
            return true;
        }
        if missed.load(Ordering::SeqCst) > 0 {
            return false;
        }
        thread::sleep(clock, pause);
    }
    false
}

/// Holds each update until as many stand in the gate at once as there are workers, and counts them by pod.
#[derive(Drop)]
pub(crate) struct Meeting<'a, C> {
    clock: &'a C,
    workers: u64,
    arrivals: AtomicU64,
    missed: AtomicU64,
    turns: Turns,
    ghost some: { 0 < workers },
}

impl<'a, C: AllocGlobal + Clock> Meeting<'a, C> {
    /// Of this many workers and pods.
    pub(crate) fn new(
        clock: &'a C,
        workers: usize,
        pods: usize,
    ) -> Result<Meeting<'a, C>, AllocError>
        requires { 0 < workers }
    {
        Ok(Meeting {
            clock,
            workers: workers as u64,
            arrivals: AtomicU64::new(0),
            missed: AtomicU64::new(0),
            turns: Turns::new(clock.alloc(), pods)?,
        })
    }

    /// No update gave up, and each pod has entered and left this many times in turn.
    pub(crate) fn expect(&self, rt: &impl Abort, times: u64) {
        let workers = self.workers;
        assert!(rt;
            self.missed.load(Ordering::SeqCst) == 0,
            "an update stood alone, with {workers} workers"
        );
        assert!(rt;
            self.turns.are_each(times),
            "a pod did not enter and leave {times} times in turn, with {workers} workers"
        );
    }
}

impl<C: Clock> Meeting<'_, C> {
    /// The update of the pod with the number begins.
    pub(crate) fn begin(&self, pod: usize) {
        self.turns.begin(pod);
        let before = self.arrivals.fetch_add(1, Ordering::SeqCst);
        let wanted = (before / self.workers)
            .saturating_add(1)
            .saturating_mul(self.workers);
        if !is_reached(self.clock, &self.arrivals, wanted, &self.missed) {
            self.missed.fetch_add(1, Ordering::SeqCst);
        }
    }

    /// It has ended.
    pub(crate) fn end(&self, pod: usize) {
        self.turns.end(pod);
    }
}

/// The updates of the first and of the third pod wait for each other.
#[derive(Drop)]
pub(crate) struct Pair<'a, C> {
    clock: &'a C,
    first: AtomicU64,
    third: AtomicU64,
    missed: AtomicU64,
}

impl<'a, C> Pair<'a, C> {
    pub(crate) fn new(clock: &'a C) -> Pair<'a, C> {
        Pair {
            clock,
            first: AtomicU64::new(0),
            third: AtomicU64::new(0),
            missed: AtomicU64::new(0),
        }
    }

    /// Both came, and neither gave up.
    pub(crate) fn expect(&self, rt: &impl Abort) {
        let missed = self.missed.load(Ordering::SeqCst);
        assert_eq!(rt; missed, 0, "the first and the third pod did not meet");
        assert_eq!(rt; self.first.load(Ordering::SeqCst), 1);
        assert_eq!(rt; self.third.load(Ordering::SeqCst), 1);
    }
}

impl<C: Clock> Pair<'_, C> {
    /// The update of the pod with the number begins.
    pub(crate) fn begin(&self, pod: usize) {
        let (own, other) = match pod {
            0 => (&self.first, &self.third),
            2 => (&self.third, &self.first),
            _ => return,
        };
        own.fetch_add(1, Ordering::SeqCst);
        if !is_reached(self.clock, other, 1, &self.missed) {
            self.missed.fetch_add(1, Ordering::SeqCst);
        }
    }
}
