//! The gates of these tests as one type, so that the calls that update pods are built for one.

use crate::gates::{Meeting, Pair};
use crate::refusal::Refusal;
use crate::tally::Tally;
use kubelet_replay::Gate;
use pod_piece::PodPiece;
use std::alloc::AllocError;
use std::time::Clock;

/// What a gate does beside the updates.
#[derive(Drop)]
enum Does<'g, 'c, C> {
    /// Nothing.
    Nothing,
    /// It holds each until as many stand in it as there are workers.
    Meets(&'g Meeting<'c, C>),
    /// It holds those of the first and of the third pod until both have begun.
    Pairs(&'g Pair<'c, C>),
    /// It counts them.
    Counts(&'g Tally),
    /// It refuses memory to one of them.
    Refuses(&'g Refusal),
}

/// A gate of these tests.
#[derive(Drop)]
pub(crate) struct TestGate<'g, 'c, C> {
    says_it_waits: bool,
    does: Does<'g, 'c, C>,
}

impl<'g, 'c, C> TestGate<'g, 'c, C> {
    /// It makes each update, and does nothing else.
    pub(crate) fn plain() -> TestGate<'g, 'c, C> {
        TestGate {
            says_it_waits: false,
            does: Does::Nothing,
        }
    }

    /// As many updates meet as there are workers.
    pub(crate) fn of_meeting(meeting: &'g Meeting<'c, C>) -> TestGate<'g, 'c, C> {
        TestGate {
            says_it_waits: true,
            does: Does::Meets(meeting),
        }
    }

    /// Two updates wait for each other.
    pub(crate) fn of_pair(pair: &'g Pair<'c, C>) -> TestGate<'g, 'c, C> {
        TestGate {
            says_it_waits: true,
            does: Does::Pairs(pair),
        }
    }

    /// Each update is counted, and no update waits: as many workers run as are worth their start, or all, however few
    /// updates there are, where it says that one may.
    pub(crate) fn of_tally(tally: &'g Tally, says_it_waits: bool) -> TestGate<'g, 'c, C> {
        TestGate {
            says_it_waits,
            does: Does::Counts(tally),
        }
    }

    /// Memory is refused to one update. All workers run, since it says that an update may wait; none does.
    pub(crate) fn of_refusal(refusal: &'g Refusal) -> TestGate<'g, 'c, C> {
        TestGate {
            says_it_waits: true,
            does: Does::Refuses(refusal),
        }
    }
}

impl<C: Clock> TestGate<'_, '_, C> {
    fn begin(&self, pod: usize) {
        match &self.does {
            Does::Nothing | Does::Refuses(_) => {}
            Does::Meets(meeting) => meeting.begin(pod),
            Does::Pairs(pair) => pair.begin(pod),
            Does::Counts(tally) => tally.begin(pod),
        }
    }

    fn end(&self, pod: usize) {
        match &self.does {
            Does::Nothing | Does::Pairs(_) | Does::Refuses(_) => {}
            Does::Meets(meeting) => meeting.end(pod),
            Does::Counts(tally) => tally.end(pod),
        }
    }

    /// Whether memory is refused to the update that comes now.
    fn refuses(&self) -> bool {
        match &self.does {
            Does::Refuses(refusal) => refusal.comes(),
            _ => false,
        }
    }
}

impl<C: Clock + Sync> Gate for TestGate<'_, '_, C> {
    ghost may_wait = { λ gate. gate.says_it_waits };

    fn waits(&self) -> bool {
        self.says_it_waits
    }

    fn update(&self, piece: &mut PodPiece) -> Result<(), AllocError> {
        if self.refuses() {
            return Err(AllocError);
        }
        let pod = piece.status().number;
        self.begin(pod);
        let updated = piece.update_in_place();
        self.end(pod);
        updated
    }
}
