//! What was seen of a call.

use pod_piece::Refused;
use std::alloc::{AllocError, AllocFailed};
use std::fmt;
use tick_round::TickFault;
use trace::LineFault;

/// What was seen of a call.
#[derive(Clone, Copy)]
pub(crate) enum Saw {
    /// It was made: no growth was refused that it needs.
    Done,
    /// A growth was refused, and this stood.
    Refused(&'static str),
    /// This is otherwise than it has to be.
    Wrong(&'static str),
}

/// What was seen of the call of this name.
#[derive(Clone, Copy)]
pub(crate) struct Line {
    pub(crate) name: &'static str,
    pub(crate) saw: Saw,
}

impl fmt::Display for Line {
    fn fmt<W: fmt::Write>(&self, f: &mut fmt::Formatter<W>) -> fmt::Result {
        let name = self.name;
        match self.saw {
            Saw::Done => write!(f, "{name}: done"),
            Saw::Refused(stood) => write!(f, "{name}: refused; {stood}"),
            Saw::Wrong(fault) => write!(f, "{name}: WRONG, {fault}"),
        }
    }
}

/// A call was not reached, or what it left could not be looked at: a growth of memory was refused there.
#[derive(Clone, Copy, Debug)]
pub(crate) struct Unprepared;

impl From<AllocError> for Unprepared {
    fn from(_: AllocError) -> Unprepared {
        Unprepared
    }
}

impl<T: Drop> From<AllocFailed<T>> for Unprepared {
    fn from(_: AllocFailed<T>) -> Unprepared {
        Unprepared
    }
}

impl From<LineFault> for Unprepared {
    fn from(_: LineFault) -> Unprepared {
        Unprepared
    }
}

impl From<TickFault> for Unprepared {
    fn from(_: TickFault) -> Unprepared {
        Unprepared
    }
}

impl From<Refused> for Unprepared {
    fn from(_: Refused) -> Unprepared {
        Unprepared
    }
}
