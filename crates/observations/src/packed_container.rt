//! What a tick shows of one container, as it is kept.

ghost use Rattle.std.specs.Prelude.{◌≡◌};
ghost use Rattle.observations.specs.state.PackedContainer.{seen_as, outcome_of, shown_as};

use crate::container::ContainerObs;
use manifest::Outcome;
use state_diff::{CriState, Seen};

/// The state that a tick lists of a container, if it lists the container.
#[derive(Clone, Copy, Default)]
pub(crate) enum ListedState {
    #[default]
    Unlisted,
    Created,
    Running,
    Exited,
    Unknown,
}

/// The listing of an instance, or of none: its state, attempt and exit code.
fn listed(seen: Option<Seen>) -> (ListedState, u32, i32)
    ensures { seen_as result.0 result.1 result.2 ≡ seen }
{
    let Some(seen) = seen else {
        return (ListedState::Unlisted, 0, 0);
    };
    match seen.state {
        CriState::Created => (ListedState::Created, seen.attempt, 0),
        CriState::Running => (ListedState::Running, seen.attempt, 0),
        CriState::Exited => (ListedState::Exited, seen.attempt, seen.code.unwrap_or(0)),
        CriState::Unknown => (ListedState::Unknown, seen.attempt, 0),
    }
}

/// The result that a tick has of a probe, if it has one.
#[derive(Clone, Copy, Default)]
pub(crate) enum PackedResult {
    #[default]
    Absent,
    Success,
    Failure,
    Unknown,
}

impl PackedResult {
    fn of(outcome: Option<Outcome>) -> PackedResult
        ensures { outcome_of result ≡ outcome }
    {
        match outcome {
            None => PackedResult::Absent,
            Some(Outcome::Success) => PackedResult::Success,
            Some(Outcome::Failure) => PackedResult::Failure,
            Some(Outcome::Unknown) => PackedResult::Unknown,
        }
    }

    fn outcome(self) -> Option<Outcome>
        ensures { result ≡ outcome_of self }
    {
        match self {
            PackedResult::Absent => None,
            PackedResult::Success => Some(Outcome::Success),
            PackedResult::Failure => Some(Outcome::Failure),
            PackedResult::Unknown => Some(Outcome::Unknown),
        }
    }
}

/// What a tick shows of one container, in 12 bytes: a trace has millions of these. An attempt and an exit code where
/// none is listed are 0.
#[derive(Clone, Copy, Default)]
pub(crate) struct PackedContainer {
    attempt: u32,
    code: i32,
    state: ListedState,
    startup: PackedResult,
    liveness: PackedResult,
    readiness: PackedResult,
}

/// The instance of this state, attempt and exit code.
fn seen(state: ListedState, attempt: u32, code: i32) -> Option<Seen>
    ensures { result ≡ seen_as state attempt code }
{
    match state {
        ListedState::Unlisted => None,
        ListedState::Created => Some(Seen {
            attempt,
            state: CriState::Created,
            code: None,
        }),
        ListedState::Running => Some(Seen {
            attempt,
            state: CriState::Running,
            code: None,
        }),
        ListedState::Exited => Some(Seen {
            attempt,
            state: CriState::Exited,
            code: Some(code),
        }),
        ListedState::Unknown => Some(Seen {
            attempt,
            state: CriState::Unknown,
            code: None,
        }),
    }
}

/// This listing, with these results.
fn with_results(
    state: ListedState,
    attempt: u32,
    code: i32,
    results: [Option<Outcome>; 3],
) -> PackedContainer
    ensures seen { (shown_as result).seen ≡ seen_as state attempt code }
    ensures results { (shown_as result).results ≡ results }
{
    let [startup, liveness, readiness] = results;
    PackedContainer {
        attempt,
        code,
        state,
        startup: PackedResult::of(startup),
        liveness: PackedResult::of(liveness),
        readiness: PackedResult::of(readiness),
    }
}

impl PackedContainer {
    pub(crate) fn of(shown: ContainerObs) -> PackedContainer
        ensures { shown_as result ≡ shown }
    {
        let (state, attempt, code) = listed(shown.seen);
        with_results(state, attempt, code, shown.results)
    }

    pub(crate) fn shown(self) -> ContainerObs
        ensures { result ≡ shown_as self }
    {
        ContainerObs {
            seen: seen(self.state, self.attempt, self.code),
            results: [
                self.startup.outcome(),
                self.liveness.outcome(),
                self.readiness.outcome(),
            ],
        }
    }
}
