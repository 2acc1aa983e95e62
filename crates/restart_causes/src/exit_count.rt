//! Which exits count towards the delay of a restart.

ghost use Rattle.std.specs.Prelude.{◌≡◌, ◌<◌, ◌≤◌, ◌*◌, ◌^◌, ◌↔◌, ℕ, List, [], ◌∷◌, ◌++◌, length, Some, IsTrue};
ghost use Rattle.histories.specs.rule.Histories.{recorded};
ghost use Rattle.restarts.specs.rule.Exits.{Exit};
ghost use Rattle.restart_causes.specs.rule.ExitCounts.{IsExitCount, doublings_of, cap_of};
ghost use Rattle.restart_causes.specs.state.Counted.{IsCountOf};

use manifest::MaxRestartDelay;

/// A run of this many seconds or more begins the count anew.
const LONG_RUN: u64 = 600;

/// The delay of the second exit, in seconds, which each further one doubles.
const FIRST_DELAY: u64 = 10;

/// From this many doublings on the delay is above any maximum.
const MOST_DOUBLINGS: u64 = 5;

/// Which exits of a container count towards the delay of the restart after the last one.
#[derive(Clone, Copy, Debug, PartialEq, Eq)]
pub struct ExitCount {
    /// The number of the last exit among those that count, from 1.
    pub number: u64,
    /// The attempt with whose exit the count begins.
    pub first: u32,
    /// The moment of that exit, in seconds.
    pub since: u64,
    /// Whether that exit is the container's first of all; else its run was a long one.
    pub is_first_of_all: bool,
}

/// The count after the exit of this attempt, which came at this moment after a run of this many seconds. Exits come in
/// the order of their attempts.
pub fn counted(before: Option<ExitCount>, attempt: u32, at: u64, run_seconds: u64) -> ExitCount
    ensures { (attempts : List ℕ) (exits : List Exit) → length attempts ≡ length exits → length attempts ≤ attempt
        → IsCountOf attempts exits before
        → IsCountOf (attempts ++ attempt ∷ []) (exits ++ recorded at run_seconds ∷ []) (Some result) }
{
    match before {
        Some(before) => counted_on(before, attempt, at, run_seconds),
        None => first_count(attempt, at),
    }
}

/// The count after the first exit of all.
#[tactic(auto, using(crate::proofs::CountLemmas::first_exit))]
fn first_count(attempt: u32, at: u64) -> ExitCount
    ensures { (attempts : List ℕ) (exits : List Exit) (run : ℕ) → length attempts ≡ length exits → exits ≡ []
        → IsExitCount (attempts ++ attempt ∷ []) (exits ++ recorded at run ∷ []) result }
{
    ExitCount {
        number: 1,
        first: attempt,
        since: at,
        is_first_of_all: true,
    }
}

/// The count after a further exit.
fn counted_on(before: ExitCount, attempt: u32, at: u64, run_seconds: u64) -> ExitCount
    ensures { (attempts : List ℕ) (exits : List Exit) → length attempts ≡ length exits → length attempts ≤ attempt
        → IsExitCount attempts exits before
        → IsExitCount (attempts ++ attempt ∷ []) (exits ++ recorded at run_seconds ∷ []) result }
{
    if run_seconds < LONG_RUN {
        ExitCount {
            number: before.number.saturating_add(1),
            first: before.first,
            since: before.since,
            is_first_of_all: before.is_first_of_all,
        }
    } else {
        ExitCount {
            number: 1,
            first: attempt,
            since: at,
            is_first_of_all: false,
        }
    }
}

/// How often 10 s are doubled for the exit with this number; the first one has no delay.
pub fn doublings(number: u64) -> Option<u64>
    ensures { result ≡ doublings_of number }
{
    if number < 2 { None } else { Some(number - 2) }
}

/// The maximum delay, in seconds, if it is less than 10 s so often doubled.
pub fn capped_by(max_restart_delay: MaxRestartDelay, doublings: u64) -> Option<u64>
    ensures { result ≡ cap_of max_restart_delay doublings }
{
    if exceeds(max_restart_delay, doublings) {
        Some(max_restart_delay.get())
    } else {
        None
    }
}

/// Whether 10 s so often doubled are more than the maximum delay.
fn exceeds(max_restart_delay: MaxRestartDelay, doublings: u64) -> bool
    ensures { IsTrue result ↔ (max_restart_delay < 10 * 2 ^ doublings) }
{
    let greatest = max_restart_delay.get();
    if doublings < MOST_DOUBLINGS {
        greatest < FIRST_DELAY * 2u64.pow(doublings as u32)
    } else {
        true
    }
}
