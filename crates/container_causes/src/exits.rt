//! The exits of a container as far as they count towards the delay of a restart.

ghost use Rattle.std.specs.Prelude.{◌≡◌, ◌≤◌, ◌↔◌, ℕ, ℤ, List, [], ◌∷◌, ◌++◌, length, Some, IfSome};
ghost use Rattle.histories.specs.rule.Histories.{IsFirstMoment};
ghost use Rattle.histories.specs.rule.TheOne.{IsTheOne};
ghost use Rattle.state_diff.specs.declared.seen.CriState.TheVariants.{Running};
ghost use Rattle.state_diff.specs.declared.differ.Differ.{Differ};
ghost use Rattle.state_diff.specs.rule.Instances.{ListedAs};
ghost use Rattle.state_diff.specs.state.Differ.{IsOfNewest, IsNewestRun, IsStateOf as IsDifferOf};
ghost use Rattle.state_diff.specs.state.Differ.{Accepts as DifferAccepts};
ghost use Rattle.restarts.specs.rule.Exits.{Exit};
ghost use Rattle.restart_causes.specs.state.Counted.{IsCountOf};
ghost use Rattle.containers.specs.declared.pod_event_kind.PodEventKind.TheVariants.{Died as ADied};
ghost use Rattle.containers.specs.rule.Ticks.{ContainerTick, listings};
ghost use Rattle.containers.specs.rule.Events.{IsGone, HasDied};
ghost use Rattle.container_causes.specs.state.Exits.{left, exited, last_exit_of, attempts_of, exits_of, IsCountKept};

use containers::PodEventKind;
use restart_causes::{ExitCount, counted};
use state_diff::Seen;

/// The exit of the newest instance.
#[derive(Clone, Copy, Debug, PartialEq, Eq)]
pub struct LastExit {
    pub attempt: u32,
    /// The moment of the exit, in seconds.
    pub at: u64,
    /// Its code; 137 of an instance that is no longer listed.
    pub code: i32,
}

/// An exit in a tick: the attempt, and how many seconds it had run.
#[derive(Clone, Copy, Debug, PartialEq, Eq)]
pub(crate) struct Leaving {
    attempt: u32,
    run: u64,
}

/// The attempt and code of an event, if it is a death.
fn death_of(event: Option<PodEventKind>) -> Option<(u32, i32)>
    ensures { (a : ℕ) (code : ℤ) → ((result ≡ Some (a, code)) ↔ (event ≡ Some (ADied a code))) }
{
    match event {
        Some(PodEventKind::Died { attempt, exit_code }) => Some((attempt, exit_code)),
        _ => None,
    }
}

/// The exit, at this moment, of an instance that is no longer listed; `start`: when it began to run, if it did.
fn left(death: Option<(u32, i32)>, start: Option<u64>, at: u64) -> Option<Leaving>
    ensures { result ≡ left death start at }
{
    let death = death?;
    let start = start.unwrap_or(at);
    Some(Leaving {
        attempt: death.0,
        run: at.saturating_sub(start),
    })
}

/// The exit of a listed instance after this run, if it has one.
fn exited(death: Option<(u32, i32)>, run: Option<u64>) -> Option<Leaving>
    ensures { result ≡ exited death run }
{
    let death = death?;
    let run = run?;
    Some(Leaving {
        attempt: death.0,
        run,
    })
}

/// The count after an exit of this tick, at this moment, if there is one.
fn count_exit(before: Option<ExitCount>, leaving: Option<Leaving>, at: u64) -> Option<ExitCount>
    ensures { (attempts : List ℕ) (exits : List Exit) → length attempts ≡ length exits
        → IfSome leaving (λ l. length attempts ≤ l.attempt) → IsCountOf attempts exits before
        → IsCountOf (attempts ++ attempts_of leaving) (exits ++ exits_of at leaving) result }
{
    match leaving {
        Some(leaving) => Some(counted(before, leaving.attempt, at, leaving.run)),
        None => before,
    }
}

/// The count after the exits of a tick at this moment, by its events: first of the instance that the tick no longer
/// lists, which began to run at the start, if it did; then of the listed one after its run.
pub(crate) fn count_exits(
    count: Option<ExitCount>,
    gone: Option<PodEventKind>,
    start: Option<u64>,
    died: Option<PodEventKind>,
    run: Option<u64>,
    at: u64,
) -> Option<ExitCount>
    ensures { (h : List ContainerTick) (x : ContainerTick) (before after : Differ)
        → at ≡ x.moment → IsDifferOf (listings h) before → DifferAccepts before x.entry.seen
        → IsDifferOf (listings (h ++ x ∷ [])) after
        → IsOfNewest (listings h) (λ a. IsFirstMoment (listings h) (ListedAs (listings h) a Running)) start
        → IsNewestRun (listings (h ++ x ∷ [])) run
        → IsTheOne (IsGone (h ++ x ∷ []) (length h)) gone → IsTheOne (HasDied (h ++ x ∷ []) (length h)) died
        → IsCountKept h count → IsCountKept (h ++ x ∷ []) result }
{
    let before = count_exit(count, left(death_of(gone), start, at), at);
    count_exit(before, exited(death_of(died), run), at)
}

/// The exit of the newest instance, which has exited at this moment, if it has.
pub(crate) fn last_exit_of(newest: Option<Seen>, exited_at: Option<u64>) -> Option<LastExit>
    ensures { result ≡ last_exit_of newest exited_at }
{
    let newest = newest?;
    let code = newest.code?;
    let at = exited_at?;
    Some(LastExit {
        attempt: newest.attempt,
        at,
        code,
    })
}
