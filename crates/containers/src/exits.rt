//! The exits of a tick, and what they make of the back-off.

ghost use Rattle.std.specs.Prelude.{◌≡◌, ◌⊎◌, ◌↔◌, ◌<◌, ◌-◌, ◌++◌, ℕ, List, Option, Some, None, IsTrue, IsSome};
ghost use Rattle.std.specs.Prelude.{IsSomeAnd, unwrap_or, if◌then◌else◌, option_map};
ghost use Rattle.quantity.specs.rule.Duration.{end_of_time};
ghost use Rattle.restarts.specs.rule.Own.{WantsRestartBy};
ghost use Rattle.restarts.specs.rule.Exits.{Exit};
ghost use Rattle.restarts.specs.rule.Delays.{IsDelay};
ghost use Rattle.restarts.specs.state.Backoff.{IsStateOf};
ghost use Rattle.containers.specs.state.Step.{exits_at};

use manifest::{OwnRestarts, Policy, Role};
use restarts::{Backoff, wants_restart_by};
use state_diff::Seen;

/// For how many seconds an instance ran that exits at this moment, if it does; 0 without a start.
pub fn run_until(died: bool, start: Option<u64>, at: u64) -> Option<u64>
    ensures { result ≡ (if died then Some (at - unwrap_or start at) else None) }
{
    if died {
        let start = start.unwrap_or(at);
        Some(at.saturating_sub(start))
    } else {
        None
    }
}

/// Counts an exit at this moment, if there is one, after a run of this many seconds. Gives by how many
/// seconds its restart is backed off.
fn count(backoff: &mut Backoff, at: u64, run: Option<u64>) -> Option<u64>
    requires { at < end_of_time }
    ensures state { (max_restart_delay : ℕ) (exits : List Exit)
        → IsStateOf max_restart_delay exits backoff.old
        → IsStateOf max_restart_delay (exits ++ exits_at at run) backoff.new }
    ensures delay { (max_restart_delay : ℕ) (exits : List Exit)
        → IsStateOf max_restart_delay exits backoff.old
        → IsSome run
        → IsSomeAnd result (λ delay. IsDelay max_restart_delay (exits ++ exits_at at run) delay) }
    ensures none { run ≡ None → result ≡ None }
{
    match run {
        Some(run) => Some(backoff.exited(run, at)),
        None => None,
    }
}

/// Counts the exits of a tick at this moment, each after its run: first the exit of the instance which is no longer
/// listed, and then the exit of the listed one. Returns by how many seconds the restart after the last of them is
/// backed off.
pub fn count_both(
    backoff: &mut Backoff,
    at: u64,
    gone: Option<u64>,
    died: Option<u64>,
) -> Option<u64>
    requires { at < end_of_time }
    ensures state { (max_restart_delay : ℕ) (exits : List Exit)
        → IsStateOf max_restart_delay exits backoff.old
        → IsStateOf max_restart_delay ((exits ++ exits_at at gone) ++ exits_at at died) backoff.new }
    ensures delay { (max_restart_delay : ℕ) (exits : List Exit)
        → IsStateOf max_restart_delay exits backoff.old
        → IsSome gone ⊎ IsSome died
        → IsSomeAnd result
        (λ delay. IsDelay max_restart_delay ((exits ++ exits_at at gone) ++ exits_at at died) delay) }
{
    let first = count(backoff, at, gone);
    count(backoff, at, died).or(first)
}

/// The attempt of the newest instance, if it has exited and is to be started again.
pub fn to_restart(
    policy: Policy,
    own: Option<&OwnRestarts>,
    role: Role,
    newest: Option<Seen>,
) -> Option<u32>
    ensures { (a : ℕ) → ((result ≡ Some a)
        ↔ IsSomeAnd newest (λ s. (s.attempt ≡ a)
        × IsSomeAnd s.code (λ code. WantsRestartBy policy (option_map (λ o. o.now) own.entry) role code))) }
{
    let newest = newest?;
    let code = newest.code?;
    if wants_restart_by(policy, own, role, code) {
        Some(newest.attempt)
    } else {
        None
    }
}

/// Whether the attempt that is to be started again has exited at the moment.
pub fn is_backed_off(attempt: Option<u32>, exited_at: Option<u64>, at: u64) -> bool
    ensures { IsTrue result ↔ (IsSome attempt × (exited_at ≡ Some at)) }
{
    attempt.is_some() && exited_at == Some(at)
}
