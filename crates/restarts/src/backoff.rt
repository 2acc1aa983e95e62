//! How long a restart is backed off.

ghost use Rattle.std.specs.Prelude.{◌≡◌, ◌+◌, ◌<◌, ◌≤◌, ◌↔◌, ℕ, List, [], ◌∷◌, ◌++◌, IsTrue};
ghost use Rattle.quantity.specs.rule.Duration.{end_of_time};
ghost use Rattle.histories.specs.rule.Histories.{recorded};
ghost use Rattle.manifest.specs.rule.RestartDelay.{most_max_delay};
ghost use Rattle.restarts.specs.rule.Exits.{Exit, long_run};
ghost use Rattle.restarts.specs.rule.Delays.{delay_of};
ghost use Rattle.restarts.specs.state.Counts.{last_count, IsCountOf};

use manifest::MaxRestartDelay;

/// A run of this many seconds or more resets the count.
const LONG_RUN: u64 = 600;

/// The delay of the second exit, in seconds, which each further one doubles.
const FIRST_DELAY: u64 = 10;

/// From this number on each delay is the maximum, whatever that is, so the count stops there.
const LAST_COUNT: u32 = 7;

/// The back-off of one container: how long its restarts are backed off, by the exits so far.
///
/// (Kubernetes, "Pod Lifecycle", "Container restart policy": a delay of 10 s, 20 s, 40 s and so on,
/// up to a maximum of the node's. The first exit has none, and a run of 600 s resets the count.)
#[derive(Clone, Copy, Debug, PartialEq, Eq)]
pub struct Backoff {
    max_restart_delay: u64,
    count: u32,
    due: Option<u64>,
    ghost within: { max_restart_delay ≤ most_max_delay },
    ghost counted: { count ≤ last_count },
}

impl Backoff {
    ghost use Rattle.restarts.specs.rule.Delays.{IsDelay, IsRestartDue};
    ghost use Rattle.restarts.specs.state.Backoff.{IsStateOf};

    /// No exit yet, on a node with this maximum delay.
    pub fn new(max_restart_delay: MaxRestartDelay) -> Backoff
        ensures { IsStateOf max_restart_delay [] result }
    {
        Backoff {
            max_restart_delay: max_restart_delay.get(),
            count: 0,
            due: None,
        }
    }

    /// Takes the next exit, at the moment `at` (in seconds) and after a run of this many seconds (0
    /// without a start), and answers by how many seconds its restart is backed off. Every exit counts,
    /// also one after which no restart is wanted. Exits come in the order of their moments, and
    /// those of one moment in that of their attempts.
    pub fn exited(&mut self, run_seconds: u64, at: u64) -> u64
        requires { at < end_of_time }
        ensures state { (max_restart_delay : ℕ) (exits : List Exit)
            → IsStateOf max_restart_delay exits self.old
            → IsStateOf max_restart_delay (exits ++ recorded at run_seconds ∷ []) self.new }
        ensures delay { (max_restart_delay : ℕ) (exits : List Exit)
            → IsStateOf max_restart_delay exits self.old
            → IsDelay max_restart_delay (exits ++ recorded at run_seconds ∷ []) result }
    {
        self.count = count_after(self.count, run_seconds);
        let delay = delay_after(self.count, self.max_restart_delay);
        self.due = Some(at + delay);
        delay
    }

    /// From which moment on the restart after the last exit is due; `None` before any exit.
    pub fn due(&self) -> Option<u64>
        ensures { (max_restart_delay : ℕ) (exits : List Exit) → IsStateOf max_restart_delay exits self.now
            → IsRestartDue max_restart_delay exits result }
    {
        self.due
    }
}

/// The count after one more exit.
fn count_after(count: u32, run_seconds: u64) -> u32
    requires { count ≤ last_count }
    ensures within { result ≤ last_count }
    ensures counts { (exits : List Exit) (at : ℕ) → IsCountOf exits count
        → IsCountOf (exits ++ recorded at run_seconds ∷ []) result }
{
    if is_long(run_seconds) {
        1
    } else if count < LAST_COUNT {
        count + 1
    } else {
        count
    }
}

/// Whether a run resets the count.
fn is_long(run_seconds: u64) -> bool
    ensures { IsTrue result ↔ (long_run ≤ run_seconds) }
{
    run_seconds >= LONG_RUN
}

/// The delay of an exit with this number.
fn delay_after(number: u32, max_restart_delay: u64) -> u64
    requires { number ≤ last_count }
    ensures { result ≡ delay_of max_restart_delay number }
{
    if number < 2 {
        0
    } else {
        (FIRST_DELAY * 2u64.pow(number - 2)).min(max_restart_delay)
    }
}
