//! How long a node may delay a restart.

ghost use Rattle.std.specs.Prelude.{◌≡◌, ◌≤◌};
ghost use Rattle.manifest.specs.rule.RestartDelay.{least_max_delay, most_max_delay, max_delay_of};

use std::marker::Model;

/// The greatest delay of a restart on a node, in seconds, from 1 to 300. Contracts see the number.
/// (Kubernetes, "Pod Lifecycle", "Container restart policy" and "Configurable container restart
/// delay".)
#[derive(Clone, Copy, Debug, PartialEq, Eq)]
pub struct MaxRestartDelay(u64);

impl Model for MaxRestartDelay {
    ghost use Rattle.std.specs.Prelude.{ℕ, ◌≤◌};
    ghost use Rattle.manifest.specs.rule.RestartDelay.{least_max_delay, most_max_delay};

    ghost Value = { ℕ };

    ghost view = { λ d. d.0 };

    ghost invariant = { λ d. (least_max_delay ≤ d.0) × (d.0 ≤ most_max_delay) };

    ghost inverse = { λ n. record { 0 = n } };
}

impl MaxRestartDelay {
    /// That of a node that sets none.
    pub fn unset() -> MaxRestartDelay
        ensures { result ≡ most_max_delay }
    {
        MaxRestartDelay(MOST_SECONDS)
    }

    /// This many seconds, if they are in the range.
    pub fn new(seconds: u64) -> Option<MaxRestartDelay>
        ensures { result ≡ max_delay_of seconds }
    {
        if LEAST_SECONDS <= seconds && seconds <= MOST_SECONDS {
            Some(MaxRestartDelay(seconds))
        } else {
            None
        }
    }

    /// The seconds.
    pub fn get(self) -> u64
        ensures value { result ≡ self }
        ensures least { least_max_delay ≤ result }
        ensures most { result ≤ most_max_delay }
    {
        self.0
    }
}

const LEAST_SECONDS: u64 = 1;

const MOST_SECONDS: u64 = 300;
