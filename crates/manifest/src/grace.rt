//! How long a pod has to end.

ghost use Rattle.std.specs.Prelude.{◌≡◌, ◌<◌};
ghost use Rattle.quantity.specs.rule.Duration.{end_of_time};

use std::marker::Model;

/// The seconds that a pod's containers have to end after they were told to, fewer than 2^40.
/// Contracts see the number. (Kubernetes, "Pod Lifecycle", "Termination of Pods".)
#[derive(Clone, Copy, Debug, PartialEq, Eq)]
pub struct GracePeriod(u64);

impl Model for GracePeriod {
    ghost use Rattle.std.specs.Prelude.{ℕ, ◌<◌};
    ghost use Rattle.quantity.specs.rule.Duration.{end_of_time};

    ghost Value = { ℕ };

    ghost view = { λ g. g.0 };

    ghost invariant = { λ g. g.0 < end_of_time };

    ghost inverse = { λ n. record { 0 = n } };
}

impl GracePeriod {
    /// This many seconds.
    pub fn new(seconds: u64) -> GracePeriod
        requires { seconds < end_of_time }
        ensures { result ≡ seconds }
    {
        GracePeriod(seconds)
    }

    /// The seconds.
    pub fn get(self) -> u64
        ensures value { result ≡ self }
        ensures most { result < end_of_time }
    {
        self.0
    }
}
