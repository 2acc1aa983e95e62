//! What a pod used, by the newest sample of each resource.

ghost use Rattle.std.specs.Prelude.{◌≡◌, if◌then◌else◌};
ghost use Rattle.std.specs.Option.{option_or};
ghost use Rattle.pod_piece.specs.state.Usage.{no_samples, nothing, newer};

use crate::status::NewestUsage;
use observations::{Sampling, Usage};
use quantity::Quantity;

/// No sample of anything.
fn no_samples() -> Usage
    ensures { result ≡ no_samples }
{
    Usage {
        memory: None,
        volumes: None,
        logs: None,
        writable: None,
        inodes: None,
        pids: None,
    }
}

/// No sample so far.
pub(crate) fn nothing() -> NewestUsage
    ensures { result ≡ nothing }
{
    NewestUsage {
        samples: no_samples(),
        is_unsampled: false,
    }
}

/// The newer sample where there is one, else the older.
fn newer_of(old: Option<Quantity>, new: Option<Quantity>) -> Option<Quantity>
    ensures { result ≡ option_or new old }
{
    new.or(old)
}

/// The newest samples, with one more tick, if that counts.
pub(crate) fn newer_while(counts: bool, old: NewestUsage, sampling: Sampling) -> NewestUsage
    ensures { result ≡ (if counts then newer old sampling else old) }
{
    if counts { newer(old, sampling) } else { old }
}

/// The newest samples, with one more tick.
fn newer(old: NewestUsage, sampling: Sampling) -> NewestUsage
    ensures { result ≡ newer old sampling }
{
    match sampling {
        Sampling::Unsaid => old,
        Sampling::Unsampled => NewestUsage {
            samples: no_samples(),
            is_unsampled: true,
        },
        Sampling::Sampled(new) => NewestUsage {
            samples: Usage {
                memory: newer_of(old.samples.memory, new.memory),
                volumes: newer_of(old.samples.volumes, new.volumes),
                logs: newer_of(old.samples.logs, new.logs),
                writable: newer_of(old.samples.writable, new.writable),
                inodes: newer_of(old.samples.inodes, new.inodes),
                pids: newer_of(old.samples.pids, new.pids),
            },
            is_unsampled: false,
        },
    }
}
