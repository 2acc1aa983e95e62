//! What a pod uses and requests of what a signal measures.

ghost use Rattle.std.specs.Prelude.{◌≡◌, ◌≤◌, ◌*◌};
ghost use Rattle.quantity.specs.rule.Quantity.{greatest_quantity};
ghost use Rattle.ranking.specs.rule.Amounts.{newest, local_storage, used, requested, has_requests};
ghost use Rattle.ranking.specs.rule.Order.{ranks_unsampled_first};

use observations::Usage;
use pod_piece::EffectiveRequests;
use quantity::Quantity;
use signals::Signal;

/// The newest sample in thousandths, and 0 where there is none.
fn newest(sample: Option<Quantity>) -> u128
    ensures value { result ≡ newest sample }
    ensures bound { result ≤ greatest_quantity }
{
    match sample {
        Some(amount) => amount.milli(),
        None => 0,
    }
}

/// What volumes, logs and writable layers take together.
fn local_storage(usage: &Usage) -> u128
    ensures { result ≡ local_storage usage.now }
{
    newest(usage.volumes) + newest(usage.logs) + newest(usage.writable)
}

/// What a pod uses of what the signal measures, in thousandths.
pub fn used(usage: &Usage, signal: Signal, has_dedicated_imagefs: bool) -> u128
    ensures { result ≡ used signal has_dedicated_imagefs usage.now }
{
    match signal {
        Signal::MemoryAvailable => newest(usage.memory),
        Signal::NodefsAvailable => {
            if has_dedicated_imagefs {
                newest(usage.volumes) + newest(usage.logs)
            } else {
                local_storage(usage)
            }
        }
        Signal::ImagefsAvailable => {
            if has_dedicated_imagefs {
                newest(usage.writable)
            } else {
                local_storage(usage)
            }
        }
        Signal::NodefsInodesFree | Signal::ImagefsInodesFree => newest(usage.inodes),
        Signal::PidAvailable => newest(usage.pids),
    }
}

/// What a pod requests of what the signal measures, in thousandths: of inodes and processes 0.
pub fn requested(requests: &EffectiveRequests, signal: Signal) -> u128
    ensures { result ≡ requested signal requests.now }
{
    match signal {
        Signal::MemoryAvailable => requests.memory,
        Signal::NodefsAvailable | Signal::ImagefsAvailable => requests.ephemeral_storage,
        Signal::NodefsInodesFree | Signal::ImagefsInodesFree | Signal::PidAvailable => 0,
    }
}

/// Whether pods request anything of what the signal measures.
pub(crate) fn has_requests(signal: Signal) -> bool
    ensures { result ≡ has_requests signal }
{
    match signal {
        Signal::MemoryAvailable | Signal::NodefsAvailable | Signal::ImagefsAvailable => true,
        Signal::NodefsInodesFree | Signal::ImagefsInodesFree | Signal::PidAvailable => false,
    }
}

/// Whether a pod without a sample comes before all others by the signal.
pub(crate) fn ranks_unsampled_first(signal: Signal) -> bool
    ensures { result ≡ ranks_unsampled_first signal }
{
    match signal {
        Signal::MemoryAvailable
        | Signal::NodefsAvailable
        | Signal::ImagefsAvailable
        | Signal::NodefsInodesFree
        | Signal::ImagefsInodesFree => true,
        Signal::PidAvailable => false,
    }
}
