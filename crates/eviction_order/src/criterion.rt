//! Which criterion of the order decides between two pods.

ghost use Rattle.std.specs.Prelude.{◌≡◌, Bool, IsSomeAnd};
ghost use Rattle.signals.specs.declared.signal.Signal.{Signal};
ghost use Rattle.pod_piece.specs.declared.status.PodStatus.{PodStatus};
ghost use Rattle.ranking.specs.rule.Order.{IsBefore};
ghost use Rattle.ranking.specs.state.Keys.{key_of};
ghost use Rattle.eviction_order.specs.rule.Criteria.{IsBeforeBy};
ghost use Rattle.eviction_order.specs.state.Deciding.{deciding};

use ranking::RankKey;

/// A criterion of the order of eviction. (Kubernetes, "Node-pressure Eviction", "Pod selection for kubelet eviction".)
#[derive(Clone, Copy, Debug, PartialEq, Eq)]
pub enum Criterion {
    /// A pod without a sample comes before all others.
    NoSample,
    /// A pod whose usage is above its request comes first.
    AboveRequest,
    /// The pod of the lower priority comes first.
    Priority,
    /// Of the pods of a priority, one without a sample comes first.
    NoSampleOfPriority,
    /// The pod whose usage is more above its request, or less below it, comes first.
    Usage,
    /// The pod with the lower number comes first.
    Number,
}

/// The first criterion in which two keys differ. If the pod of the first is evicted before that of the second, it is so
/// by this criterion.
pub fn deciding(first: &RankKey, second: &RankKey) -> Option<Criterion>
    ensures computed { result ≡ deciding first.now second.now }
    ensures decides { (signal : Signal) (has_dedicated_imagefs : Bool) (p q : PodStatus)
        → key_of signal has_dedicated_imagefs p ≡ first.now → key_of signal has_dedicated_imagefs q ≡ second.now
        → IsBefore signal has_dedicated_imagefs p q
        → IsSomeAnd result (λ criterion. IsBeforeBy signal has_dedicated_imagefs criterion p q) }
{
    if first.follows_unsampled != second.follows_unsampled {
        Some(Criterion::NoSample)
    } else if first.within_request != second.within_request {
        Some(Criterion::AboveRequest)
    } else if first.priority != second.priority {
        Some(Criterion::Priority)
    } else if first.is_sampled != second.is_sampled {
        Some(Criterion::NoSampleOfPriority)
    } else if first.excess != second.excess || first.shortfall != second.shortfall {
        Some(Criterion::Usage)
    } else if first.number != second.number {
        Some(Criterion::Number)
    } else {
        None
    }
}
