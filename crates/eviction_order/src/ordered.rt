//! The keys of candidates, in order.

ghost use Rattle.std.specs.Prelude.{◌≡◌, ◌↔◌, ℕ, Bool, Option, Some, map, Contains, IsTrue, IfOk};
ghost use Rattle.std.specs.BTreeSet.{contains, IsOrdered};
ghost use Rattle.signals.specs.declared.signal.Signal.{Signal};
ghost use Rattle.pod_piece.specs.declared.status.PodStatus.{PodStatus};
ghost use Rattle.ranking.specs.declared.key.RankKey.{RankKey as AKey};
ghost use Rattle.ranking.specs.state.Keys.{rank_cmp};
ghost use Rattle.eviction_order.specs.rule.Ranked.{AreRanked};
ghost use Rattle.eviction_order.specs.state.Keys.{AreKeysOf};

use ranking::RankKey;
use std::alloc::{AllocError, Global};
use std::collections::BTreeSet;

/// The keys of candidates in the order of eviction: the key of the pod that is evicted first comes first.
pub fn in_order(alloc: Global, keys: &[RankKey]) -> Result<Vec<RankKey>, AllocError>
    ensures { IfOk result (λ sorted. (signal : Signal) (has_dedicated_imagefs : Bool) (held : ℕ → Option PodStatus)
        → AreKeysOf signal has_dedicated_imagefs held keys.now
        → AreRanked signal has_dedicated_imagefs (λ n p. held n ≡ Some p)
        (map (λ (k : AKey). k.number) sorted.items)) }
{
    let order = set_of(alloc, keys)?;
    let sorted = keys_in(alloc, &order)?;
    Ok(sorted)
}

/// The keys, as a set.
fn set_of(alloc: Global, keys: &[RankKey]) -> Result<BTreeSet<RankKey>, AllocError>
    ensures { IfOk result (λ order. (k : AKey) → (IsTrue (contains rank_cmp order k) ↔ Contains keys.now k)) }
{
    let mut order = BTreeSet::new(alloc);
    for key in keys {
        match order.insert(*key) {
            Ok(_) => {}
            Err(_) => return Err(AllocError),
        }
    }
    Ok(order)
}

/// The keys of a set, in their order.
fn keys_in(alloc: Global, order: &BTreeSet<RankKey>) -> Result<Vec<RankKey>, AllocError>
    ensures keys { IfOk result (λ keys. keys.items ≡ order.now.keys) }
    ensures ordered { IsOrdered rank_cmp order.now }
{
    let mut keys = Vec::new(alloc);
    for key in order {
        keys.push(*key)?;
    }
    Ok(keys)
}
