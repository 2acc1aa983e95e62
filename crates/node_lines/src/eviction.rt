//! What a node line writes of evictions.

ghost use Rattle.std.specs.Prelude.{◌≡◌, ◌≤◌, Some, option_map, IfOk};
ghost use Rattle.serde_json.specs.View.{view};
ghost use Rattle.quantity.specs.declared.limit.Limit.TheVariants.{Percent as PercentLimit};
ghost use Rattle.node_lines.specs.rule.Limits.{where_possible, default_limits, hard_limits};
ghost use Rattle.node_lines.specs.state.Limits.{HaveTheirCapacity};
ghost use Rattle.node_lines.specs.rule.Thresholds.{written_over, written_in, eviction_from};
ghost use Rattle.node_lines.specs.state.Thresholds.{HasCapacities};

use crate::fault::NodeFault;
use crate::maps::{durations, limits, quantities, reclaims};
use crate::thresholds::{hard_thresholds, soft_thresholds};
use json_fields::field;
use node_config::EvictionConfig;
use quantity::{Limit, Percent, Quantity};
use serde_json::Value;
use signals::BySignal;

/// What the maps of a node line write. A limit that switches its threshold off is left out.
#[derive(Clone, Copy)]
pub(crate) struct Written {
    pub(crate) capacity: BySignal<Option<Quantity>>,
    pub(crate) hard: BySignal<Option<Limit>>,
    pub(crate) soft: BySignal<Option<Limit>>,
    /// In seconds.
    pub(crate) graces: BySignal<Option<u64>>,
    pub(crate) reclaims: BySignal<Limit>,
}

/// A percentage in hundredths, where there is the capacity of which it is.
fn share(capacity: Option<Quantity>, hundredths: u32) -> Option<Limit>
    requires { hundredths ≤ 10000 }
    ensures { result ≡ where_possible capacity (Some (PercentLimit hundredths)) }
{
    match capacity {
        Some(_) => Some(Limit::Percent(Percent::from_hundredths(hundredths))),
        None => None,
    }
}

/// The limits of a node that sets none, as far as they have their capacity. (Kubernetes,
/// "Node-pressure Eviction", "Hard eviction thresholds"; of the inodes of images this profile's.)
fn default_limits(capacity: &BySignal<Option<Quantity>>) -> BySignal<Option<Limit>>
    ensures value { result ≡ default_limits capacity.now }
    ensures capacity { HaveTheirCapacity capacity.now result }
{
    BySignal {
        memory_available: Some(Limit::Quantity(Quantity::from_units(100 << 20))),
        nodefs_available: share(capacity.nodefs_available, 1000),
        imagefs_available: share(capacity.imagefs_available, 1500),
        nodefs_inodes_free: share(capacity.nodefs_inodes_free, 500),
        imagefs_inodes_free: share(capacity.imagefs_inodes_free, 500),
        pid_available: None,
    }
}

/// The limits of the hard thresholds: those that are written, or the defaults where none is.
fn hard_limits(
    capacity: &BySignal<Option<Quantity>>,
    found: Option<&Value>,
) -> Result<BySignal<Option<Limit>>, NodeFault>
    ensures gives { result ≡ hard_limits capacity.now (option_map (λ v. view v.now) found.entry) }
    ensures capacity { IfOk result (HaveTheirCapacity capacity.now) }
{
    match found {
        None => Ok(default_limits(capacity)),
        Some(_) => limits(capacity, found),
    }
}

#[tactic(auto, unfolding(crate::specs::rule::Thresholds::written_over))]
fn written_over(capacity: &BySignal<Option<Quantity>>, node: &Value) -> Result<Written, NodeFault>
    ensures gives { result ≡ written_over capacity.now (view node.now) }
    ensures capacities { IfOk result HasCapacities }
{
    let hard = hard_limits(capacity, field(node, "evictionHard"))?;
    let soft = limits(capacity, field(node, "evictionSoft"))?;
    let graces = durations(field(node, "evictionSoftGracePeriod"))?;
    let reclaims = reclaims(capacity, field(node, "evictionMinimumReclaim"))?;
    Ok(Written {
        capacity: *capacity,
        hard,
        soft,
        graces,
        reclaims,
    })
}

#[tactic(auto, unfolding(crate::specs::rule::Thresholds::written_in))]
pub(crate) fn written_in(node: &Value) -> Result<Written, NodeFault>
    ensures gives { result ≡ written_in (view node.now) }
    ensures capacities { IfOk result HasCapacities }
{
    let capacity = quantities(field(node, "capacity"))?;
    written_over(&capacity, node)
}

/// The thresholds of what was written.
pub(crate) fn eviction_from(written: &Written) -> Result<EvictionConfig, NodeFault>
    requires { HasCapacities written.now }
    ensures { result ≡ eviction_from written.now }
{
    let soft = soft_thresholds(written)?;
    let hard = hard_thresholds(written);
    Ok(EvictionConfig::new(written.capacity, hard, soft))
}
