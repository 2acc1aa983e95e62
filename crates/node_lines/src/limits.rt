//! Limits and reclaims, as a map writes them of one signal.

ghost use Rattle.std.specs.Prelude.{◌≡◌, option_map};
ghost use Rattle.node_lines.specs.rule.Limits.{is_off, with_capacity, limit_at, reclaim_at};

use crate::fault::{NodeFault, or_config};
use json_fields::{Json, limit_in};
use quantity::{Limit, Quantity};

/// Whether a limit switches its threshold off, as the percentages 0 and 100 do.
fn is_off(limit: Limit) -> bool
    ensures { result ≡ is_off limit }
{
    match limit {
        Limit::Quantity(_) => false,
        Limit::Percent(percent) => percent.hundredths() == 0 || percent.hundredths() == 10000,
    }
}

fn with_capacity(capacity: Option<Quantity>, limit: Limit) -> Result<Limit, NodeFault>
    ensures { result ≡ with_capacity capacity limit }
{
    match limit {
        Limit::Percent(_) if capacity.is_none() => Err(NodeFault::Config),
        Limit::Quantity(_) | Limit::Percent(_) => Ok(limit),
    }
}

/// The limit of a threshold on a signal of this capacity, if one is set.
pub(crate) fn limit_at<V: Json>(
    capacity: Option<Quantity>,
    found: Option<&V>,
) -> Result<Option<Limit>, NodeFault>
    ensures { result ≡ limit_at capacity (option_map (λ v. V.data v.now) found.entry) }
{
    let Some(value) = found else {
        return Ok(None);
    };
    let limit = or_config(limit_in(value))?;
    if is_off(limit) {
        return Ok(None);
    }
    Ok(Some(with_capacity(capacity, limit)?))
}

/// The reclaim on a signal of this capacity: 0 where none is written.
pub(crate) fn reclaim_at<V: Json>(
    capacity: Option<Quantity>,
    found: Option<&V>,
) -> Result<Limit, NodeFault>
    ensures { result ≡ reclaim_at capacity (option_map (λ v. V.data v.now) found.entry) }
{
    match found {
        None => Ok(Limit::Quantity(Quantity::from_units(0))),
        Some(value) => with_capacity(capacity, or_config(limit_in(value))?),
    }
}
