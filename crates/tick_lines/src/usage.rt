//! The usage of an entry: its pod's use of the node.

ghost use Rattle.std.specs.Prelude.{option_map};
ghost use Rattle.json_fields.specs.state.Reading.{GivesExactly};
ghost use Rattle.tick_lines.specs.rule.Usages.{usage_in, usage_of};

use crate::fault::TickLineFault;
use crate::fields::{only_object, quantity_at};
use json_fields::{Json, field};
use observations::Usage;

#[tactic(auto, unfolding(crate::specs::rule::Usages::usage_in))]
fn usage_in<V: Json>(value: &V) -> Result<Usage, TickLineFault>
    ensures { GivesExactly (λ u. u) result (usage_in (V.data value.now)) }
{
    only_object(value)?;
    Ok(Usage {
        memory: quantity_at(field(value, "memory"))?,
        volumes: quantity_at(field(value, "volumes"))?,
        logs: quantity_at(field(value, "logs"))?,
        writable: quantity_at(field(value, "writable"))?,
        inodes: quantity_at(field(value, "inodes"))?,
        pids: quantity_at(field(value, "pids"))?,
    })
}

/// What the pod used, where the entry has a sample of it.
pub(crate) fn usage_of<V: Json>(found: Option<&V>) -> Result<Option<Usage>, TickLineFault>
    ensures { GivesExactly (λ u. u) result (usage_of (option_map (λ v. V.data v.now) found.entry)) }
{
    let Some(value) = found else {
        return Ok(None);
    };
    Ok(Some(usage_in(value)?))
}
