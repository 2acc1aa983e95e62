//! The entries of a tick line, as they are written.

ghost use Rattle.json_fields.specs.state.Reading.{GivesUnless, checked};
ghost use Rattle.tick_lines.specs.state.Memory.{is_memory};
ghost use Rattle.std.specs.Prelude.{◌≡◌};
ghost use Rattle.tick_lines.specs.rule.Entries.{entry_of};

use crate::conditions::{ConditionsMember, conditions_of};
use crate::fault::TickLineFault;
use crate::fields::{text_of, written_text};
use crate::items::{ReadItem, check_items, read_items};
use crate::listing::Listing;
use crate::probing::ProbeResult;
use crate::reason::{ReasonMember, reason_member_of};
use crate::resizes::{ResizedMember, resized_of};
use crate::truth::{TruthMember, truth_of};
use crate::usage::usage_of;
use crate::value::TickValue;
use json_fields::{field, text_at};
use lists::Sequence;
use manifest::Text;
use observations::Usage;
use std::alloc::Global;

/// A pod's entry.
#[derive(Drop)]
pub struct TickEntry {
    /// The pod's key, as `NAMESPACE/NAME`.
    pub key: Text,
    /// The listings of its containers, in the order of the line.
    pub listings: Sequence<Listing>,
    /// The results of their probes, in the order of the line.
    pub results: Sequence<ProbeResult>,
    /// What the pod used, where the entry has a sample of it.
    pub usage: Option<Usage>,
    /// Whether it marks the pod as unsampled. (This project's extended format.)
    pub unsampled: TruthMember,
    /// Whether it marks the pod as being deleted. (This project's extended format.)
    pub deleting: TruthMember,
    /// Whether it reports that the node has ended the pod, and why. (This project's extended format.)
    pub failed: ReasonMember,
    /// The statuses of the pod's conditions that it has. (This project's extended format.)
    pub conditions: ConditionsMember,
    /// The requests and limits that it gives resized containers. (This project's extended format.)
    pub resized: ResizedMember,
}

#[tactic(auto, unfolding(crate::specs::rule::Entries::entry_of))]
fn entry_of<V: TickValue>(alloc: Global, value: &V) -> Result<TickEntry, TickLineFault>
    ensures { GivesUnless is_memory (λ e. e) result (entry_of (V.data value.now)) }
{
    Ok(TickEntry {
        key: text_of(alloc, text_at(value, "pod"))?,
        listings: read_items::<Listing, V>(alloc, field(value, "containers"))?,
        results: read_items::<ProbeResult, V>(alloc, field(value, "probes"))?,
        usage: usage_of(field(value, "usage"))?,
        unsampled: truth_of(field(value, "unsampled")),
        deleting: truth_of(field(value, "deleting")),
        failed: reason_member_of(field(value, "failed")),
        conditions: conditions_of(alloc, field(value, "conditions"))?,
        resized: resized_of(alloc, field(value, "resized"))?,
    })
}

/// Whether an entry can be read, or its first fault.
#[tactic(auto, unfolding(crate::specs::rule::Entries::entry_of))]
fn check_entry<V: TickValue>(value: &V) -> Result<(), TickLineFault>
    ensures { result ≡ checked (entry_of (V.data value.now)) }
{
    written_text(text_at(value, "pod"))?;
    check_items::<Listing, V>(field(value, "containers"))?;
    check_items::<ProbeResult, V>(field(value, "probes"))?;
    usage_of(field(value, "usage"))?;
    Ok(())
}

impl ReadItem for TickEntry {
    ghost read_of = { entry_of };

    fn read<V: TickValue>(alloc: Global, item: &V) -> Result<TickEntry, TickLineFault> {
        entry_of(alloc, item)
    }

    fn check<V: TickValue>(item: &V) -> Result<(), TickLineFault> {
        check_entry(item)
    }
}
