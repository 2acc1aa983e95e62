//! What a line says, in words, so that two readers of it can be compared.

use json_lines::{TextLine, TickRecord};
use manifest::{Outcome, ProbeKind};
use observations::Usage;
use quantity::Quantity;
use signals::BySignal;
use std::alloc::{AllocError, Global};
use tick_lines::{
    ListedInstance, Listing, ProbeResult, ReasonMember, TickEntry, TickLine, TruthMember,
};

pub(crate) fn add_moment(text: &mut String, at: Option<u64>) -> Result<(), AllocError> {
    write!(text, "tick {at:?}")
}

pub(crate) fn add_key(text: &mut String, key: &str) -> Result<(), AllocError> {
    write!(text, "\n pod {key:?}")
}

pub(crate) fn add_listing(
    text: &mut String,
    name: &str,
    instance: ListedInstance,
) -> Result<(), AllocError> {
    let ListedInstance {
        attempt,
        state,
        code,
    } = instance;
    write!(text, "\n  lists {name:?} {attempt} {state:?} {code:?}")
}

pub(crate) fn add_result(
    text: &mut String,
    container: &str,
    probe: ProbeKind,
    outcome: Outcome,
) -> Result<(), AllocError> {
    write!(text, "\n  probes {container:?} {probe:?} {outcome:?}")
}

pub(crate) fn add_usage(text: &mut String, usage: Option<Usage>) -> Result<(), AllocError> {
    write!(text, "\n  uses {usage:?}")
}

/// Adds what a line or an entry says in such a member, where it says something: the faster reader reads no such entry.
pub(crate) fn add_truth(
    text: &mut String,
    name: &str,
    member: TruthMember,
) -> Result<(), AllocError> {
    if member == TruthMember::No {
        return Ok(());
    }
    write!(text, "\n  {name} {member:?}")
}

/// Adds why an entry says that the node has ended its pod, where it says something.
fn add_reason(text: &mut String, member: &ReasonMember) -> Result<(), AllocError> {
    match member {
        ReasonMember::Missing => Ok(()),
        ReasonMember::Reason(reason) => write!(text, "\n  failed {}", reason.as_str()),
        ReasonMember::OfOtherKind => write!(text, "\n  failed of another kind"),
    }
}

pub(crate) fn add_samples(
    text: &mut String,
    signals: BySignal<Option<Quantity>>,
    after_reclaim: BySignal<Option<Quantity>>,
) -> Result<(), AllocError> {
    write!(text, "\n signals {signals:?}\n after {after_reclaim:?}")
}

fn add_listings(text: &mut String, listings: &[Listing]) -> Result<(), AllocError> {
    for listing in listings {
        add_listing(text, listing.name.as_str(), listing.instance)?;
    }
    Ok(())
}

fn add_results(text: &mut String, results: &[ProbeResult]) -> Result<(), AllocError> {
    for result in results {
        add_result(
            text,
            result.container.as_str(),
            result.probe,
            result.outcome,
        )?;
    }
    Ok(())
}

fn add_entries(text: &mut String, entries: &[TickEntry]) -> Result<(), AllocError> {
    for entry in entries {
        add_key(text, entry.key.as_str())?;
        add_listings(text, entry.listings.as_slice())?;
        add_results(text, entry.results.as_slice())?;
        add_usage(text, entry.usage)?;
        add_truth(text, "unsampled", entry.unsampled)?;
        add_truth(text, "deleting", entry.deleting)?;
        add_reason(text, &entry.failed)?;
    }
    Ok(())
}

fn add_tick_line(text: &mut String, line: &TickLine) -> Result<(), AllocError> {
    add_entries(text, line.entries.as_slice())?;
    add_truth(text, "unjudged", line.unjudged)?;
    add_samples(text, line.signals, line.after_reclaim)
}

fn tick_said(alloc: Global, tick: &TickRecord) -> Result<String, AllocError> {
    let mut text = String::new(alloc);
    add_moment(&mut text, tick.at)?;
    match &tick.written {
        Ok(line) => add_tick_line(&mut text, line)?,
        Err(fault) => write!(text, " {fault}")?,
    }
    Ok(text)
}

/// What a line says.
pub(crate) fn line_said(alloc: Global, read: &TextLine) -> Result<String, AllocError> {
    match read {
        TextLine::Blank => String::from_str(alloc, "blank"),
        TextLine::TooLong => String::from_str(alloc, "too long"),
        TextLine::NotJson => String::from_str(alloc, "no JSON"),
        TextLine::Tick(tick) => tick_said(alloc, tick),
        TextLine::Json(value) => value.to_string(alloc),
    }
}
