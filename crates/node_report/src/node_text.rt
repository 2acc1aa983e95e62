//! The lines of a node, as text.

ghost use Rattle.std.specs.Prelude.{◌≡◌, ◌++◌, IfOk, OnOk, string_bytes};
ghost use Rattle.std.specs.List.{flat_map};
ghost use Rattle.pod_piece.specs.state.Piece.{pods_in};
ghost use Rattle.event_list.specs.rule.Text.{event_line};
ghost use Rattle.node_report.specs.rule.Lines.{header_line, node_condition_line, eviction_text, totals_line};

use crate::pod_text::add;
use event_list::{Event, Names, add_event_text, add_eviction_words, add_with_number, truth_word};
use eviction::Eviction;
use node_rounds::{ConditionStatus, Summary};
use std::alloc::{AllocError, Global};

/// The first line of a report.
#[tactic(auto, unfolding(crate::specs::rule::Lines::header_line))]
pub(crate) fn header_line(
    alloc: Global,
    name: &str,
    pods: usize,
    ticks: usize,
) -> Result<String, AllocError>
    ensures { IfOk result (λ s. string_bytes s ≡ header_line name.now pods ticks) }
{
    format!(in alloc; "node {name} pods={pods} ticks={ticks}\n")
}

/// The bytes that most lines of an event fit in.
const EVENT_LINE: usize = 48;

/// Adds a line for each event.
pub(crate) fn add_events(
    text: &mut String,
    events: &[Event],
    names: Names<'_>,
) -> Result<(), AllocError>
    ensures { OnOk result (string_bytes text.new
        ≡ string_bytes text.old ++ flat_map (event_line (pods_in names.entry.pods.now)) events.now) }
{
    // Where so much room is refused, the text still grows line by line.
    let _ = text.reserve(events.len().saturating_mul(EVENT_LINE));
    for event in events {
        add_event_text(text, event, names)?;
    }
    Ok(())
}

#[tactic(auto, unfolding(crate::specs::rule::Lines::node_condition_line))]
fn add_condition(text: &mut String, status: &ConditionStatus) -> Result<(), AllocError>
    ensures { OnOk result (string_bytes text.new ≡ string_bytes text.old ++ node_condition_line status.now) }
{
    add(text, "nodecondition ")?;
    add(text, status.condition.name())?;
    add(text, " ")?;
    add(text, truth_word(status.value))?;
    add_with_number(text, " ", status.since)?;
    add(text, "\n")
}

/// Adds a line for each condition of the node.
pub(crate) fn add_conditions_of_node(
    text: &mut String,
    conditions: &[ConditionStatus],
) -> Result<(), AllocError>
    ensures { OnOk result (string_bytes text.new
        ≡ string_bytes text.old ++ flat_map node_condition_line conditions.now) }
{
    for status in conditions {
        add_condition(text, status)?;
    }
    Ok(())
}

/// Adds the line of a tick's eviction, if there is one.
#[tactic(auto, unfolding(crate::specs::rule::Lines::eviction_line))]
fn add_eviction(
    text: &mut String,
    eviction: &Option<Eviction>,
    names: Names<'_>,
) -> Result<(), AllocError>
    ensures { OnOk result (string_bytes text.new
        ≡ string_bytes text.old ++ eviction_text (pods_in names.entry.pods.now) eviction.now) }
{
    let Some(eviction) = eviction else {
        return Ok(());
    };
    add_with_number(text, "eviction ", eviction.order.at)?;
    add(text, " ")?;
    add_eviction_words(text, *eviction, names)?;
    add(text, "\n")
}

/// Adds a line for each eviction.
pub(crate) fn add_evictions(
    text: &mut String,
    evictions: &[Option<Eviction>],
    names: Names<'_>,
) -> Result<(), AllocError>
    ensures { OnOk result (string_bytes text.new
        ≡ string_bytes text.old ++ flat_map (eviction_text (pods_in names.entry.pods.now)) evictions.now) }
{
    for eviction in evictions {
        add_eviction(text, eviction, names)?;
    }
    Ok(())
}

/// The last line of a report.
#[tactic(auto, unfolding(crate::specs::rule::Lines::totals_line))]
pub(crate) fn totals_line(alloc: Global, summary: &Summary<'_>) -> Result<String, AllocError>
    ensures { IfOk result (λ s. string_bytes s ≡ totals_line summary.now.totals) }
{
    let updates = summary.totals.updates;
    let events = summary.totals.events;
    let orders = summary.totals.orders;
    format!(in alloc; "totals updates={updates} events={events} orders={orders}\n")
}
