//! The line of an event.

ghost use Rattle.std.specs.Prelude.{◌≡◌, ◌++◌, IfOk, OnOk, OnErr, string_bytes, Option, codes};
ghost use Rattle.event_list.specs.rule.Text.{container_of, kind_words, pod_event_words, node_event_words};
ghost use Rattle.event_list.specs.rule.Text.{named_words, event_words, event_line};
ghost use Rattle.event_list.specs.state.Text.{Extends};
ghost use Rattle.event_list.specs.declared.event.EventKind.TheVariants.{Evicted, Named};
ghost use Rattle.node_signals.specs.declared.event.NodeEvent.TheVariants.{Reclaim};
ghost use Rattle.pod_piece.specs.state.Piece.{pods_in};
ghost use Rattle.event_list.specs.state.Names.{pod_in, words_of};

use crate::event::{Event, EventKind};
use crate::names::Names;
use crate::phrases::{add, add_with_number, whole_or_nothing};
use crate::words::{activity_word, add_order, add_threshold, cause_word, phase_word, truth_word};
use containers::PodEventKind;
use eviction::Eviction;
use node_signals::{NodeEvent, ThresholdKey};
use pod_state::PodEvent;
use std::alloc::{AllocError, Global};

/// The name of a container of the pod with the number, and a dash for the pod itself.
fn container_text(names: Names<'_>, number: usize, container: Option<usize>) -> &str
    ensures { result.now ≡ container_of (pod_in names.entry.pods.now number) container }
{
    let Some(place) = container else {
        return "-";
    };
    let Some(pod) = names.pod(number) else {
        return "";
    };
    match pod.containers.as_slice().get(place) {
        Some(container) => container.name.as_str(),
        None => "",
    }
}

/// Appends a space, and what happened to a container or to a pod.
#[tactic(auto, unfolding(crate::specs::rule::Text::kind_words))]
fn add_kind(text: &mut String, kind: PodEventKind) -> Result<(), AllocError>
    ensures ok { OnOk result (string_bytes text.new ≡ string_bytes text.old ++ (codes " " ++ kind_words kind)) }
    ensures more { Extends (string_bytes text.old) (string_bytes text.new) }
{
    match kind {
        PodEventKind::Died { attempt, exit_code } => {
            add_with_number(text, " died ", attempt)?;
            add_with_number(text, " ", exit_code)
        }
        PodEventKind::Started { attempt } => add_with_number(text, " started ", attempt),
        PodEventKind::StartupPassed { attempt } => {
            add_with_number(text, " startup-passed ", attempt)
        }
        PodEventKind::Kill { attempt, cause } => {
            add_with_number(text, " kill ", attempt)?;
            add(text, " ")?;
            add(text, cause_word(cause))
        }
        PodEventKind::Ready => add(text, " ready"),
        PodEventKind::Unready => add(text, " unready"),
        PodEventKind::Backoff { delay } => add_with_number(text, " backoff ", delay),
        PodEventKind::Restart { attempt } => add_with_number(text, " restart ", attempt),
        PodEventKind::Phase { phase } => {
            add(text, " phase ")?;
            add(text, phase_word(phase))
        }
    }
}

#[tactic(auto, unfolding(crate::specs::rule::Text::pod_event_words))]
fn add_pod_event(
    text: &mut String,
    names: Names<'_>,
    number: usize,
    event: PodEvent,
) -> Result<(), AllocError>
    ensures ok { OnOk result (string_bytes text.new
        ≡ string_bytes text.old ++ pod_event_words (pod_in names.entry.pods.now number) event) }
    ensures more { Extends (string_bytes text.old) (string_bytes text.new) }
{
    names.add_key(text, number)?;
    add(text, " ")?;
    add(text, container_text(names, number, event.container))?;
    add_kind(text, event.kind)
}

#[tactic(auto, unfolding(crate::specs::rule::Text::node_event_words))]
fn add_reclaim(text: &mut String, key: ThresholdKey) -> Result<(), AllocError>
    ensures ok { OnOk result (string_bytes text.new ≡ string_bytes text.old ++ node_event_words (Reclaim key)) }
    ensures more { Extends (string_bytes text.old) (string_bytes text.new) }
{
    add(text, "node reclaim ")?;
    add_threshold(text, key.signal, key.kind)
}

#[tactic(auto, unfolding(crate::specs::rule::Text::node_event_words))]
fn add_node_event(text: &mut String, event: NodeEvent) -> Result<(), AllocError>
    ensures ok { OnOk result (string_bytes text.new ≡ string_bytes text.old ++ node_event_words event) }
    ensures more { Extends (string_bytes text.old) (string_bytes text.new) }
{
    match event {
        NodeEvent::Threshold { key, active } => {
            add(text, "node threshold ")?;
            add_threshold(text, key.signal, key.kind)?;
            add(text, " ")?;
            add(text, activity_word(active))
        }
        NodeEvent::Pressure { condition, value } => {
            add(text, "node pressure ")?;
            add(text, condition.name())?;
            add(text, " ")?;
            add(text, truth_word(value))
        }
        NodeEvent::Reclaim { key } => add_reclaim(text, key),
    }
}

#[tactic(auto, unfolding(crate::specs::rule::Text::eviction_words))]
fn add_key_and_order(
    text: &mut String,
    eviction: Eviction,
    names: Names<'_>,
) -> Result<(), AllocError>
    ensures ok { OnOk result (string_bytes text.new ≡ string_bytes text.old ++ words_of names.entry.pods.now eviction) }
    ensures more { Extends (string_bytes text.old) (string_bytes text.new) }
{
    names.add_key(text, eviction.pod)?;
    add_order(text, eviction.order)
}

/// Appends an eviction: `KEY SIGNAL KIND GRACE`, with the key of its pod and the grace period in seconds. If an
/// allocation fails, the text stays as it was.
pub fn add_eviction_words(
    text: &mut String,
    eviction: Eviction,
    names: Names<'_>,
) -> Result<(), AllocError>
    ensures ok { OnOk result (string_bytes text.new ≡ string_bytes text.old ++ words_of names.entry.pods.now eviction) }
    ensures err { OnErr result (string_bytes text.new ≡ string_bytes text.old) }
{
    let length = text.len();
    let added = add_key_and_order(text, eviction, names);
    whole_or_nothing(text, length, added)
}

#[tactic(auto, unfolding(crate::specs::rule::Text::event_words))]
fn add_evicted(text: &mut String, eviction: Eviction, names: Names<'_>) -> Result<(), AllocError>
    ensures ok { OnOk result (string_bytes text.new
        ≡ string_bytes text.old ++ event_words (pods_in names.entry.pods.now) (Evicted eviction)) }
    ensures more { Extends (string_bytes text.old) (string_bytes text.new) }
{
    add(text, "node evicted ")?;
    add_key_and_order(text, eviction, names)
}

#[tactic(auto, unfolding(crate::specs::rule::Text::named_words))]
fn add_key_and_threshold(
    text: &mut String,
    choice: Eviction,
    names: Names<'_>,
) -> Result<(), AllocError>
    ensures ok { OnOk result (string_bytes text.new
        ≡ string_bytes text.old ++ named_words (pods_in names.entry.pods.now) choice) }
    ensures more { Extends (string_bytes text.old) (string_bytes text.new) }
{
    names.add_key(text, choice.pod)?;
    add(text, " ")?;
    add_threshold(text, choice.order.signal, choice.order.kind)
}

#[tactic(auto, unfolding(crate::specs::rule::Text::event_words))]
fn add_named(text: &mut String, choice: Eviction, names: Names<'_>) -> Result<(), AllocError>
    ensures ok { OnOk result (string_bytes text.new
        ≡ string_bytes text.old ++ event_words (pods_in names.entry.pods.now) (Named choice)) }
    ensures more { Extends (string_bytes text.old) (string_bytes text.new) }
{
    add(text, "node names ")?;
    add_key_and_threshold(text, choice, names)
}

/// Appends the words of an event.
#[tactic(auto, unfolding(crate::specs::rule::Text::event_words))]
fn add_words(text: &mut String, event: EventKind, names: Names<'_>) -> Result<(), AllocError>
    ensures ok { OnOk result (string_bytes text.new
        ≡ string_bytes text.old ++ event_words (pods_in names.entry.pods.now) event) }
    ensures more { Extends (string_bytes text.old) (string_bytes text.new) }
{
    match event {
        EventKind::Pod { number, event } => add_pod_event(text, names, number, event),
        EventKind::Node(event) => add_node_event(text, event),
        EventKind::Evicted(eviction) => add_evicted(text, eviction, names),
        EventKind::Named(choice) => add_named(text, choice, names),
    }
}

#[tactic(auto, unfolding(crate::specs::rule::Text::event_line))]
fn add_line(text: &mut String, event: &Event, names: Names<'_>) -> Result<(), AllocError>
    ensures ok { OnOk result (string_bytes text.new
        ≡ string_bytes text.old ++ event_line (pods_in names.entry.pods.now) event.now) }
    ensures more { Extends (string_bytes text.old) (string_bytes text.new) }
{
    add_with_number(text, "event ", event.at)?;
    add(text, " ")?;
    add_words(text, event.kind, names)?;
    add(text, "\n")
}

/// Appends the line of an event, as `event_text` writes it. If an allocation fails, the text stays as it was.
pub fn add_event_text(text: &mut String, event: &Event, names: Names<'_>) -> Result<(), AllocError>
    ensures ok { OnOk result (string_bytes text.new
        ≡ string_bytes text.old ++ event_line (pods_in names.entry.pods.now) event.now) }
    ensures err { OnErr result (string_bytes text.new ≡ string_bytes text.old) }
{
    let length = text.len();
    let added = add_line(text, event, names);
    whole_or_nothing(text, length, added)
}

/// The line of an event in a report, with its newline: `event`, the moment in seconds, and what
/// happened to whom. A pod or a container that the names don't know has an empty name.
pub fn event_text(alloc: Global, event: &Event, names: Names<'_>) -> Result<String, AllocError>
    ensures { IfOk result (λ s. string_bytes s ≡ event_line (pods_in names.entry.pods.now) event.now) }
{
    let mut text = String::new(alloc);
    add_event_text(&mut text, event, names)?;
    Ok(text)
}
