//! The words of the report.

ghost use Rattle.std.specs.Prelude.{◌≡◌, ◌++◌, codes, IfOk, OnOk, string_bytes};
ghost use Rattle.std.specs.Fmt.{decimal};
ghost use Rattle.signals.specs.rule.Signals.{name_of, kind_name};
ghost use Rattle.event_list.specs.rule.Text.{phase_word, truth, cause_word, activity, eviction_words};
ghost use Rattle.event_list.specs.state.Text.{Extends};

use crate::phrases::{add, add_with_number};
use phase::Phase;
use pod_piece::EvictOrder;
use probes::Cause;
use signals::{Signal, ThresholdKind};
use std::alloc::{AllocError, Global};

/// `Pending`, `Running`, `Succeeded` or `Failed`.
pub fn phase_word(phase: Phase) -> &'static str
    ensures { result.now ≡ phase_word phase }
{
    match phase {
        Phase::Pending => "Pending",
        Phase::Running => "Running",
        Phase::Succeeded => "Succeeded",
        Phase::Failed => "Failed",
    }
}

/// `True` or `False`, the value of a condition.
pub fn truth_word(value: bool) -> &'static str
    ensures { result.now ≡ truth value }
{
    if value { "True" } else { "False" }
}

pub(crate) fn cause_word(cause: Cause) -> &'static str
    ensures { result.now ≡ cause_word cause }
{
    match cause {
        Cause::Startup => "startup",
        Cause::Liveness => "liveness",
    }
}

pub(crate) fn activity_word(active: bool) -> &'static str
    ensures { result.now ≡ activity active }
{
    if active { "active" } else { "cleared" }
}

/// Appends a threshold by its signal and its kind.
pub(crate) fn add_threshold(
    text: &mut String,
    signal: Signal,
    kind: ThresholdKind,
) -> Result<(), AllocError>
    ensures ok { OnOk result (string_bytes text.new
        ≡ string_bytes text.old ++ (name_of signal ++ (codes " " ++ kind_name kind))) }
    ensures more { Extends (string_bytes text.old) (string_bytes text.new) }
{
    add(text, signal.name())?;
    add(text, " ")?;
    add(text, kind.name())
}

/// Appends what follows the key of the pod that is evicted, with a space before each part.
pub(crate) fn add_order(text: &mut String, order: EvictOrder) -> Result<(), AllocError>
    ensures ok { OnOk result (string_bytes text.new ≡ string_bytes text.old
        ++ (codes " " ++ ((name_of order.signal ++ (codes " " ++ kind_name order.kind))
        ++ (codes " " ++ decimal order.grace)))) }
    ensures more { Extends (string_bytes text.old) (string_bytes text.new) }
{
    add(text, " ")?;
    add_threshold(text, order.signal, order.kind)?;
    add_with_number(text, " ", order.grace)
}

/// An eviction of the pod with this key: `KEY SIGNAL KIND GRACE`, with the grace period in seconds.
#[tactic(auto, unfolding(crate::specs::rule::Text::eviction_words))]
pub fn eviction_words(alloc: Global, key: &str, order: EvictOrder) -> Result<String, AllocError>
    ensures { IfOk result (λ s. string_bytes s ≡ eviction_words key.now order) }
{
    let mut text = String::from_str(alloc, key)?;
    add_order(&mut text, order)?;
    Ok(text)
}
