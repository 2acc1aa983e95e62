//! The results of probes in an entry, as they are written.

ghost use Rattle.std.specs.Prelude.{◌≡◌, option_map};
ghost use Rattle.json_fields.specs.state.Reading.{GivesExactly, GivesUnless, checked};
ghost use Rattle.tick_lines.specs.state.Memory.{is_memory};
ghost use Rattle.tick_lines.specs.rule.Results.{probe_named, outcome_named, result_of};

use crate::fault::TickLineFault;
use crate::fields::{text_of, written_text};
use crate::items::ReadItem;
use crate::value::TickValue;
use json_fields::{Json, text_at};
use manifest::{Outcome, ProbeKind, Text};
use std::alloc::Global;

/// A result of a container's probe.
#[derive(Drop)]
pub struct ProbeResult {
    /// The container's name.
    pub container: Text,
    /// Which of its probes.
    pub probe: ProbeKind,
    /// What the probe found. (Kubernetes, "Pod Lifecycle", "Probe outcome".)
    pub outcome: Outcome,
}

pub(crate) fn probe_named(found: Option<&str>) -> Result<ProbeKind, TickLineFault>
    ensures { GivesExactly (λ p. p) result (probe_named (option_map (λ s. s.now) found.entry)) }
{
    let Some(name) = found else {
        return Err(TickLineFault::Usage);
    };
    match name {
        "startup" => Ok(ProbeKind::Startup),
        "liveness" => Ok(ProbeKind::Liveness),
        "readiness" => Ok(ProbeKind::Readiness),
        _ => Err(TickLineFault::Usage),
    }
}

pub(crate) fn outcome_named(found: Option<&str>) -> Result<Outcome, TickLineFault>
    ensures { GivesExactly (λ o. o) result (outcome_named (option_map (λ s. s.now) found.entry)) }
{
    let Some(name) = found else {
        return Err(TickLineFault::Usage);
    };
    match name {
        "success" => Ok(Outcome::Success),
        "failure" => Ok(Outcome::Failure),
        "unknown" => Ok(Outcome::Unknown),
        _ => Err(TickLineFault::Usage),
    }
}

#[tactic(auto, unfolding(crate::specs::rule::Results::result_of))]
fn result_of<V: Json>(alloc: Global, value: &V) -> Result<ProbeResult, TickLineFault>
    ensures { GivesUnless is_memory (λ r. r) result (result_of (V.data value.now)) }
{
    Ok(ProbeResult {
        container: text_of(alloc, text_at(value, "container"))?,
        probe: probe_named(text_at(value, "probe"))?,
        outcome: outcome_named(text_at(value, "result"))?,
    })
}

/// Whether a result can be read, or its fault.
#[tactic(auto, unfolding(crate::specs::rule::Results::result_of))]
fn check_result<V: Json>(value: &V) -> Result<(), TickLineFault>
    ensures { result ≡ checked (result_of (V.data value.now)) }
{
    written_text(text_at(value, "container"))?;
    probe_named(text_at(value, "probe"))?;
    outcome_named(text_at(value, "result"))?;
    Ok(())
}

impl ReadItem for ProbeResult {
    ghost read_of = { result_of };

    fn read<V: TickValue>(alloc: Global, item: &V) -> Result<ProbeResult, TickLineFault> {
        result_of(alloc, item)
    }

    fn check<V: TickValue>(item: &V) -> Result<(), TickLineFault> {
        check_result(item)
    }
}
