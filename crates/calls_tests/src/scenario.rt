//! What the calls that update pods under a gate are made with.

ghost use Rattle.std.specs.Prelude.{◌<◌, ◌≤◌};
ghost use Rattle.worker_count.specs.rule.Limit.{most_workers};

use kubelet_replay::Gate;
use std::alloc::Global;
use trace::{Format, LineFault, Trace, read_trace};

/// The pods of a trace are updated by this many workers, 1 to 64, in threads of their own under a gate.
#[derive(Drop)]
pub(crate) struct Scenario<'a, G: Gate> {
    pub(crate) text: &'a str,
    pub(crate) workers: usize,
    pub(crate) gate: &'a G,
    ghost some: { 0 < workers },
    ghost most: { workers ≤ most_workers },
}

impl<'a, G: Gate> Scenario<'a, G> {
    /// The pods of the trace that this text says, and this many workers.
    pub(crate) fn new(text: &'a str, workers: usize, gate: &'a G) -> Scenario<'a, G>
        requires some { 0 < workers }
        requires most { workers ≤ most_workers }
    {
        Scenario {
            text,
            workers,
            gate,
        }
    }

    /// The trace that the text says.
    pub(crate) fn trace(&self, alloc: Global) -> Result<Trace, LineFault> {
        read_trace(alloc, Format::Standard, self.text.as_bytes())
    }
}
