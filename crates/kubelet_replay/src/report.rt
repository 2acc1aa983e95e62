//! The report of a trace.

ghost use Rattle.std.specs.Prelude.{◌≡◌, ◌≢◌, ◌<◌, ◌≤◌, [], List, None, IsOk, IfOk, OnOk, IsOkUnless, string_bytes};
ghost use Rattle.manifest.specs.declared.pod.PodSpec.{PodSpec};
ghost use Rattle.node_config.specs.declared.node.NodeConfig.{NodeConfig};
ghost use Rattle.observations.specs.declared.tick.TickObs.{TickObs};
ghost use Rattle.trace.specs.state.Sound.{AreAcceptable, HasShape, LeaveInThree};
ghost use Rattle.worker_count.specs.rule.Limit.{most_workers};
ghost use Rattle.tick_round.specs.declared.fault.TickFault.TheVariants.{OutOfMemory};
ghost use Rattle.tick_round.specs.rule.Gated.{AreUpdatesGated};
ghost use Rattle.tick_round.specs.state.Node.{IsAfter};
ghost use Rattle.node_report.specs.rule.Report.{IsReport};
ghost use Rattle.kubelet_replay.specs.rule.Report.{IsReportOf};
ghost use Rattle.kubelet_replay.specs.state.Ticks.{AreReplayable, AreWhole};

use crate::replayed::{take_by_steps, take_by_workers};
use event_book::{Blanks, WholeBook};
use manifest::PodSpec;
use node_report::report_text;
use observations::TickObs;
use std::alloc::{AllocError, Global};
use std::marker::Brand;
use std::sync::ledger::Ledger;
use tick_round::{Gate, Node, Spawner, Step, TickFault};
use trace::Trace;

/// A node of the trace's configuration, with a book over these ledgers and no pods yet, and the trace's pods and ticks.
fn begin<U: Ledger, E: Ledger, O: Ledger>(
    alloc: Global,
    trace: Trace,
    blanks: Blanks,
) -> Result<(Node<U, E, O>, Vec<PodSpec>, Vec<TickObs>), AllocError>
    requires acceptable { AreAcceptable trace.ticks }
    requires shape { HasShape trace.pods trace.arrivals trace.departures trace.ticks }
    requires leaving { LeaveInThree trace.node.version trace.departures }
    requires names { (blanks.updates.name ≡ U.name) × (blanks.events.name ≡ E.name) × (blanks.orders.name ≡ O.name) }
    requires parts { (blanks.updates.parts ≡ U.parts) × (blanks.events.parts ≡ E.parts)
        × (blanks.orders.parts ≡ O.parts) }
    ensures new { IfOk result (λ r. IsAfter trace.node [] [] r.0) }
    ensures pods { IfOk result (λ r. r.1.items ≡ trace.pods) }
    ensures ticks { IfOk result (λ r. r.2.items ≡ trace.ticks) }
    ensures replayable { IfOk result (λ r. AreReplayable r.1.items r.2.items) }
    ensures whole { IfOk result (λ r. (config : NodeConfig) → IsAfter config [] [] r.0
        → AreWhole config.version r.2.items) }
{
    let Trace {
        node,
        pods,
        ticks,
        ..
    } = trace;
    let book = WholeBook::<U, E, O>::new(blanks);
    match Node::new(alloc, node, Vec::new(alloc), book) {
        Ok(node) => Ok((node, pods.into_vec(), ticks.into_vec())),
        Err(fault) => {
            drop((pods, ticks));
            Err(fault)
        }
    }
}

/// The report of a node that is not halted. Returns `Err` if an allocation fails.
fn report_of<U: Ledger, E: Ledger, O: Ledger>(
    alloc: Global,
    node: &Node<U, E, O>,
) -> Result<String, AllocError>
    requires { node.now ≢ None }
    ensures { (config : NodeConfig) (pods : List PodSpec) (ticks : List TickObs) → IsAfter config pods ticks node.now
        → IfOk result (λ s. IsReport config ticks pods (string_bytes s)) }
{
    let Ok(summary) = node.summary() else {
        unreachable!();
    };
    let report = report_text(alloc, &summary)?;
    Ok(report)
}

/// The report of a node that has taken all its ticks. Returns `Err` if an allocation fails.
fn report_after<U: Ledger, E: Ledger, O: Ledger>(
    alloc: Global,
    taken: Result<(), TickFault>,
    node: &Node<U, E, O>,
) -> Result<String, AllocError>
    requires running { OnOk taken (node.now ≢ None) }
    requires memory { IsOkUnless taken OutOfMemory }
    ensures report { (config : NodeConfig) (pods : List PodSpec) (ticks : List TickObs)
        → OnOk taken (IsAfter config pods ticks node.now)
        → IfOk result (λ s. IsReport config ticks pods (string_bytes s)) }
    ensures taken { OnOk result (IsOk taken) }
{
    match taken {
        Ok(()) => report_of(alloc, node),
        Err(_) => Err(AllocError),
    }
}

/// The report of a trace, on a node with a book over these ledgers, each of whose ticks is a round that is simulated
/// for this many workers, by these steps.
fn by_steps<U: Ledger, E: Ledger, O: Ledger>(
    alloc: Global,
    trace: Trace,
    blanks: Blanks,
    workers: usize,
    steps: &[Step],
) -> Result<String, AllocError>
    requires acceptable { AreAcceptable trace.ticks }
    requires shape { HasShape trace.pods trace.arrivals trace.departures trace.ticks }
    requires leaving { LeaveInThree trace.node.version trace.departures }
    requires names { (blanks.updates.name ≡ U.name) × (blanks.events.name ≡ E.name) × (blanks.orders.name ≡ O.name) }
    requires parts { (blanks.updates.parts ≡ U.parts) × (blanks.events.parts ≡ E.parts)
        × (blanks.orders.parts ≡ O.parts) }
    requires some { 0 < workers }
    requires most { workers ≤ most_workers }
    ensures { IfOk result (λ s. IsReportOf trace (string_bytes s)) }
{
    let (mut node, pods, ticks) = begin::<U, E, O>(alloc, trace, blanks)?;
    let taken = take_by_steps(&mut node, pods, ticks, workers, steps);
    let report = report_after(alloc, taken, &node);
    drop(node);
    report
}

/// The report of a trace, whose pods this many workers update in each tick by the gate, in threads of their own.
fn by_workers<U: Ledger + Send, E: Ledger + Send, O: Ledger + Send, R: Spawner, G: Gate>(
    rt: &R,
    alloc: Global,
    trace: Trace,
    blanks: Blanks,
    workers: usize,
    gate: &G,
) -> Result<String, AllocError>
    requires acceptable { AreAcceptable trace.ticks }
    requires shape { HasShape trace.pods trace.arrivals trace.departures trace.ticks }
    requires leaving { LeaveInThree trace.node.version trace.departures }
    requires names { (blanks.updates.name ≡ U.name) × (blanks.events.name ≡ E.name) × (blanks.orders.name ≡ O.name) }
    requires parts { (blanks.updates.parts ≡ U.parts) × (blanks.events.parts ≡ E.parts)
        × (blanks.orders.parts ≡ O.parts) }
    requires some { 0 < workers }
    requires most { workers ≤ most_workers }
    ensures report { IfOk result (λ s. IsReportOf trace (string_bytes s)) }
    ensures gated { OnOk result (AreUpdatesGated (G.left gate.now) trace.pods [] trace.ticks) }
{
    let (mut node, pods, ticks) = begin::<U, E, O>(alloc, trace, blanks)?;
    let taken = take_by_workers(rt, &mut node, pods, ticks, workers, gate);
    let report = report_after(alloc, taken, &node);
    drop(node);
    report
}

/// The report of a trace that may be replayed, as each trace may that is read: its ticks are rounds that are simulated
/// for this many workers, by these steps. Returns `Err` if an allocation fails.
pub fn report_by_steps(
    alloc: Global,
    trace: Trace,
    workers: usize,
    steps: &[Step],
) -> Result<String, AllocError>
    requires acceptable { AreAcceptable trace.ticks }
    requires shape { HasShape trace.pods trace.arrivals trace.departures trace.ticks }
    requires leaving { LeaveInThree trace.node.version trace.departures }
    requires some { 0 < workers }
    requires most { workers ≤ most_workers }
    ensures { IfOk result (λ s. IsReportOf trace (string_bytes s)) }
{
    by_steps::<Brand, Brand, Brand>(alloc, trace, Blanks::new(), workers, steps)
}

/// The report of a trace that may be replayed, as each trace may that is read: this many workers update its pods by the
/// gate, in threads of their own. Returns `Err` if an allocation fails.
pub fn report_by_workers<R: Spawner, G: Gate>(
    rt: &R,
    alloc: Global,
    trace: Trace,
    workers: usize,
    gate: &G,
) -> Result<String, AllocError>
    requires acceptable { AreAcceptable trace.ticks }
    requires shape { HasShape trace.pods trace.arrivals trace.departures trace.ticks }
    requires leaving { LeaveInThree trace.node.version trace.departures }
    requires some { 0 < workers }
    requires most { workers ≤ most_workers }
    ensures report { IfOk result (λ s. IsReportOf trace (string_bytes s)) }
    ensures gated { OnOk result (AreUpdatesGated (G.left gate.now) trace.pods [] trace.ticks) }
{
    by_workers::<Brand, Brand, Brand, R, G>(rt, alloc, trace, Blanks::new(), workers, gate)
}
