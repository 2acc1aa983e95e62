//! The node of a trace, as its ticks leave it.

ghost use Rattle.std.specs.Prelude.{◌-◌, ◌<◌, ◌≤◌, [], length, OnOk, IsOkUnless};
ghost use Rattle.node_config.specs.declared.node.NodeConfig.{NodeConfig};
ghost use Rattle.worker_count.specs.rule.Limit.{most_workers};
ghost use Rattle.tick_round.specs.declared.fault.TickFault.TheVariants.{OutOfMemory};
ghost use Rattle.tick_round.specs.rule.Gated.{AreUpdatesGated};
ghost use Rattle.tick_round.specs.state.Node.{IsAfter};
ghost use Rattle.kubelet_replay.specs.state.Ticks.{AreReplayable, AreWhole, HaveArrived, IsNew, MayArrive};

use manifest::PodSpec;
use node_config::NodeConfig;
use observations::TickObs;
use std::sync::ledger::Ledger;
use std::vec::IntoIter;
use tick_round::{Gate, Node, Spawner, Step, TickFault};

/// Pods arrive one after the other, until this many are left.
fn arrive<U: Ledger, E: Ledger, O: Ledger>(
    node: &mut Node<U, E, O>,
    arriving: &mut IntoIter<PodSpec>,
    left: usize,
) -> Result<(), TickFault>
    requires { MayArrive (length arriving.old.rest.items - left) node.old }
    ensures arrived { OnOk result (HaveArrived arriving.old.rest.items (length arriving.old.rest.items - left)
        node.old node.new arriving.new.rest.items) }
    ensures err { IsOkUnless result OutOfMemory }
{
    let count = arriving.len().saturating_sub(left);
    for _ in 0..count {
        let Some(pod) = arriving.next() else {
            return Ok(());
        };
        node.arrive(pod)?;
    }
    Ok(())
}

/// A new node takes these ticks one after the other, each as a round that is simulated on one thread for this many
/// workers, by these steps. Each of these pods arrives before the first tick that shows it, the ones that no tick shows
/// at the end.
pub(crate) fn take_by_steps<U: Ledger, E: Ledger, O: Ledger>(
    node: &mut Node<U, E, O>,
    pods: Vec<PodSpec>,
    ticks: Vec<TickObs>,
    workers: usize,
    steps: &[Step],
) -> Result<(), TickFault>
    requires new { IsNew node.old }
    requires replayable { AreReplayable pods.items ticks.items }
    requires whole { (config : NodeConfig) → IsAfter config [] [] node.old → AreWhole config.version ticks.items }
    requires some { 0 < workers }
    requires most { workers ≤ most_workers }
    ensures after { (config : NodeConfig) → IsAfter config [] [] node.old
        → OnOk result (IsAfter config pods.items ticks.items node.new) }
    ensures err { IsOkUnless result OutOfMemory }
{
    let count = pods.len();
    let mut arriving = pods.into_iter();
    for tick in ticks {
        arrive(node, &mut arriving, count - tick.pods.as_slice().len())?;
        node.tick_play(tick, workers, steps)?;
    }
    arrive(node, &mut arriving, 0)?;
    Ok(())
}

/// A new node takes the ticks of a trace once all its pods have arrived; this many workers update them by the gate, in
/// threads of their own, round by round. A pod is present from the first tick on that shows it.
pub(crate) fn take_by_workers<
    U: Ledger + Send,
    E: Ledger + Send,
    O: Ledger + Send,
    R: Spawner,
    G: Gate,
>(
    rt: &R,
    node: &mut Node<U, E, O>,
    pods: Vec<PodSpec>,
    ticks: Vec<TickObs>,
    workers: usize,
    gate: &G,
) -> Result<(), TickFault>
    requires new { IsNew node.old }
    requires replayable { AreReplayable pods.items ticks.items }
    requires some { 0 < workers }
    requires most { workers ≤ most_workers }
    ensures after { (config : NodeConfig) → IsAfter config [] [] node.old
        → OnOk result (IsAfter config pods.items ticks.items node.new) }
    ensures gated { OnOk result (AreUpdatesGated (G.left gate.now) pods.items [] ticks.items) }
    ensures err { IsOkUnless result OutOfMemory }
{
    arrive(node, &mut pods.into_iter(), 0)?;
    node.ticks(rt, ticks, workers, gate)
}
