//! The report of a node.

ghost use Rattle.std.specs.Prelude.{◌≡◌, List, Option, IfOk, OnOk, string_bytes};
ghost use Rattle.manifest.specs.declared.pod.PodSpec.{PodSpec};
ghost use Rattle.node_config.specs.declared.node.NodeConfig.{NodeConfig};
ghost use Rattle.observations.specs.declared.tick.TickObs.{TickObs};
ghost use Rattle.eviction.specs.declared.eviction.Eviction.{Eviction};
ghost use Rattle.node_rounds.specs.state.Node.{piece_after, ArePieces};
ghost use Rattle.node_rounds.specs.state.Summary.{IsSummary};
ghost use Rattle.node_report.specs.rule.Report.{ArePodLines, AreLines, IsReport};
ghost use Rattle.node_report.specs.state.Added.{AreAdded};

use crate::node_text::{
    add_conditions_of_node, add_events, add_evictions, header_line, totals_line,
};
use crate::pod_text::{add, add_pod_text};
use node_rounds::Summary;
use pod_piece::PodPiece;
use std::alloc::{AllocError, Global};

/// Adds the lines of a pod.
fn add_pod_lines(text: &mut String, number: usize, piece: &PodPiece) -> Result<(), AllocError>
    ensures { OnOk result ((config : NodeConfig) (ticks : List TickObs) (evictions : List (Option Eviction))
        (pod : PodSpec)
        → piece.now ≡ piece_after config ticks evictions number pod
        → AreAdded (ArePodLines ticks evictions number pod) (string_bytes text.old) (string_bytes text.new)) }
{
    add_pod_text(text, number, piece.pod(), piece.status())?;
    Ok(())
}

/// Adds the lines of all pods.
fn add_all_lines(text: &mut String, pieces: &[PodPiece]) -> Result<(), AllocError>
    ensures { OnOk result ((config : NodeConfig) (ticks : List TickObs) (evictions : List (Option Eviction))
        (pods : List PodSpec) → ArePieces config pods ticks evictions pieces.now
        → AreAdded (AreLines ticks evictions pods) (string_bytes text.old) (string_bytes text.new)) }
{
    for (number, piece) in pieces.iter().enumerate() {
        add_pod_lines(text, number, piece)?;
    }
    Ok(())
}

/// The report of a node, from its summary: the node, what happened tick after tick, its pods, its
/// conditions, the evictions and the totals, a line for each. An `Err` says that memory was refused.
pub fn report_text(alloc: Global, summary: &Summary<'_>) -> Result<String, AllocError>
    ensures { IfOk result (λ s. (config : NodeConfig) (pods : List PodSpec) (ticks : List TickObs)
        → IsSummary config pods ticks summary.now → IsReport config ticks pods (string_bytes s)) }
{
    let names = summary.names();
    let mut text = header_line(alloc, summary.name, summary.pods.len(), summary.ticks)?;
    add_events(&mut text, summary.events, names)?;
    add_all_lines(&mut text, summary.pods)?;
    add_conditions_of_node(&mut text, &summary.conditions)?;
    add_evictions(&mut text, summary.evictions, names)?;
    let totals = totals_line(alloc, summary)?;
    add(&mut text, totals.as_str())?;
    Ok(text)
}
