//! The choice of one tick, and its eviction.

ghost use Rattle.std.specs.Prelude.{◌≡◌, Some, IfOk};
ghost use Rattle.node_pods.specs.state.Pods.{IsCandidate};
ghost use Rattle.ranking.specs.rule.Order.{IsVictim};
ghost use Rattle.node_rounds.specs.state.Evict.{IsChoiceAt, MayBeCarriedOut, AreWithout};

use eviction::{Eviction, order_for};
use node_config::NodeConfig;
use node_pods::NodePods;
use node_signals::ThresholdKey;
use pod_piece::PodPiece;
use std::alloc::AllocError;

/// The choice of the victim, if there is one, at this moment, in seconds, for the threshold.
fn choice_of(
    config: &NodeConfig,
    pieces: &[PodPiece],
    at: u64,
    key: ThresholdKey,
    victim: Option<usize>,
) -> Option<Eviction>
    requires { IsVictim key.signal config.now.has_dedicated_imagefs (IsCandidate pieces.now at) victim }
    ensures { IsChoiceAt config.now pieces.now at (Some key) result }
{
    let number = victim?;
    let piece = pieces.get(number)?;
    Some(Eviction {
        pod: number,
        order: order_for(config, piece.pod(), at, key),
    })
}

/// The choice at this moment, in seconds, for the threshold on which the node acts. Returns `Err` if an allocation
/// fails.
pub fn choice_for(
    config: &NodeConfig,
    pods: &NodePods,
    at: u64,
    served: Option<ThresholdKey>,
) -> Result<Option<Eviction>, AllocError>
    requires { pods.now.has_dedicated_imagefs ≡ config.now.has_dedicated_imagefs }
    ensures { IfOk result (IsChoiceAt config.now pods.now.pieces at served) }
{
    let Some(key) = served else {
        return Ok(None);
    };
    let victim = pods.first(key.signal, at)?;
    Ok(choice_of(config, pods.pieces(), at, key, victim))
}

/// Carries the eviction out, if there is one.
pub fn carry_out(pods: &mut NodePods, eviction: Option<Eviction>)
    requires { MayBeCarriedOut pods.old.pieces eviction }
    ensures pieces { AreWithout pods.old.pieces eviction pods.new.pieces }
    ensures max_restart_delay { pods.new.max_restart_delay ≡ pods.old.max_restart_delay }
    ensures dedicated { pods.new.has_dedicated_imagefs ≡ pods.old.has_dedicated_imagefs }
{
    if let Some(eviction) = eviction {
        pods.evict(eviction.pod, eviction.order);
    }
}
