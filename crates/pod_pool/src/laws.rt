//! What the definitions of the deal and of a failed update imply. A function does nothing; its contract is the law.

ghost use Rattle.pool_workers.specs.state.Dealing.{DealtByRemainder};
ghost use Rattle.worker_results.specs.state.Done.{LeftAsDealt};

/// A worker is dealt just the pieces whose numbers leave its own, divided by how many workers there are, in their
/// order.
pub fn dealt_by_remainder()
    ensures { DealtByRemainder }
{}

/// A piece in which one tick waited comes back as it was if that update failed.
pub fn left_as_dealt()
    ensures { LeftAsDealt }
{}
