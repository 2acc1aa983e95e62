//! Why a round was not made.

use event_book::Shares;
use pod_piece::PodPiece;
use std::sync::ledger::Ledger;

/// Why a round was not made. Both mean out of memory.
#[derive(Drop)]
pub enum PoolFault<U: Ledger, E: Ledger, O: Ledger> {
    /// An allocation before the first thread failed. The pieces and the share come back as they were.
    NoRoom(Vec<PodPiece>, Shares<U, E, O>),
    /// An update of this piece failed: the ticks before the failed one are taken, and it still waits. The others are
    /// dropped.
    Update(PodPiece),
}
