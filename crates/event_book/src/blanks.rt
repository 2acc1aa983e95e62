//! The ledgers of a book that is still to be opened.

ghost use Rattle.std.specs.Prelude.{◌≡◌};
ghost use Rattle.event_book.specs.state.Shares.{most_parts};

use std::sync::ledger::Blank;

/// Into this many parts the shares of a book can be cut: one for each of 64 workers, and one that stays.
const MOST_PARTS: u64 = 65;

/// The ledgers of a book that is still to be opened. Its type keeps that the share of each can be cut into 65 parts.
#[derive(Drop)]
pub struct Blanks {
    pub updates: Blank,
    pub events: Blank,
    pub orders: Blank,
    ghost parts: { (updates.parts ≡ most_parts) × (events.parts ≡ most_parts) × (orders.parts ≡ most_parts) },
}

impl Blanks {
    /// Ledgers for one book.
    pub fn new() -> Blanks {
        Blanks {
            updates: Blank::new(MOST_PARTS),
            events: Blank::new(MOST_PARTS),
            orders: Blank::new(MOST_PARTS),
        }
    }
}
