//! The pieces of a round.

ghost use Rattle.std.specs.Prelude.{◌≡◌, ◌<◌, length, replicate, IsTrue, OnOk, IfOk};
ghost use Rattle.pod_piece.specs.rule.Piece.{updated};
ghost use Rattle.totals.specs.state.Totals.{IsEntryOf};
ghost use Rattle.totals.specs.state.Limits.{IsLow};
ghost use Rattle.round_core.specs.state.Pool.{no_entry, entry_at};
ghost use Rattle.played_round.specs.state.Table.{IsWaiting, IsUpdate};

use pod_piece::PodPiece;
use std::alloc::{AllocError, Global};
use std::marker::Model;
use totals::Entry;

const NO_ENTRY: Entry = Entry {
    events: 0,
    orders: 0,
};

/// Updates a piece, and gives what that adds to the totals.
fn update(piece: &mut PodPiece) -> Result<Entry, AllocError>
    requires { piece.old.waiting ≡ 1 }
    ensures piece { OnOk result (piece.new ≡ updated piece.old) }
    ensures entry { IfOk result (λ entry. IsEntryOf (updated piece.old) entry) }
    ensures low { IfOk result IsLow }
{
    piece.update_in_place()?;
    Ok(Entry::last_of(piece))
}

/// The pieces of a round by their numbers, and for each what its update adds to the totals.
#[derive(Drop)]
pub(crate) struct Table {
    pub(crate) pieces: Vec<PodPiece>,
    entries: Vec<Entry>,
}

impl Model for Table {
    ghost use Rattle.played_round.specs.state.Table.{TableState};

    ghost Value = { TableState };

    ghost view = { λ table. record { pieces = table.pieces.items; entries = table.entries.items } };
}

impl Table {
    /// Pieces of which none is updated yet.
    pub(crate) fn new(alloc: Global, pieces: Vec<PodPiece>) -> Result<Table, AllocError>
        ensures pieces { IfOk result (λ table. table.pieces ≡ pieces.items) }
        ensures entries { IfOk result (λ table. table.entries ≡ replicate (length pieces.items) no_entry) }
    {
        let entries = vec![in alloc; NO_ENTRY; pieces.len()]?;
        Ok(Table { pieces, entries })
    }

    /// How many pieces there are.
    pub(crate) fn len(&self) -> usize
        ensures { result ≡ length self.now.pieces }
    {
        self.pieces.len()
    }

    /// What the update of the piece with the number adds to the totals.
    pub(crate) fn entry(&self, number: usize) -> Entry
        requires { number < length self.now.entries }
        ensures { result ≡ entry_at self.now.entries number }
    {
        self.entries[number]
    }

    /// Updates the piece with the number.
    pub(crate) fn update(&mut self, number: usize) -> Result<(), AllocError>
        requires { IsWaiting self.old number }
        ensures { OnOk result (IsUpdate number self.old self.new) }
    {
        let entry = update(&mut self.pieces[number])?;
        self.entries[number] = entry;
        Ok(())
    }
}
