//! From the contexts that come back to the pieces in order.

ghost use Rattle.std.specs.Prelude.{◌≡◌, ◌<◌, ◌≤◌, ◌+◌, IfOk, IfErr, length, map, vec_len};
ghost use Rattle.observations.specs.rule.Limits.{most_pods};
ghost use Rattle.event_book.specs.state.Shares.{most_parts};
ghost use Rattle.totals.specs.state.Limits.{AreLow};
ghost use Rattle.piece_deques.specs.state.Rule.{AreNumbered};
ghost use Rattle.worker_results.specs.state.Gated.{IsRefused};
ghost use Rattle.pool_workers.specs.state.Contexts.{context_tag, AreLaid};
ghost use Rattle.pool_workers.specs.state.Order.{IsRoundDone};
ghost use Rattle.pool_workers.specs.state.Rooms.{HasRoom};

use crate::absorb::absorb_all;
use crate::collect::collect;
use crate::context::WorkerContext;
use crate::finished_worker::FinishedWorker;
use crate::settle::settle;
use crate::take_apart::take_all_apart;
use event_book::{EventBook, Shares};
use piece_deques::Deal;
use pod_piece::{Gate, PodPiece};
use std::alloc::{AllocError, Global};
use std::sync::ledger::Ledger;
use std::sync::{Mutex, Wait};
use worker_results::{RoundGate, StealHandle};

/// The memory that gathering takes.
#[derive(Drop)]
pub struct ResultBuffers<D: Deal, U: Ledger, E: Ledger, O: Ledger> {
    finished: Vec<FinishedWorker<D, U, E, O>>,
    rows: Vec<Vec<StealHandle<D>>>,
}

impl<D: Deal, U: Ledger, E: Ledger, O: Ledger> ResultBuffers<D, U, E, O> {
    /// Buffers for the contexts of this many workers.
    pub fn new(alloc: Global, workers: usize) -> Result<ResultBuffers<D, U, E, O>, AllocError>
        ensures { IfOk result (HasRoom workers) }
    {
        let finished = Vec::with_capacity(alloc, workers)?;
        let rows = Vec::with_capacity(alloc, workers)?;
        Ok(ResultBuffers { finished, rows })
    }
}

/// Takes the contexts of workers that have ended apart, finishes what is left in their deques, and returns the pieces
/// of the round in order, each with all its ticks, and with the whole share, with which each was entered. An `Err` is a
/// piece an update of which failed.
pub fn gather<D: Deal, U: Ledger, E: Ledger, O: Ledger, R: Wait, G: Gate>(
    rt: &R,
    book: &Mutex<EventBook<U, E, O>>,
    gate: &RoundGate<'_, D, G>,
    room: ResultBuffers<D, U, E, O>,
    contexts: Vec<WorkerContext<D, U, E, O>>,
    share: Shares<U, E, O>,
) -> Result<(Vec<PodPiece>, Shares<U, E, O>), PodPiece>
    requires numbered { AreNumbered D.all }
    requires few { length D.all ≤ most_pods }
    requires some { 0 < vec_len contexts }
    requires laid { AreLaid D.all (map context_tag contexts.items) }
    requires room { HasRoom (vec_len contexts) room }
    requires parts { share.parts + vec_len contexts ≡ most_parts }
    requires level { (U.parts ≡ most_parts) × (E.parts ≡ most_parts) × (O.parts ≡ most_parts) }
    requires low { AreLow share.totals }
    ensures done { IfOk result (λ r. IsRoundDone D.left D.all share r.0.items r.1) }
    ensures due { IfErr result (IsRefused D.left D.all) }
{
    let ResultBuffers { finished, rows } = room;
    let mut finished = finished;
    let mut rows = rows;
    match take_all_apart(contexts, &mut finished, &mut rows) {
        Ok(()) => absorb_all(&mut finished, rows),
        Err(piece) => {
            drop((finished, rows, share));
            return Err(piece);
        }
    }
    match collect(rt, book, gate, finished) {
        Ok(total) => Ok(settle(rt, book, total, share)),
        Err(piece) => {
            drop(share);
            Err(piece)
        }
    }
}
