//! A round of a pool over a book of its own.

ghost use Rattle.std.specs.Prelude.{◌+◌, IfOk, IfErr, OnOk};
ghost use Rattle.pod_pool.specs.state.Faults.{GivesBack};
ghost use Rattle.case_runner.specs.state.Round.{AreFirst, AreLevel, IsWholeShare};

use crate::pieces::{Stage, pending, shows};
use crate::seen::{Line, Saw, Unprepared};
use event_book::{EventBook, Shares};
use pod_piece::{NoGate, PodPiece};
use pod_pool::{PoolFault, Spawner, update_all};
use std::alloc::Global;
use std::sync::Mutex;
use std::sync::ledger::Ledger;
use totals::Totals;

/// This many workers share the two pods.
const WORKERS: usize = 2;

/// What the book has of the first tick: each pod starts, becomes ready and runs.
const TOTALS: Totals = Totals {
    updates: 2,
    events: 6,
    orders: 0,
};

/// The pod of the trace with this number, with a first tick, behind those before it.
fn add_pending(alloc: Global, pieces: &mut Vec<PodPiece>, number: usize) -> Result<(), Unprepared>
    requires { AreFirst number pieces.old.items }
    ensures { OnOk result (AreFirst (number + 1) pieces.new.items) }
{
    let piece = pending(alloc, number)?;
    pieces.push(piece)?;
    Ok(())
}

/// The two pods of the trace, each with a first tick.
fn both_pending(alloc: Global) -> Result<Vec<PodPiece>, Unprepared>
    ensures { IfOk result (λ pieces. AreFirst 2 pieces.items) }
{
    let mut pieces = Vec::new(alloc);
    add_pending(alloc, &mut pieces, 0)?;
    add_pending(alloc, &mut pieces, 1)?;
    Ok(pieces)
}

fn show_both(
    alloc: Global,
    first: &PodPiece,
    second: &PodPiece,
    stage: Stage,
) -> Result<bool, Unprepared> {
    Ok(shows(alloc, first, 0, stage)? && shows(alloc, second, 1, stage)?)
}

/// Whether these are both pods at this stage.
fn are_both(alloc: Global, pieces: &[PodPiece], stage: Stage) -> Result<bool, Unprepared> {
    match pieces {
        [first, second] => show_both(alloc, first, second, stage),
        _ => Ok(false),
    }
}

/// How a round ended.
#[derive(Clone, Copy)]
enum End {
    /// It was made.
    Made,
    /// A growth of memory was refused before it began, and it was made again.
    MadeAgain,
    /// An update in it was refused.
    GivenUp,
}

impl End {
    /// The line of such a round, with these totals in its book.
    fn line(self, saw: Saw, totals: Totals) -> Line {
        let counted = if totals == TOTALS {
            saw
        } else {
            Saw::Wrong("the totals are others")
        };
        match self {
            End::Made => Line {
                name: "update_all",
                saw: counted,
            },
            End::MadeAgain => Line {
                name: "update_all, no room",
                saw: counted,
            },
            End::GivenUp => Line {
                name: "update_all, update",
                saw,
            },
        }
    }
}

/// What was seen of a round that ended so, if the pods are updated.
fn updated(
    alloc: Global,
    pieces: &[PodPiece],
    end: End,
    saw: Saw,
) -> Result<(End, Saw), Unprepared> {
    if are_both(alloc, pieces, Stage::Updated)? {
        Ok((end, saw))
    } else {
        Ok((end, Saw::Wrong("the pieces are others")))
    }
}

/// What was seen of a piece that came back, since its update was refused.
fn given_up(alloc: Global, piece: &PodPiece) -> Result<(End, Saw), Unprepared> {
    if shows(alloc, piece, piece.status().number, Stage::Pending)? {
        Ok((End::GivenUp, Saw::Refused("a piece comes back as it was")))
    } else {
        let saw = Saw::Wrong("the piece is another than it was");
        Ok((End::GivenUp, saw))
    }
}

/// The two pods of the trace, each with a first tick, and the whole share of a book.
#[derive(Drop)]
struct Prepared<U: Ledger, E: Ledger, O: Ledger> {
    pieces: Vec<PodPiece>,
    share: Shares<U, E, O>,
    ghost first: { AreFirst 2 pieces.items },
    ghost whole: { IsWholeShare share },
}

/// Calls of a pool over a book.
#[derive(Drop)]
struct Pool<'a, U: Ledger, E: Ledger, O: Ledger, R> {
    rt: &'a R,
    alloc: Global,
    book: &'a Mutex<EventBook<U, E, O>>,
}

impl<U: Ledger + Send, E: Ledger + Send, O: Ledger + Send, R: Spawner> Pool<'_, U, E, O, R> {
    /// `update_all`.
    fn update(
        &self,
        round: Prepared<U, E, O>,
    ) -> Result<(Vec<PodPiece>, Shares<U, E, O>), PoolFault<U, E, O>>
        requires { AreLevel U.parts E.parts O.parts }
        ensures { IfErr result (GivesBack round.pieces round.share) }
    {
        let Prepared { pieces, share } = round;
        update_all(
            self.rt, self.alloc, pieces, self.book, share, WORKERS, &NoGate,
        )
    }

    /// What was seen of a round that was made.
    fn made(
        &self,
        answer: (Vec<PodPiece>, Shares<U, E, O>),
        end: End,
        saw: Saw,
    ) -> Result<(End, Saw), Unprepared> {
        let saw = updated(self.alloc, &answer.0, end, saw);
        drop(answer);
        saw
    }

    /// The round with what came back of it.
    fn begun_again(&self, round: Prepared<U, E, O>) -> Result<(End, Saw), Unprepared>
        requires { AreLevel U.parts E.parts O.parts }
    {
        let saw = Saw::Refused("pieces and share come back as they were, and are updated");
        match self.update(round) {
            Ok(answer) => self.made(answer, End::MadeAgain, saw),
            Err(fault) => {
                drop(fault);
                let saw = Saw::Wrong("the second call is refused");
                Ok((End::MadeAgain, saw))
            }
        }
    }

    /// What was seen of a round that was not begun.
    fn not_begun(&self, round: Prepared<U, E, O>) -> Result<(End, Saw), Unprepared>
        requires { AreLevel U.parts E.parts O.parts }
    {
        match are_both(self.alloc, &round.pieces, Stage::Pending) {
            Ok(true) => self.begun_again(round),
            Ok(false) => {
                drop(round);
                let saw = Saw::Wrong("the pieces are other than they were");
                Ok((End::MadeAgain, saw))
            }
            Err(unprepared) => {
                drop(round);
                Err(unprepared)
            }
        }
    }

    /// How the round ended, and what was seen of it.
    fn played(&self, round: Prepared<U, E, O>) -> Result<(End, Saw), Unprepared>
        requires { AreLevel U.parts E.parts O.parts }
    {
        match self.update(round) {
            Ok(answer) => self.made(answer, End::Made, Saw::Done),
            Err(PoolFault::NoRoom(pieces, share)) => self.not_begun(Prepared { pieces, share }),
            Err(PoolFault::Update(piece)) => {
                let saw = given_up(self.alloc, &piece);
                drop(piece);
                saw
            }
        }
    }
}

/// `update_all`, over this book and its whole share.
pub(crate) fn round<U: Ledger + Send, E: Ledger + Send, O: Ledger + Send, R: Spawner>(
    rt: &R,
    alloc: Global,
    book: EventBook<U, E, O>,
    share: Shares<U, E, O>,
) -> Result<Line, Unprepared>
    requires share { IsWholeShare share }
    requires level { AreLevel U.parts E.parts O.parts }
{
    let pieces = both_pending(alloc)?;
    let book = Mutex::new(book);
    let pool = Pool {
        rt,
        alloc,
        book: &book,
    };
    let (end, saw) = pool.played(Prepared { pieces, share })?;
    Ok(end.line(saw, book.into_inner().totals()))
}
