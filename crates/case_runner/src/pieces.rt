//! A pod by itself: what stands where it is refused memory.

ghost use Rattle.std.specs.Prelude.{◌≡◌, ◌<◌, IfOk, OnOk};

use crate::alike::are_alike;
use crate::handing::{self, Unhanded};
use crate::recorded::{pod, shown};
use crate::seen::{Line, Saw, Unprepared};
use manifest::MaxRestartDelay;
use pod_piece::PodPiece;
use std::alloc::Global;

/// A call of a piece.
#[derive(Clone, Copy)]
pub(crate) enum PieceCall {
    Hand,
    UpdateInPlace,
    Update,
}

/// How far a piece has come.
#[derive(Clone, Copy)]
pub(crate) enum Stage {
    /// Nothing was handed to it.
    Fresh,
    /// It was handed a first tick.
    Pending,
    /// That has come into its status.
    Updated,
}

impl From<Unhanded> for Unprepared {
    fn from(_: Unhanded) -> Unprepared {
        Unprepared
    }
}

/// The pod of the trace with this number, to which nothing was handed.
fn fresh(alloc: Global, number: usize) -> Result<PodPiece, Unprepared>
    ensures { IfOk result (λ piece. piece.number ≡ number) }
{
    let pod = pod(alloc, number)?;
    Ok(PodPiece::new(alloc, number, pod, MaxRestartDelay::unset())?)
}

/// The piece takes what the first tick shows of the pod with this number.
fn hand_first(alloc: Global, piece: &mut PodPiece, number: usize) -> Result<(), Unprepared>
    ensures number { piece.new.number ≡ piece.old.number }
    ensures pending { OnOk result (0 < piece.new.waiting) }
{
    let observed = shown(alloc, number)?;
    handing::hand(piece, observed)?;
    Ok(())
}

/// The pod with this number, to which the first tick was handed.
pub(crate) fn pending(alloc: Global, number: usize) -> Result<PodPiece, Unprepared>
    ensures number { IfOk result (λ piece. piece.number ≡ number) }
    ensures pending { IfOk result (λ piece. 0 < piece.waiting) }
{
    let mut piece = fresh(alloc, number)?;
    hand_first(alloc, &mut piece, number)?;
    Ok(piece)
}

/// The pending piece once it is updated.
fn after(piece: PodPiece) -> Result<PodPiece, Unprepared>
    requires { 0 < piece.waiting }
{
    Ok(piece.update()?)
}

/// The pod with this number at this stage.
fn at_stage(alloc: Global, number: usize, stage: Stage) -> Result<PodPiece, Unprepared> {
    match stage {
        Stage::Fresh => fresh(alloc, number),
        Stage::Pending => pending(alloc, number),
        Stage::Updated => after(pending(alloc, number)?),
    }
}

/// Whether the piece shows the pod with this number at this stage.
pub(crate) fn shows(
    alloc: Global,
    piece: &PodPiece,
    number: usize,
    stage: Stage,
) -> Result<bool, Unprepared> {
    let wanted = at_stage(alloc, number, stage)?;
    Ok(are_alike(piece, &wanted))
}

/// What was seen, if the first pod has come to this stage by a second call.
fn come_to(alloc: Global, piece: &PodPiece, stage: Stage, saw: Saw) -> Result<Saw, Unprepared> {
    if shows(alloc, piece, 0, stage)? {
        Ok(saw)
    } else {
        Ok(Saw::Wrong("the second call leaves something else"))
    }
}

fn handed_again(alloc: Global, piece: &mut PodPiece) -> Result<Saw, Unprepared> {
    if !shows(alloc, piece, 0, Stage::Fresh)? {
        return Ok(Saw::Wrong("the piece is another than it was"));
    }
    let saw = Saw::Refused("the piece is as it was, and takes the observation");
    match hand_first(alloc, piece, 0) {
        Ok(()) => come_to(alloc, piece, Stage::Pending, saw),
        Err(_) => Ok(Saw::Wrong("the second call is refused")),
    }
}

/// `PodPiece::hand`, of a piece that nothing was handed to.
fn hand(alloc: Global, piece: &mut PodPiece) -> Result<Saw, Unprepared> {
    let observed = shown(alloc, 0)?;
    match handing::hand(piece, observed) {
        Ok(()) => Ok(Saw::Done),
        Err(Unhanded::OutOfMemory) => handed_again(alloc, piece),
        Err(Unhanded::NotNext) => Ok(Saw::Wrong("the piece does not accept the observation")),
    }
}

fn updated_in_place_again(alloc: Global, piece: &mut PodPiece) -> Result<Saw, Unprepared> {
    if !piece.pending() || !shows(alloc, piece, 0, Stage::Pending)? {
        return Ok(Saw::Wrong("the piece is another than it was"));
    }
    let saw = Saw::Refused("the piece is as it was, and is updated");
    match piece.update_in_place() {
        Ok(()) => come_to(alloc, piece, Stage::Updated, saw),
        Err(_) => Ok(Saw::Wrong("the second call is refused")),
    }
}

/// `PodPiece::update_in_place`, of a pending piece.
fn update_in_place(alloc: Global, piece: &mut PodPiece) -> Result<Saw, Unprepared> {
    if !piece.pending() {
        return Ok(Saw::Wrong("the piece is not pending"));
    }
    match piece.update_in_place() {
        Ok(()) => Ok(Saw::Done),
        Err(_) => updated_in_place_again(alloc, piece),
    }
}

/// What is to be seen of a pending piece that came back, if it is updated by a second call.
fn returned(alloc: Global, piece: &PodPiece) -> Result<Saw, Unprepared> {
    if shows(alloc, piece, 0, Stage::Pending)? {
        Ok(Saw::Refused("the piece comes back as it was, and is updated"))
    } else {
        Ok(Saw::Wrong("the piece is another than it was"))
    }
}

/// Whether the pending piece shows the first pod once it is updated.
fn shows_after(alloc: Global, piece: PodPiece) -> Result<bool, Unprepared>
    requires { 0 < piece.waiting }
{
    let piece = after(piece)?;
    shows(alloc, &piece, 0, Stage::Updated)
}

fn seen_again(
    saw: Result<Saw, Unprepared>,
    again: Result<bool, Unprepared>,
) -> Result<Saw, Unprepared> {
    match again {
        Ok(true) => saw,
        Ok(false) => Ok(Saw::Wrong("the second call leaves something else")),
        Err(_) => Ok(Saw::Wrong("the second call is refused")),
    }
}

/// What was seen of a pending piece that came back.
fn came_back(alloc: Global, piece: PodPiece) -> Result<Saw, Unprepared>
    requires { 0 < piece.waiting }
{
    // the proof is long where a function that holds a piece branches
    let saw = returned(alloc, &piece);
    let again = shows_after(alloc, piece);
    seen_again(saw, again)
}

/// `PodPiece::update`, of a pending piece.
fn update(alloc: Global) -> Result<Saw, Unprepared> {
    let piece = pending(alloc, 0)?;
    match piece.update() {
        Ok(_) => Ok(Saw::Done),
        Err(refused) => came_back(alloc, refused.piece),
    }
}

/// The call that changes a piece of this stage in its place.
fn change(alloc: Global, piece: &mut PodPiece, stage: Stage) -> Result<Saw, Unprepared> {
    match stage {
        Stage::Fresh => hand(alloc, piece),
        Stage::Pending | Stage::Updated => update_in_place(alloc, piece),
    }
}

fn in_place(alloc: Global, stage: Stage) -> Result<Saw, Unprepared> {
    let mut piece = at_stage(alloc, 0, stage)?;
    change(alloc, &mut piece, stage)
}

/// The call, on a piece of its own.
pub(crate) fn on_piece(alloc: Global, call: PieceCall) -> Result<Line, Unprepared> {
    let (name, saw) = match call {
        PieceCall::Hand => ("hand", in_place(alloc, Stage::Fresh)),
        PieceCall::UpdateInPlace => ("update_in_place", in_place(alloc, Stage::Pending)),
        PieceCall::Update => ("update", update(alloc)),
    };
    Ok(Line { name, saw: saw? })
}
