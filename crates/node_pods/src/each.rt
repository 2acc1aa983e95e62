//! What a tick, a round and an eviction make of all pods of a node.

ghost use Rattle.std.specs.Prelude.{◌≡◌, ◌↔◌, ℕ, ◌<◌, ◌++◌, ◌∷◌, [], length, map, slice_get, Option, Some, None};
ghost use Rattle.std.specs.Prelude.{IsTrue, IfSome, IfOk, OnOk, OnErr, option_map, option_to_list};
ghost use Rattle.histories.specs.state.Histories.{EndsBefore};
ghost use Rattle.pod_piece.specs.declared.status.PodStatus.{PodStatus};
ghost use Rattle.pod_piece.specs.rule.Piece.{Piece};
ghost use Rattle.pod_piece.specs.state.Piece.{at_rest, with_number};
ghost use Rattle.node_pods.specs.state.Pods.{AreNext, handed_one, handed_each, sent_from, staying, joined_from};
ghost use Rattle.node_pods.specs.state.Pods.{IsEvictable, AreEvicted};
ghost use Rattle.node_pods.specs.state.Steps.{AreFree, IsShownNext, IsNextAt, AreNextBelow, MayTake, IsChangedAt};
ghost use Rattle.node_pods.specs.state.Steps.{AreHandedBelow};
ghost use Rattle.node_pods.specs.state.Ranked.{AreHeldBelow};
ghost use Rattle.ranking.specs.state.Index.{IsIndexOf};

use histories::is_before;
use observations::PodObs;
use pod_piece::{EvictOrder, PodPiece, piece_at};
use quantity::END_OF_TIME;
use ranking::RankIndex;
use std::alloc::{AllocError, Global};

/// What is shown of the pod with the number, or nothing.
fn shown_at(shown: &[Option<PodObs>], number: usize) -> Option<&PodObs>
    requires { number < length shown.now }
    ensures { slice_get shown.now number ≡ Some (option_map (λ o. o.now) result) }
{
    shown[number].as_ref()
}

/// Whether the observation is of this moment, and may be given to the pod.
fn may_be_handed(piece: &PodPiece, observed: &PodObs, at: u64) -> bool
    requires free { piece.now.waiting ≡ 0 }
    requires later { EndsBefore piece.now.handed at }
    ensures { IsTrue result ↔ IsShownNext at piece.now observed.now }
{
    observed.at() == at && at < END_OF_TIME && piece.accepts(observed)
}

/// Whether the moment is later than all that the pod has, and what is shown of it, if anything, is of this moment and
/// may be given to it.
fn is_next(piece: &PodPiece, shown: Option<&PodObs>, at: u64) -> bool
    requires { piece.now.waiting ≡ 0 }
    ensures { IsTrue result ↔ IsNextAt at piece.now (option_map (λ o. o.now) shown.entry) }
{
    if !is_before(piece.last_at(), at) {
        return false;
    }
    match shown {
        Some(observed) => may_be_handed(piece, observed, at),
        None => true,
    }
}

/// Whether the moment is later than all that the pods have, and what is shown of each, if anything, is of this moment
/// and may be given to it.
pub(crate) fn are_next(pieces: &[PodPiece], shown: &[Option<PodObs>], at: u64) -> bool
    requires many { length shown.now ≡ length pieces.now }
    requires free { AreFree pieces.now }
    ensures { IsTrue result ↔ AreNextBelow at pieces.now shown.now (length pieces.now) }
{
    for number in 0..pieces.len() {
        if !is_next(piece_at(pieces, number), shown_at(shown, number), at) {
            return false;
        }
    }
    true
}

/// Gives the pod with the number what is shown of it, if it is present.
fn hand_at(
    pieces: &mut Vec<PodPiece>,
    number: usize,
    shown: Option<PodObs>,
) -> Result<(), AllocError>
    requires within { number < length pieces.old.items }
    requires next { (piece : Piece) → slice_get pieces.old.items number ≡ Some piece → MayTake piece shown }
    ensures ok { OnOk result
        (IsChangedAt (λ p. handed_one p shown) number pieces.old.items pieces.new.items) }
    ensures err { OnErr result (pieces.new.items ≡ pieces.old.items) }
{
    if let Some(observed) = shown {
        pieces[number].hand(observed)?;
    }
    Ok(())
}

/// Gives each pod that is present what is shown of it, by number; after an `Err` the pods below some number have it.
pub(crate) fn hand_all(
    pieces: &mut Vec<PodPiece>,
    shown: Vec<Option<PodObs>>,
) -> Result<(), AllocError>
    requires { AreNext pieces.old.items shown.items }
    ensures ok { OnOk result (pieces.new.items ≡ handed_each pieces.old.items shown.items) }
    ensures some { (i : ℕ) × AreHandedBelow i shown.items pieces.old.items pieces.new.items }
{
    let mut number = 0;
    for observed in shown {
        hand_at(pieces, number, observed)?;
        number += 1;
    }
    Ok(())
}

/// The piece goes out where a tick waits for it, under another number, or is kept.
fn send_or_keep(
    out: &mut Vec<PodPiece>,
    kept: &mut Vec<Option<PodPiece>>,
    piece: PodPiece,
) -> Result<(), AllocError>
    ensures out { OnOk result (out.new.items ≡ out.old.items ++ sent_from (length out.old.items) (piece ∷ [])) }
    ensures kept { OnOk result (kept.new.items ≡ kept.old.items ++ staying (piece ∷ [])) }
{
    if piece.pending() {
        let mut piece = piece;
        piece.renumber(out.len());
        out.push(piece)?;
        kept.push(None)?;
    } else {
        kept.push(Some(piece))?;
    }
    Ok(())
}

/// The pieces for which ticks wait, and those that are kept.
pub(crate) fn all_sent(
    alloc: Global,
    pieces: Vec<PodPiece>,
) -> Result<(Vec<PodPiece>, Vec<Option<PodPiece>>), AllocError>
    ensures out { IfOk result (λ r. r.0.items ≡ sent_from 0 pieces.items) }
    ensures kept { IfOk result (λ r. r.1.items ≡ staying pieces.items) }
{
    let mut out = Vec::with_capacity(alloc, pieces.len())?;
    let mut kept = Vec::with_capacity(alloc, pieces.len())?;
    for piece in pieces {
        send_or_keep(&mut out, &mut kept, piece)?;
    }
    Ok((out, kept))
}

/// The round of the pod with the number is over.
fn rest_at(pieces: &mut Vec<PodPiece>, number: usize)
    requires { number < length pieces.old.items }
    ensures { IsChangedAt at_rest number pieces.old.items pieces.new.items }
{
    pieces[number].rest();
}

/// The round of each pod is over.
pub(crate) fn rest_all(pieces: &mut Vec<PodPiece>)
    ensures { pieces.new.items ≡ map at_rest pieces.old.items }
{
    for number in 0..pieces.len() {
        rest_at(pieces, number);
    }
}

/// The piece, if there is one, with this number.
fn numbered(piece: Option<PodPiece>, number: usize) -> Option<PodPiece>
    ensures { result ≡ option_map (λ p. with_number p number) piece }
{
    let mut piece = piece?;
    piece.renumber(number);
    Some(piece)
}

/// Adds the piece, if there is one.
fn add(all: &mut Vec<PodPiece>, piece: Option<PodPiece>) -> Result<(), AllocError>
    ensures { OnOk result (all.new.items ≡ all.old.items ++ option_to_list piece) }
{
    if let Some(piece) = piece {
        all.push(piece)?;
    }
    Ok(())
}

/// All pieces: those that were kept, and in the places of the others those that come back.
pub(crate) fn all_joined(
    alloc: Global,
    kept: Vec<Option<PodPiece>>,
    back: Vec<PodPiece>,
) -> Result<Vec<PodPiece>, AllocError>
    ensures { IfOk result (λ v. v.items ≡ joined_from 0 kept.items back.items) }
{
    let mut all = Vec::with_capacity(alloc, kept.len())?;
    let mut back = back.into_iter();
    for place in kept {
        let piece = match place {
            Some(piece) => Some(piece),
            None => numbered(back.next(), all.len()),
        };
        add(&mut all, piece)?;
    }
    Ok(all)
}

/// Gives each pod that is present at the moment its place in an index that holds none.
pub(crate) fn rank_all(
    index: &mut RankIndex,
    pieces: &[PodPiece],
    moment: u64,
) -> Result<(), AllocError>
    requires free { AreFree pieces.now }
    requires numbered { (n : ℕ) (piece : Piece) → slice_get pieces.now n ≡ Some piece → piece.number ≡ n }
    ensures signal { index.new.signal ≡ index.old.signal }
    ensures dedicated { index.new.has_dedicated_imagefs ≡ index.old.has_dedicated_imagefs }
    ensures held { OnOk result (IsIndexOf (λ n. None) index.old
        → (held : ℕ → Option PodStatus) × IsIndexOf held index.new
        × AreHeldBelow pieces.now moment (length pieces.now) held) }
{
    for number in 0..pieces.len() {
        index.rank(piece_at(pieces, number), moment)?;
    }
    Ok(())
}

/// Evicts the pod with the number.
pub(crate) fn evict_at(pieces: &mut Vec<PodPiece>, number: usize, order: EvictOrder)
    requires free { AreFree pieces.old.items }
    requires evictable { IsEvictable pieces.old.items number order.at }
    ensures { AreEvicted pieces.old.items number order pieces.new.items }
{
    pieces[number].evict(order);
}
