//! A worker of a simulated round.

ghost use Rattle.std.specs.Prelude.{◌≡◌, ◌∷◌, [], length, OnOk, MatchOption};
ghost use Rattle.totals.specs.state.Totals.{plus, nothing, one_update};
ghost use Rattle.event_book.specs.state.Shares.{share_with, AreWithin};
ghost use Rattle.round_core.specs.state.Pool.{idle, with_piece, with_deque, holding, popped, is_empty, with_hand};
ghost use Rattle.round_core.specs.state.Pool.{marked, finished_with};

use event_book::{EventBook, Shares};
use round_core::Hand;
use std::alloc::{AllocError, Global};
use std::collections::VecDeque;
use std::marker::Model;
use std::sync::ledger::Ledger;
use totals::Entry;

/// A worker: the numbers of the pieces in its deque, its hand, the numbers of those that it has finished, and its share
/// of the book, which is one part.
#[derive(Drop)]
pub(crate) struct Worker<U: Ledger, E: Ledger, O: Ledger> {
    deque: VecDeque<usize>,
    hand: Hand,
    finished: Vec<usize>,
    share: Shares<U, E, O>,
}

impl<U: Ledger, E: Ledger, O: Ledger> Model for Worker<U, E, O> {
    ghost use Rattle.std.specs.Prelude.{◌≡◌};
    ghost use Rattle.round_core.specs.state.Pool.{WorkerState};

    ghost Value = { WorkerState };

    ghost view = { λ worker. record {
      deque = worker.deque.items;
      hand = worker.hand;
      finished = worker.finished.items;
      share = worker.share.totals;
    } };

    ghost invariant = { λ worker. worker.share.parts ≡ 1 };
}

impl<U: Ledger, E: Ledger, O: Ledger> Worker<U, E, O> {
    /// A worker with nothing to do and nothing done.
    pub(crate) fn idle(alloc: Global, share: Shares<U, E, O>) -> Self
        requires { share ≡ share_with 1 nothing }
        ensures { result ≡ idle }
    {
        Worker {
            deque: VecDeque::new(alloc),
            hand: Hand::Empty,
            finished: Vec::new(alloc),
            share,
        }
    }

    /// What is in the worker's hand.
    pub(crate) fn hand(&self) -> Hand
        ensures { result ≡ self.now.hand }
    {
        self.hand
    }

    /// How many pieces are in the worker's deque.
    pub(crate) fn deque_len(&self) -> usize
        ensures { result ≡ length self.now.deque }
    {
        self.deque.len()
    }

    /// One more piece at the end of the deque.
    pub(crate) fn receive(&mut self, number: usize) -> Result<(), AllocError>
        ensures { OnOk result (self.new ≡ with_piece self.old number) }
    {
        self.deque.push_back(number)?;
        Ok(())
    }

    /// The first piece of the deque, if there is one.
    pub(crate) fn give(&mut self) -> Option<usize>
        ensures { MatchOption result ((self.old.deque ≡ []) × (self.new ≡ self.old))
            (λ number. (self.old.deque ≡ number ∷ self.new.deque) × (self.new ≡ with_deque self.old self.new.deque)) }
    {
        self.deque.pop_front()
    }

    /// A piece into the hand.
    pub(crate) fn hold(&mut self, number: usize)
        ensures { self.new ≡ holding self.old number }
    {
        self.hand = Hand::Taken(number);
    }

    /// The first piece of the deque into the hand, if that is empty.
    pub(crate) fn pop(&mut self)
        ensures { self.new ≡ popped self.old self.old.deque (is_empty self.old.hand) }
    {
        if let Hand::Empty = self.hand() {
            if let Some(number) = self.give() {
                self.hold(number);
            }
        }
    }

    /// Marks what is in hand as updated.
    pub(crate) fn mark(&mut self)
        ensures { self.new ≡ with_hand self.old (marked self.old.hand) }
    {
        if let Hand::Taken(number) = self.hand {
            self.hand = Hand::Updated(number);
        }
    }

    /// A piece goes from the hand to the finished list, and its entry into the book.
    pub(crate) fn enter(
        &mut self,
        events: &mut EventBook<U, E, O>,
        number: usize,
        entry: Entry,
    ) -> Result<(), AllocError>
        requires { AreWithin (plus events.old (one_update entry)) }
        ensures worker { OnOk result (self.new ≡ finished_with self.old number entry) }
        ensures book { OnOk result (events.new ≡ plus events.old (one_update entry)) }
    {
        self.finished.push(number)?;
        self.hand = Hand::Empty;
        events.enter_within(entry, &mut self.share);
        Ok(())
    }

    /// What the worker has finished, and its share.
    pub(crate) fn into_parts(self) -> (Vec<usize>, Shares<U, E, O>)
        ensures finished { result.0.items ≡ self.finished }
        ensures share { result.1 ≡ share_with 1 self.share }
    {
        (self.finished, self.share)
    }
}
