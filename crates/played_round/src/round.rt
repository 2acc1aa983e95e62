//! A round whose steps are taken one by one.

ghost use Rattle.std.specs.Prelude.{◌≡◌, ◌<◌, ◌∷◌, [], length, OnOk};
ghost use Rattle.round_core.specs.state.Pool.{give, pop, steal, update, enter, worker_at, finishing_steps};
ghost use Rattle.round_core.specs.state.Pool.{drain_steps};
ghost use Rattle.round_steps.specs.declared.step.Step.TheVariants.{Pop, Update, Enter};
ghost use Rattle.played_round.specs.state.Round.{with_pool};
ghost use Rattle.played_round.specs.state.Playing.{CanUpdate, IsUpdateOf, CanEnter, Stands, Plays};

use crate::table::Table;
use crate::worker::Worker;
use event_book::EventBook;
use round_core::Hand;
use round_steps::Step;
use std::alloc::AllocError;
use std::marker::Model;
use std::sync::ledger::Ledger;

/// The pieces of a round, its workers, and the book.
#[derive(Drop)]
pub(crate) struct Round<U: Ledger, E: Ledger, O: Ledger> {
    pub(crate) table: Table,
    pub(crate) workers: Vec<Worker<U, E, O>>,
    pub(crate) book: EventBook<U, E, O>,
}

impl<U: Ledger, E: Ledger, O: Ledger> Model for Round<U, E, O> {
    ghost use Rattle.played_round.specs.state.Round.{RoundState};

    ghost Value = { RoundState };

    ghost view = { λ round. record {
      table = round.table;
      pool = record { workers = round.workers.items; book = round.book };
    } };
}

impl<U: Ledger, E: Ledger, O: Ledger> Round<U, E, O> {
    /// One more piece at the end of a worker's deque.
    pub(crate) fn give(&mut self, w: usize, number: usize) -> Result<(), AllocError>
        requires { w < length self.old.pool.workers }
        ensures { OnOk result (self.new ≡ with_pool self.old (give self.old.pool w number)) }
    {
        self.workers[w].receive(number)
    }

    fn pop(&mut self, w: usize)
        ensures { self.new ≡ with_pool self.old (pop self.old.pool w) }
    {
        if w < self.workers.len() {
            self.workers[w].pop();
        }
    }

    fn steal(&mut self, thief: usize, owner: usize)
        ensures { self.new ≡ with_pool self.old (steal self.old.pool thief owner) }
    {
        if thief < self.workers.len() && owner < self.workers.len() && thief != owner {
            if let Hand::Empty = self.workers[thief].hand() {
                if let Some(number) = self.workers[owner].give() {
                    self.workers[thief].hold(number);
                }
            }
        }
    }

    fn update(&mut self, w: usize) -> Result<(), AllocError>
        requires { CanUpdate self.old w }
        ensures table { OnOk result (IsUpdateOf (worker_at self.old.pool w).hand self.old.table self.new.table) }
        ensures pool { OnOk result (self.new.pool ≡ update self.old.pool w) }
    {
        if w < self.workers.len() {
            if let Hand::Taken(number) = self.workers[w].hand() {
                self.table.update(number)?;
                self.workers[w].mark();
            }
        }
        Ok(())
    }

    fn enter(&mut self, w: usize) -> Result<(), AllocError>
        requires { CanEnter self.old w }
        ensures { OnOk result (self.new ≡ with_pool self.old (enter self.old.table.entries self.old.pool w)) }
    {
        if w < self.workers.len() {
            if let Hand::Updated(number) = self.workers[w].hand() {
                let entry = self.table.entry(number);
                self.workers[w].enter(&mut self.book, number, entry)?;
            }
        }
        Ok(())
    }

    /// One step; one that is not possible, or names no worker, changes nothing.
    fn step(&mut self, next: Step) -> Result<(), AllocError>
        requires { Stands self.old }
        ensures { OnOk result (Plays self.old (next ∷ []) self.new) }
    {
        match next {
            Step::Pop(w) => self.pop(w),
            Step::Steal { thief, owner } => self.steal(thief, owner),
            Step::Update(w) => self.update(w)?,
            Step::Enter(w) => self.enter(w)?,
        }
        Ok(())
    }

    /// One step after another.
    pub(crate) fn run(&mut self, steps: &[Step]) -> Result<(), AllocError>
        requires { Stands self.old }
        ensures { OnOk result (Plays self.old steps.now self.new) }
    {
        for next in steps {
            self.step(*next)?;
        }
        Ok(())
    }

    /// A worker pops, updates and enters the first piece of its deque.
    fn turn(&mut self, w: usize) -> Result<(), AllocError>
        requires { Stands self.old }
        ensures { OnOk result (Plays self.old (Pop w ∷ Update w ∷ Enter w ∷ []) self.new) }
    {
        self.step(Step::Pop(w))?;
        self.step(Step::Update(w))?;
        self.step(Step::Enter(w))?;
        Ok(())
    }

    /// A worker finishes its hand, and then each piece of its deque.
    fn finish(&mut self, w: usize) -> Result<(), AllocError>
        requires stands { Stands self.old }
        requires in_range { w < length self.old.pool.workers }
        ensures { OnOk result (Plays self.old (finishing_steps w (worker_at self.old.pool w).deque) self.new) }
    {
        let pieces = self.workers[w].deque_len();
        self.step(Step::Update(w))?;
        self.step(Step::Enter(w))?;
        for _turn in 0..pieces {
            self.turn(w)?;
        }
        Ok(())
    }

    /// Each worker in ascending order finishes its hand, and then its deque.
    pub(crate) fn drain(&mut self) -> Result<(), AllocError>
        requires { Stands self.old }
        ensures { OnOk result (Plays self.old (drain_steps 0 self.old.pool.workers) self.new) }
    {
        for w in 0..self.workers.len() {
            self.finish(w)?;
        }
        Ok(())
    }
}
