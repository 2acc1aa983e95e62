//! The book that counts what happens.

ghost use Rattle.std.specs.Prelude.{◌≡◌, ◌<◌, ◌^◌, OnOk, OnErr};
ghost use Rattle.totals.specs.state.Totals.{plus, nothing, one_update};
ghost use Rattle.event_book.specs.state.Shares.{most_parts, share_with, AreWithin, ArePast};

use crate::blanks::Blanks;
use crate::shares::Shares;
use std::marker::Model;
use std::sync::ledger::{Book, Ledger};
use totals::{Entry, Totals};

/// No total passes this.
const GREATEST_TOTAL: u64 = 1 << 63;

/// A total would pass 2^63.
#[derive(Clone, Copy, Debug, PartialEq, Eq)]
pub struct Full;

/// The totals of a node, of which any number of workers may each hold a share. Its type keeps that each
/// total is the sum of what was entered with all shares, and at most 2^63.
#[derive(Drop)]
pub struct EventBook<U: Ledger, E: Ledger, O: Ledger> {
    totals: Totals,
    updates: Book<U>,
    events: Book<E>,
    orders: Book<O>,
}

impl<U: Ledger, E: Ledger, O: Ledger> Model for EventBook<U, E, O> {
    ghost use Rattle.std.specs.Prelude.{◌≡◌};
    ghost use Rattle.totals.specs.declared.totals.Totals.{Totals};
    ghost use Rattle.event_book.specs.state.Shares.{AreWithin};

    ghost Value = { Totals };

    ghost view = { λ b. b.totals };

    ghost invariant = { λ b. (b.totals.updates ≡ b.updates.total) × (b.totals.events ≡ b.events.total)
        × (b.totals.orders ≡ b.orders.total) × AreWithin b.totals };
}

impl<U: Ledger, E: Ledger, O: Ledger> EventBook<U, E, O> {
    /// An empty book over these ledgers, and its whole share, of 65 parts.
    pub fn new(blanks: Blanks) -> (EventBook<U, E, O>, Shares<U, E, O>)
        requires names { (blanks.updates.name ≡ U.name) × (blanks.events.name ≡ E.name)
            × (blanks.orders.name ≡ O.name) }
        requires parts { (blanks.updates.parts ≡ U.parts) × (blanks.events.parts ≡ E.parts)
            × (blanks.orders.parts ≡ O.parts) }
        ensures book { result.0 ≡ nothing }
        ensures whole { result.1 ≡ share_with most_parts nothing }
    {
        let Blanks {
            updates,
            events,
            orders,
        } = blanks;
        let (update_book, update_share) = updates.open::<U>();
        let (event_book, event_share) = events.open::<E>();
        let (order_book, order_share) = orders.open::<O>();
        (
            EventBook {
                totals: Totals {
                    updates: 0,
                    events: 0,
                    orders: 0,
                },
                updates: update_book,
                events: event_book,
                orders: order_book,
            },
            Shares {
                updates: update_share,
                events: event_share,
                orders: order_share,
            },
        )
    }

    /// Adds these totals, in the book and with the share. `Full` comes only where a total would pass 2^63, and
    /// changes nothing.
    pub fn add(&mut self, more: Totals, share: &mut Shares<U, E, O>) -> Result<(), Full>
        requires { 0 < share.old.parts }
        ensures book { OnOk result (self.new ≡ plus self.old more) }
        ensures share { OnOk result (share.new ≡ share_with share.old.parts (plus share.old.totals more)) }
        ensures full { OnErr result (ArePast (plus self.old more)) }
        ensures kept { OnErr result ((self.new ≡ self.old) × (share.new ≡ share.old)) }
    {
        if more.updates > GREATEST_TOTAL - self.totals.updates
            || more.events > GREATEST_TOTAL - self.totals.events
            || more.orders > GREATEST_TOTAL - self.totals.orders
        {
            return Err(Full);
        }
        self.updates.add(&mut share.updates, more.updates);
        self.events.add(&mut share.events, more.events);
        self.orders.add(&mut share.orders, more.orders);
        self.totals.updates += more.updates;
        self.totals.events += more.events;
        self.totals.orders += more.orders;
        Ok(())
    }

    /// Enters one update of a pod with this entry, in the book and with the share. `Full` comes only
    /// where a total would pass 2^63, and changes nothing.
    pub fn enter(&mut self, entry: Entry, share: &mut Shares<U, E, O>) -> Result<(), Full>
        requires { 0 < share.old.parts }
        ensures book { OnOk result (self.new ≡ plus self.old (one_update entry)) }
        ensures share { OnOk result
            (share.new ≡ share_with share.old.parts (plus share.old.totals (one_update entry))) }
        ensures full { OnErr result (ArePast (plus self.old (one_update entry))) }
        ensures kept { OnErr result ((self.new ≡ self.old) × (share.new ≡ share.old)) }
    {
        self.add(Totals::of_update(entry), share)
    }

    /// The totals.
    pub fn totals(&self) -> Totals
        ensures value { result ≡ self.now }
        ensures within { AreWithin result }
    {
        self.totals
    }

    /// Changes nothing, and says that the totals of the whole share are those of the book.
    pub fn audit(&mut self, share: &mut Shares<U, E, O>)
        requires whole { share.old.parts ≡ U.parts }
        requires level { (E.parts ≡ U.parts) × (O.parts ≡ U.parts) }
        ensures book { self.new ≡ self.old }
        ensures share { share.new ≡ share.old }
        ensures totals { self.new ≡ share.new.totals }
    {
        self.updates.audit(&mut share.updates);
        self.events.audit(&mut share.events);
        self.orders.audit(&mut share.orders);
    }

    /// Adds these totals, where no total passes 2^63 by it.
    pub fn add_within(&mut self, more: Totals, share: &mut Shares<U, E, O>)
        requires some { 0 < share.old.parts }
        requires room { AreWithin (plus self.old more) }
        ensures book { self.new ≡ plus self.old more }
        ensures share { share.new ≡ share_with share.old.parts (plus share.old.totals more) }
    {
        match self.add(more, share) {
            Ok(()) => {}
            Err(Full) => unreachable!(),
        }
    }

    /// Enters one update of a pod with this entry, where no total passes 2^63 by it.
    pub fn enter_within(&mut self, entry: Entry, share: &mut Shares<U, E, O>)
        requires some { 0 < share.old.parts }
        requires room { AreWithin (plus self.old (one_update entry)) }
        ensures book { self.new ≡ plus self.old (one_update entry) }
        ensures share { share.new ≡ share_with share.old.parts (plus share.old.totals (one_update entry)) }
    {
        self.add_within(Totals::of_update(entry), share);
    }

    /// Adds these totals with the whole share, whose totals show that the book has room.
    pub fn add_whole(&mut self, more: Totals, share: &mut Shares<U, E, O>)
        requires whole { share.old.parts ≡ most_parts }
        requires level { (U.parts ≡ most_parts) × (E.parts ≡ most_parts) × (O.parts ≡ most_parts) }
        requires room { AreWithin (plus share.old.totals more) }
        ensures { share.new ≡ share_with most_parts (plus share.old.totals more) }
    {
        self.audit(share);
        self.add_within(more, share);
    }

    /// Enters one update of a pod with this entry with the whole share, whose totals show that the book has room.
    pub fn enter_whole(&mut self, entry: Entry, share: &mut Shares<U, E, O>)
        requires whole { share.old.parts ≡ most_parts }
        requires level { (U.parts ≡ most_parts) × (E.parts ≡ most_parts) × (O.parts ≡ most_parts) }
        requires room { AreWithin (plus share.old.totals (one_update entry)) }
        ensures { share.new ≡ share_with most_parts (plus share.old.totals (one_update entry)) }
    {
        self.add_whole(Totals::of_update(entry), share);
    }
}
