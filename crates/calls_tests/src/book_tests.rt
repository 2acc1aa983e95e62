//! A book of events whose totals reach their limit.

ghost use Rattle.std.specs.Prelude.{◌≡◌, ◌<◌};

use crate::rounds::{BookCall, over_book};
use crate::test_gate::TestGate;
use event_book::{EventBook, Shares};
use std::process::Abort;
use std::sync::ledger::Ledger;
use std::test::Fail;
use totals::{Entry, Totals};

/// Whether the book has room for an update with this many events and orders, which it then has.
fn is_entered<U: Ledger, E: Ledger, O: Ledger>(
    book: &mut EventBook<U, E, O>,
    share: &mut Shares<U, E, O>,
    events: u64,
    orders: u64,
) -> bool
    requires { 0 < share.old.parts }
    ensures { share.new.parts ≡ share.old.parts }
{
    book.enter(Entry { events, orders }, share).is_ok()
}

/// A book takes 2^63 events and 2^63 orders, and none beyond that.
pub(crate) fn fill<U: Ledger, E: Ledger, O: Ledger>(
    rt: &impl Abort,
    book: EventBook<U, E, O>,
    share: Shares<U, E, O>,
)
    requires { 0 < share.parts }
{
    let (mut book, mut share) = (book, share);
    assert!(rt; is_entered(&mut book, &mut share, 1 << 62, 0));
    assert!(rt; is_entered(&mut book, &mut share, 1 << 62, 1 << 62));
    assert!(rt; !is_entered(&mut book, &mut share, 1, 0));
    assert!(rt; is_entered(&mut book, &mut share, 0, 1 << 62));
    assert!(rt; !is_entered(&mut book, &mut share, 0, 1));
    let wanted = Totals {
        updates: 3,
        events: 1 << 63,
        orders: 1 << 63,
    };
    assert_eq!(rt; book.totals(), wanted);
}

#[test]
fn a_full_book_takes_nothing_more(rt: HostRuntime) -> Result<(), Fail> {
    over_book(&rt, BookCall::<TestGate<'_, '_, HostRuntime>>::Enter)
}
