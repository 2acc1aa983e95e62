//! The book in which each update of a pod is entered: how many updates, events and orders there were.
//!
//! Workers enter in a book behind a lock, which tells no clause what is in it, so a worker knows nothing of the totals.
//! But by the type of the book each total is the sum of what was entered with all shares. Once the shares are one again
//! and the book is out of its lock, [`EventBook::audit`] says that its totals are those of the whole share, and
//! [`WholeBook::of_parts`] keeps that.
#![tactic(auto)]

mod blanks;
mod book;
mod shares;
mod whole_book;

pub use blanks::Blanks;
pub use book::{EventBook, Full};
pub use shares::Shares;
pub use totals::{Entry, Totals};
pub use whole_book::WholeBook;
