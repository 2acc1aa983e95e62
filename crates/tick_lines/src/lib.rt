//! A tick line of a trace, as it is written: the pods' entries and the node's signals.
#![tactic(auto)]

mod conditions;
mod entry;
mod fault;
mod fields;
mod items;
pub mod laws;
mod line;
mod listing;
mod probing;
mod reason;
mod resizes;
mod samples;
mod tape;
mod tape_line;
mod truth;
mod usage;
mod value;

pub use conditions::{ConditionStatuses, ConditionsMember};
pub use entry::TickEntry;
pub use fault::TickLineFault;
pub use line::{TickLine, entries_of, tick_line_of};
pub use listing::{ListedInstance, Listing};
pub use probing::ProbeResult;
pub use reason::ReasonMember;
pub use resizes::{ContainerResize, ResizedMember};
pub use tape::{EntryText, ListingText, ResultText, entry_text, listing_text, result_text};
pub use tape_line::{LineSamples, LineText, line_text, samples_text};
pub use truth::{TruthMember, truth_of};
pub use value::TickValue;
