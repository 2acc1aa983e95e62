//! Reading fields of JSON objects step by step, where the first fault is the answer, whichever reader has made them:
//! texts, quantities, limits, and maps from the names of signals.
#![tactic(auto)]

mod borrowed;
mod fault;
mod fields;
mod owned;
mod quantities;
mod scope;
mod signal_map;
mod tape;
mod value;

pub use borrowed::{is_plain, is_plain_in};
pub use fault::FieldFault;
pub use fields::{field, text_at};
pub use quantities::{QuantityMap, limit_in, quantity_in};
pub use scope::Scope;
pub use signal_map::{ReadSignal, read_map};
pub use tape::{MAX_DEPTH, TapeItems, TapeMembers, TapeValue, is_plain_tape};
pub use value::{HasData, Json, MemberNames};
