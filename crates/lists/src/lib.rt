//! Lists that contracts see as their items: in one piece, in chunks, and of names that are numbered.
#![tactic(auto)]

mod chunked_list;
mod name_list;
mod sequence;

pub use chunked_list::ChunkedList;
pub use name_list::NameList;
pub use sequence::Sequence;
