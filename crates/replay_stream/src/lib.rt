//! Readers and writers whose bytes a contract knows.
#![tactic(auto)]

mod counted;
mod fault;
mod mem_sink;
mod mem_source;
mod reading;
mod stop;
mod stream;
mod writing;

pub use counted::Counted;
pub use fault::{ReadAllFault, ReadFailed, WriteFailed};
pub use mem_sink::MemSink;
pub use mem_source::MemSource;
pub use reading::read_all;
pub use stop::Stop;
pub use stream::{Sink, Source};
pub use writing::write_all;
