//! The lines of a text, each with its content by itself.
#![tactic(auto)]

mod line;
mod lines;
mod model;
mod parts;
mod plain;
mod tape;
mod tick;
mod window;

pub use line::{TextLine, other_line, text_line};
pub use lines::skip_blank_lines;
pub use model::{Window, window_alone, window_by_workers};
pub use parts::joined;
pub use plain::LineBuffers;
pub use tape::{LONGEST_TAPE, tape_moment, tick_tape};
pub use tick::{TickRecord, tick_record};
pub use window::next_tick_lines;
