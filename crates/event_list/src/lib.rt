//! What happens on a node: its events, tick after tick, and their text.
//!
//! An [`Event`] has its moment and what happened: to a container of a pod, to a pod, or to the node. Those of a tick
//! have one order, which the report has too:
//!
//! ```text
//! of each pod, by number:   its containers' events, by number; then its phase
//! of the node:              thresholds; then conditions
//! of the choice:            one, if the rules chose a pod: it is evicted, or named alone
//! ```
//!
//! The module `Events` of `specs/` defines the events of a list of ticks and its evictions over the whole history
//! (`AreEvents`): the parts of the ticks, one behind the other, each made by the definitions of `pod_state`,
//! `node_signals` and `eviction`. By [`laws`] ticks with their evictions have one such list and no other.
//! [`add_events`] adds the events of more ticks to a list, from the pieces that took them, and [`add_choice`] that of
//! whom the rules chose; the module `Text` says what an event reads like, and [`event_text`] writes it.
#![tactic(auto)]

mod event;
pub mod laws;
mod names;
mod phrases;
mod text;
mod tick;
mod words;

pub use event::{Event, EventKind};
pub use names::Names;
pub use phrases::add_with_number;
pub use text::{add_event_text, add_eviction_words, event_text};
pub use tick::{TickEvents, add_choice, add_events};
pub use words::{eviction_words, phase_word, truth_word};
