//! The replay of a node's recorded trace: what each pod's status would have been, as text.
#![tactic(auto)]

mod fault;
pub mod laws;
mod replayed;
mod report;
mod run;

pub use commands::{Job, UsageFault, job_of};
pub use fault::{RunFault, fault_line, status_of};
pub use node_report::report_text;
pub use pod_piece::PodPiece;
pub use replay_stream::{Counted, MemSink, MemSource, ReadFailed, Sink, Source, Stop, WriteFailed};
pub use report::{report_by_steps, report_by_workers};
pub use round_steps::{
    LONGEST_STEPS_FILE, StepsFault, read_steps, steps_fault_line, steps_status_of,
};
pub use run::{check, check_in, replay, replay_in, replay_play, replay_play_in};
pub use tick_round::{Gate, NoGate, Node, Spawner, Step, Summary, TickFault, laws as round_laws};
pub use trace::Format;
