//! The calls whose time is taken.

use anyhow::{Context, Result, bail};
use kubelet_replay::{
    Counted, Format, MemSource, NoGate, RunFault, check_in, fault_line, replay_in,
};
use std::sync::Wait;
use std::thread::Threads;
use worker_count::MOST_WORKERS;

/// This many bytes a call gives, as a file's reader would.
const BYTES_A_READ: usize = 64 << 10;

/// What is asked of a trace.
#[derive(Clone, Copy)]
pub(crate) enum Job {
    /// Its report, by this many workers.
    Run(usize),
    /// Whether it is a trace.
    Check,
}

impl Job {
    /// The job of this name, by this many workers, of which there are 1 to 64.
    pub(crate) fn of_words(name: &str, workers: u64) -> Option<Job> {
        let workers = usize::try_from(workers).ok()?;
        match name {
            "run" if 0 < workers && workers <= MOST_WORKERS => Some(Job::Run(workers)),
            "check" => Some(Job::Check),
            _ => None,
        }
    }

    /// What is written of a text, or why it is refused.
    fn written(
        self,
        rt: &(impl AllocGlobal + Threads + Wait + Sync),
        format: Format,
        text: &[u8],
    ) -> Result<Vec<u8>, RunFault> {
        let mut input = MemSource::new(text, BYTES_A_READ);
        let mut output = Counted::new(Vec::new(rt.alloc()));
        let done = match self {
            Job::Run(workers) => {
                let workers = workers.clamp(1, MOST_WORKERS);
                replay_in(rt, format, &mut input, &mut output, workers, &NoGate)
            },
            Job::Check => check_in(rt.alloc(), format, &mut input, &mut output),
        };
        match done {
            Ok(()) => Ok(output.into_inner()),
            Err(fault) => Err(fault),
        }
    }

    /// What is written of the trace, which has to be one.
    pub(crate) fn answer(
        self,
        rt: &(impl AllocGlobal + Threads + Wait + Sync),
        format: Format,
        trace: &[u8],
    ) -> Result<Vec<u8>> {
        match self.written(rt, format, trace) {
            Ok(answer) => Ok(answer),
            Err(fault) => bail!("a trace is refused: {}", fault_line(rt.alloc(), &fault)?),
        }
    }

    /// What is written of a text, or the line of its refusal.
    pub(crate) fn told(
        self,
        rt: &(impl AllocGlobal + Threads + Wait + Sync),
        format: Format,
        text: &[u8],
    ) -> Result<String> {
        match self.written(rt, format, text) {
            Ok(answer) => String::from_utf8(answer).context("an answer is no text"),
            Err(fault) => {
                let line = fault_line(rt.alloc(), &fault)?;
                Ok(format!(in rt.alloc(); "{line}\n")?)
            }
        }
    }
}
