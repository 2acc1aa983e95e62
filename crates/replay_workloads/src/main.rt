//! The replays that `bench/run` times: traces that the program makes itself, of the shapes that nodes have, replayed or
//! checked by the calls of the simulator. It prints a digest of the answers, and no times.
//!
//!     replay_workloads JOB SHAPE TICKS WORKERS TRACES SEED [TEXTS]
//!
//! JOB is `run` or `check`, SHAPE a shape by its name; each of this many TRACES has TICKS ticks and comes of another
//! seed. TEXTS is a file of texts: behind the digest it prints what the job answers to each.
#![tactic(auto)]

mod job;
mod lines;
mod pen;
mod shape;
mod texts;
mod words;

use anyhow::{Context, Result, bail};
use job::Job;
use shape::Shape;
use std::env;
use std::hash::{DefaultHasher, Hasher};
use std::rt::Runtime;
use std::sync::Wait;
use std::thread::Threads;

/// So many words say a workload, the program's name among them.
const WORDS: usize = 7;

/// The number that a word is.
fn number(word: &str) -> Result<u64> {
    word.parse::<u64>().context("a word is no number")
}

/// What the words ask for.
#[derive(Clone, Copy)]
struct Workload {
    job: Job,
    shape: Shape,
    ticks: u64,
    traces: u64,
    seed: u64,
}

impl Workload {
    fn of_words(words: &[String]) -> Result<Workload> {
        let [_, job, shape, ticks, workers, traces, seed] = words else {
            bail!("the words are JOB SHAPE TICKS WORKERS TRACES SEED");
        };
        let workers = number(workers.as_str())?;
        Ok(Workload {
            job: Job::of_words(job.as_str(), workers).context(
                "JOB is run or check, by 1 to 64 workers",
            )?,
            shape: Shape::of_name(shape.as_str()).context("no shape has this name")?,
            ticks: number(ticks.as_str())?,
            traces: number(traces.as_str())?,
            seed: number(seed.as_str())?,
        })
    }

    /// The digest of what the job answers to each trace in turn.
    fn digest(&self, rt: &(impl AllocGlobal + Threads + Wait + Sync)) -> Result<u64> {
        let mut hasher = DefaultHasher::new();
        for turn in 0..self.traces {
            let seed = self.seed.wrapping_add(turn << 32);
            let trace = lines::trace(rt.alloc(), &self.shape, self.ticks, seed)?;
            let answer = self.job.answer(rt, self.shape.format, &trace)?;
            hasher.write(answer.as_slice());
        }
        Ok(hasher.finish())
    }
}

fn main(rt: HostRuntime) -> Result<()> {
    let mut words = Vec::new(rt.alloc());
    for word in env::args(&rt)? {
        words.push(word)?;
    }
    let texts = if words.len() > WORDS {
        words.pop()
    } else {
        None
    };
    let workload = Workload::of_words(&words)?;
    let digest = workload.digest(&rt)?;
    println!(rt; "{digest}")?;
    match texts {
        Some(path) => texts::run_all(&rt, workload.job, path.as_str()),
        None => Ok(()),
    }
}
