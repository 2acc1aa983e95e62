//! A job, from the program's words.

ghost use Rattle.std.specs.Prelude.{◌≡◌, ◌≤◌, ◌↔◌, ℕ, IsTrue, IfOk, IfErr, MatchOption, map, option_map};
ghost use Rattle.clap.specs.Words.{found_of, kind_of, rows_of, subcommand_rows_of};
ghost use Rattle.clap.specs.declared.error.kind.ErrorKind.TheVariants.{ValueValidation};
ghost use Rattle.commands.specs.declared.job.Job.{Job};
ghost use Rattle.worker_count.specs.rule.Limit.{most_workers};
ghost use Rattle.commands.specs.state.Jobs.{HasWorkers, format_asked, format_of, IsJobFor, IsJobOf, IsAskedBy};
ghost use Rattle.commands.specs.state.Jobs.{IsRefusal, IsJobAs, Refutes, Refuses};

use crate::fault::UsageFault;
use crate::program::program;
use clap::error::ErrorKind;
use clap::{ArgMatches, Error};
use node_config::Format;
use std::alloc::{AllocError, Global};
use std::convert::AsStr;
use worker_count::MOST_WORKERS;

/// What the program is asked to do.
#[derive(Clone, Copy, Debug, PartialEq, Eq)]
pub enum Job<'a> {
    /// Write the report of a trace, with this many workers.
    Run {
        trace: &'a str,
        workers: usize,
        format: Format,
    },
    /// Check whether a file is a trace.
    Check {
        trace: &'a str,
        format: Format,
    },
    /// Write the report of a trace, with this many workers that take the steps of a steps file.
    Play {
        trace: &'a str,
        steps: &'a str,
        workers: usize,
        format: Format,
    },
}

/// Whether there may be this many workers.
fn may_share(workers: usize) -> bool
    ensures { IsTrue result ↔ ((1 ≤ workers) × (workers ≤ most_workers)) }
{
    workers >= 1 && workers <= MOST_WORKERS
}

/// The number of workers in a subcommand's matches. What clap promises of the program's own arguments it does not
/// promise of a subcommand's, so the number is checked here.
fn workers_in(given: &ArgMatches<'_>) -> Option<usize>
    ensures { MatchOption result ((workers : ℕ) → HasWorkers (rows_of (found_of given.now)) workers → ⊥)
        (HasWorkers (rows_of (found_of given.now))) }
{
    let workers = given.get_one::<usize>("workers")?;
    if may_share(workers) {
        Some(workers)
    } else {
        None
    }
}

/// The format that a flag asks for by its value.
fn format_asked(value: Option<&str>) -> Format
    ensures { result ≡ format_asked (option_map (λ s. s.now) value.entry) }
{
    match value {
        Some("true") => Format::Extended,
        _ => Format::Standard,
    }
}

/// The format that a subcommand's matches ask for.
fn format_in(given: &ArgMatches<'_>) -> Format
    ensures { result ≡ format_of (rows_of (found_of given.now)) }
{
    format_asked(given.get_str("extended"))
}

/// The job of the matches of the subcommand of this name.
fn job_for<'a>(name: &str, given: &ArgMatches<'a>) -> Option<Job<'a>>
    ensures { MatchOption result ((job : Job) → IsJobFor name.now (rows_of (found_of given.now)) job → ⊥)
        (IsJobFor name.now (rows_of (found_of given.now))) }
{
    let trace = given.get_str("TRACE")?;
    let format = format_in(given);
    match name {
        "run" => {
            let workers = workers_in(given)?;
            Some(Job::Run {
                trace,
                workers,
                format,
            })
        }
        "check" => Some(Job::Check { trace, format }),
        "play" => {
            let steps = given.get_str("STEPS")?;
            let workers = workers_in(given)?;
            Some(Job::Play {
                trace,
                steps,
                workers,
                format,
            })
        }
        _ => None,
    }
}

/// The job of the matches of the program.
fn job_in<'a>(matches: &ArgMatches<'a>) -> Option<Job<'a>>
    ensures { MatchOption result ((job : Job) → IsJobOf (subcommand_rows_of matches.now) job → ⊥)
        (IsJobOf (subcommand_rows_of matches.now)) }
{
    let (name, given) = matches.subcommand()?;
    job_for(name, given)
}

/// Why clap rejected the arguments. Doesn't allocate.
fn refusal(error: Error) -> UsageFault
    ensures { IsRefusal error result }
{
    match error.kind() {
        ErrorKind::OutOfMemory => UsageFault::OutOfMemory,
        _ => UsageFault::Refused(error),
    }
}

/// The job that was found, or why there is none. Doesn't allocate.
fn job_as<'a>(found: Result<Job<'a>, Error>) -> Result<Job<'a>, UsageFault>
    ensures { IsJobAs found.entry result }
{
    match found {
        Ok(job) => Ok(job),
        Err(error) => Err(refusal(error)),
    }
}

/// The error of arguments that ask for no job. Its kind is not the one of a failed allocation.
fn no_job(alloc: Global) -> Result<Error, AllocError>
    ensures { IfOk result (λ error. kind_of error ≡ ValueValidation) }
{
    program(alloc)?.error(ErrorKind::ValueValidation, "--workers is from 1 to 64")
}

/// The job that the words ask for, or clap's error where they ask for none.
fn asked_job<'a, S: AsStr>(alloc: Global, words: &'a [S]) -> Result<Job<'a>, Error>
    ensures ok { IfOk result (IsAskedBy (map S.text words.entry.now)) }
    ensures err { IfErr result (Refutes (map S.text words.entry.now)) }
{
    let matches = program(alloc)?.try_get_matches_from(words)?;
    match job_in(&matches) {
        Some(job) => Ok(job),
        None => Err(no_job(alloc)?),
    }
}

/// The job that the words ask for, with 1 to 64 workers. The first word is the program's name.
///
/// `Refused` has clap's error, with the text for the user: a mistake in the words, or help that was
/// asked for.
pub fn job_of<'a, S: AsStr>(alloc: Global, words: &'a [S]) -> Result<Job<'a>, UsageFault>
    ensures ok { IfOk result (IsAskedBy (map S.text words.entry.now)) }
    ensures err { IfErr result (Refuses (map S.text words.entry.now)) }
{
    job_as(asked_job(alloc, words))
}
