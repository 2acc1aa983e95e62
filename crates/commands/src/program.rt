//! The program's command line.

ghost use Rattle.std.specs.Prelude.{◌≡◌, IfOk, false};
ghost use Rattle.clap.specs.Words.{rule_of};
ghost use Rattle.commands.specs.state.Program.{trace_rule, steps_rule, workers_rule, extended_rule, of_trace};
ghost use Rattle.commands.specs.state.Program.{run, check, play, program, IsCommand, IsAbout};
ghost use Rattle.commands.specs.state.Program.{about, run_about, check_about, play_about};

use clap::{Arg, ArgAction, Command};
use std::alloc::{AllocError, Global};
use worker_count::MOST_WORKERS;

/// The program's version: the file VERSION at the top of the repository has the same.
const VERSION: &str = "0.10.0";

const ABOUT: &str =
    "Replays what a kubelet would have decided on a node, from the node's recorded trace.";

const RUN_ABOUT: &str =
    "Writes the report of a trace: why each pod was restarted, became unready or was evicted";

const CHECK_ABOUT: &str = "Says whether a file is a trace, or names its first faulty line";

const PLAY_ABOUT: &str =
    "Writes the same report, with workers that take the steps of a steps file, in their order";

const TRACE_HELP: &str =
    "The node's recorded trace, a file of JSON lines: the node's configuration, its pods, and what was \
    observed at each tick";

const STEPS_HELP: &str =
    "The steps file, a line for each step: `pop W`, `steal W V`, `update W` or `enter W`, where W and V \
    are numbers of workers, from 0 on";

const WORKERS_HELP: &str =
    "How many workers share the lines of the trace and, where they are worth their start, the pods of a tick, from 1 \
    to 64; their number never changes the report";

const EXTENDED_HELP: &str =
    "Takes version 3 of the trace's format as well, in which pods can leave and evictions can pause";

fn trace_arg<'a>(alloc: Global) -> Arg<'a>
    ensures rule { rule_of result ≡ trace_rule }
    ensures local { result.global ≡ false }
{
    Arg::new(alloc, "TRACE").required(true).help(TRACE_HELP)
}

fn steps_arg<'a>(alloc: Global) -> Arg<'a>
    ensures rule { rule_of result ≡ steps_rule }
    ensures local { result.global ≡ false }
{
    Arg::new(alloc, "STEPS").required(true).help(STEPS_HELP)
}

fn workers_arg<'a>(alloc: Global) -> Arg<'a>
    ensures rule { rule_of result ≡ workers_rule }
    ensures local { result.global ≡ false }
{
    Arg::new(alloc, "workers")
        .long("workers")
        .value_name("N")
        .value_parser(clap::value_parser!(usize).range(1..=MOST_WORKERS as i64))
        .default_value("4")
        .help(WORKERS_HELP)
}

fn extended_arg<'a>(alloc: Global) -> Arg<'a>
    ensures rule { rule_of result ≡ extended_rule }
    ensures local { result.global ≡ false }
{
    Arg::new(alloc, "extended")
        .long("extended")
        .action(ArgAction::SetTrue)
        .help(EXTENDED_HELP)
}

/// A subcommand that has a trace.
fn of_trace<'a>(alloc: Global, name: &'static str) -> Result<Command<'a>, AllocError>
    ensures { IfOk result (IsCommand (of_trace name.now)) }
{
    Command::new(alloc, name).arg(trace_arg(alloc))
}

fn run_command<'a>(alloc: Global) -> Result<Command<'a>, AllocError>
    ensures command { IfOk result (IsCommand run) }
    ensures about { IfOk result (IsAbout run_about) }
{
    Ok(
        of_trace(alloc, "run")?
            .arg(workers_arg(alloc))?
            .arg(extended_arg(alloc))?
            .about(RUN_ABOUT),
    )
}

fn check_command<'a>(alloc: Global) -> Result<Command<'a>, AllocError>
    ensures command { IfOk result (IsCommand check) }
    ensures about { IfOk result (IsAbout check_about) }
{
    Ok(
        of_trace(alloc, "check")?
            .arg(extended_arg(alloc))?
            .about(CHECK_ABOUT),
    )
}

fn play_command<'a>(alloc: Global) -> Result<Command<'a>, AllocError>
    ensures command { IfOk result (IsCommand play) }
    ensures about { IfOk result (IsAbout play_about) }
{
    Ok(
        of_trace(alloc, "play")?
            .arg(steps_arg(alloc))?
            .arg(workers_arg(alloc))?
            .arg(extended_arg(alloc))?
            .about(PLAY_ABOUT),
    )
}

/// The program, with what each of its words means.
pub(crate) fn program<'a>(alloc: Global) -> Result<Command<'a>, AllocError>
    ensures command { IfOk result (IsCommand program) }
    ensures about { IfOk result (IsAbout about) }
{
    Ok(
        Command::new(alloc, "kubelet_replay")
            .version(VERSION)
            .subcommand_required(true)
            .subcommand(run_command(alloc)?)?
            .subcommand(check_command(alloc)?)?
            .subcommand(play_command(alloc)?)?
            .about(ABOUT),
    )
}
