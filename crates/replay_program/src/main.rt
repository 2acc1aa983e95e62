//! Writes the report of a node's trace, or checks whether a file is a trace. Without arguments it reads standard input.
#![tactic(auto)]

mod fault;
mod outside;
mod plays;
mod progress;

ghost use Rattle.std.specs.Prelude.{◌≡◌, ◌+◌, ◌<◌, ◌≤◌, ◌^◌, IfOk, IfErr, OnOk, IsErrOf, map, string_bytes};
ghost use Rattle.worker_count.specs.rule.Limit.{most_workers};
ghost use Rattle.kubelet_replay.specs.declared.fault.RunFault.TheVariants.{OutOfMemory};
ghost use Rattle.kubelet_replay.specs.rule.Run.{IsReportIn, IsReportOfText, IsCheckIn, TakesWithin, Writes};
ghost use Rattle.replay_program.specs.declared.fault.Fault.TheVariants.{Run};
ghost use Rattle.replay_program.specs.state.Jobs.{HasFewWorkers};
ghost use Rattle.replay_program.specs.state.Answers.{AnswersFile, FailsFile, AnswersPlay, FailsPlay, Answers, Fails};
ghost use Rattle.replay_program.specs.state.Answers.{AnswersAsked, FailsAsked, AnswersAll, FailsAll};
ghost use Rattle.replay_program.specs.state.Answers.{HasShortText, FailsText, FailsInput, unread, unwritten, ReadsAll};

use fault::Fault;
use kubelet_replay::{
    Counted, Format, Job, LONGEST_STEPS_FILE, Sink, Source, Spawner, Step, check_in, job_of,
    read_steps, replay, replay_in,
};
use outside::Outside;
use plays::Plays;
use progress::{Input, Output, Progress};
use replay_stream::read_all;
use std::process::ExitCode;

/// The number of workers without `--workers`, as the option has it by default.
const DEFAULT_WORKERS: usize = 4;

/// Replays the file of this path by this many workers.
#[tactic(auto, using(crate::proofs::Failing::file_refused))]
fn run<H: Outside + Eprint + AllocGlobal + Spawner, W: Sink>(
    rt: &H,
    progress: &Progress<'_, H>,
    format: Format,
    path: &str,
    workers: usize,
    output: &mut W,
) -> Result<(), Fault>
    requires some { 0 < workers }
    requires most { workers ≤ most_workers }
    requires writes { W.failures output.old < 2 ^ 63 }
    ensures ok { OnOk result (AnswersFile (H.seen rt.now path.now) (IsReportIn format) (W.written output.old)
        (W.written output.new)) }
    ensures err { IfErr result (FailsFile (H.seen rt.now path.now) format (IsReportIn format) (W.written output.old)
        (W.written output.new)) }
    ensures writes { W.failures output.new ≡ W.failures output.old + unwritten result }
{
    let mut input = Counted::new(Input::new(progress, rt.open(path)?));
    let done = replay_in(rt, format, &mut input, output, workers, progress);
    rt.close(path, input);
    Ok(done?)
}

/// Checks whether the file of this path is a trace.
#[tactic(auto, using(crate::proofs::Failing::file_refused))]
fn check<H: Outside + Eprint + AllocGlobal, W: Sink>(
    rt: &H,
    progress: &Progress<'_, H>,
    format: Format,
    path: &str,
    output: &mut W,
) -> Result<(), Fault>
    requires { W.failures output.old < 2 ^ 63 }
    ensures ok { OnOk result (AnswersFile (H.seen rt.now path.now) (IsCheckIn format) (W.written output.old)
        (W.written output.new)) }
    ensures err { IfErr result (FailsFile (H.seen rt.now path.now) format (IsCheckIn format) (W.written output.old)
        (W.written output.new)) }
    ensures writes { W.failures output.new ≡ W.failures output.old + unwritten result }
{
    let mut input = Counted::new(Input::new(progress, rt.open(path)?));
    let done = check_in(rt.alloc(), format, &mut input, output);
    rt.close(path, input);
    Ok(done?)
}

/// The text of a steps file.
#[tactic(auto, using(crate::proofs::Failing::text_refused, crate::proofs::Failing::is_unread))]
fn steps_text<H: Outside + AllocGlobal>(rt: &H, path: &str) -> Result<Vec<u8>, Fault>
    ensures ok { IfOk result (λ text. HasShortText (H.seen rt.now path.now) text.items) }
    ensures err { IfErr result (FailsText (H.seen rt.now path.now)) }
{
    let mut file = Counted::new(rt.open(path)?);
    let text = read_all(rt.alloc(), &mut file, LONGEST_STEPS_FILE);
    rt.close(path, file);
    Ok(text?)
}

/// Replays the file of this path by this many workers that take these steps.
#[tactic(auto, using(crate::proofs::Failing::file_refused))]
fn play_steps<H: Outside + Plays, W: Sink>(
    rt: &H,
    format: Format,
    path: &str,
    workers: usize,
    steps: &[Step],
    output: &mut W,
) -> Result<(), Fault>
    requires some { 0 < workers }
    requires most { workers ≤ most_workers }
    requires writes { W.failures output.old < 2 ^ 63 }
    ensures ok { OnOk result (AnswersFile (H.seen rt.now path.now) (IsReportIn format) (W.written output.old)
        (W.written output.new)) }
    ensures played { OnOk result (H.played rt.now workers steps.now) }
    ensures err { IfErr result (FailsFile (H.seen rt.now path.now) format (IsReportIn format) (W.written output.old)
        (W.written output.new)) }
    ensures writes { W.failures output.new ≡ W.failures output.old + unwritten result }
{
    let mut input = Counted::new(rt.open(path)?);
    let done = rt.play(format, &mut input, output, workers, steps);
    rt.close(path, input);
    Ok(done?)
}

/// Replays the file of this path by this many workers that take the steps of the file of the other path.
#[tactic(auto, using(crate::proofs::Failing::play_stepless, crate::proofs::Failing::play_traceless))]
fn play<H: Outside + Plays + AllocGlobal, W: Sink>(
    rt: &H,
    format: Format,
    trace: &str,
    steps: &str,
    workers: usize,
    output: &mut W,
) -> Result<(), Fault>
    requires some { 0 < workers }
    requires most { workers ≤ most_workers }
    requires writes { W.failures output.old < 2 ^ 63 }
    ensures ok { OnOk result (AnswersPlay (H.seen rt.now steps.now) (H.seen rt.now trace.now)
        (H.played rt.now workers) format (W.written output.old) (W.written output.new)) }
    ensures err { IfErr result (FailsPlay (H.seen rt.now steps.now) (H.seen rt.now trace.now) format
        (W.written output.old) (W.written output.new)) }
    ensures writes { W.failures output.new ≡ W.failures output.old + unwritten result }
{
    let text = steps_text(rt, steps)?;
    let steps = read_steps(rt.alloc(), &text)?;
    let done = play_steps(rt, format, trace, workers, steps.as_slice(), output);
    drop(steps);
    done
}

/// Does this job, and writes the answer.
fn work<H: Outside + Plays + Eprint + AllocGlobal + Spawner, W: Sink>(
    rt: &H,
    progress: &Progress<'_, H>,
    job: Job<'_>,
    output: &mut W,
) -> Result<(), Fault>
    requires few { HasFewWorkers job }
    requires writes { W.failures output.old < 2 ^ 63 }
    ensures ok { OnOk result (Answers (H.seen rt.now) (H.played rt.now) job.entry (W.written output.old)
        (W.written output.new)) }
    ensures err { IfErr result (Fails (H.seen rt.now) job.entry (W.written output.old) (W.written output.new)) }
    ensures writes { W.failures output.new ≡ W.failures output.old + unwritten result }
{
    match job {
        Job::Run {
            trace,
            workers,
            format,
        } => run(rt, progress, format, trace, workers, output),
        Job::Check { trace, format } => check(rt, progress, format, trace, output),
        Job::Play {
            trace,
            steps,
            workers,
            format,
        } => play(rt, format, trace, steps, workers, output),
    }
}

/// Does what the words ask for, and writes the answer.
#[tactic(auto, using(crate::proofs::Failing::asked_mistaken, crate::proofs::Failing::asked_undone))]
fn do_asked<H: Outside + Plays + Eprint + AllocGlobal + Spawner, W: Sink>(
    rt: &H,
    progress: &Progress<'_, H>,
    words: &[String],
    output: &mut W,
) -> Result<(), Fault>
    requires { W.failures output.old < 2 ^ 63 }
    ensures ok { OnOk result (AnswersAsked (H.seen rt.now) (H.played rt.now) (map string_bytes words.now)
        (W.written output.old) (W.written output.new)) }
    ensures err { IfErr result (FailsAsked (H.seen rt.now) (map string_bytes words.now) (W.written output.old)
        (W.written output.new)) }
    ensures writes { W.failures output.new ≡ W.failures output.old + unwritten result }
{
    let job = job_of(rt.alloc(), words)?;
    work(rt, progress, job, output)
}

/// Replays what the input has.
#[tactic(auto, using(crate::proofs::Failing::input_refused))]
fn replay_input<H: Eprint + AllocGlobal + Spawner, R: Source, W: Sink>(
    rt: &H,
    progress: &Progress<'_, H>,
    input: &mut R,
    output: &mut W,
) -> Result<(), Fault>
    requires reads { R.failures input.old < 2 ^ 63 }
    requires writes { W.failures output.old < 2 ^ 63 }
    ensures ok { OnOk result (Writes IsReportOfText (R.left input.old) (W.written output.old) (W.written output.new)) }
    ensures err { IfErr result (FailsInput (R.left input.old) (W.written output.old) (W.written output.new)) }
    ensures memory { IsErrOf result (Run OutOfMemory) → TakesWithin (R.left input.old) (R.left input.new) }
    ensures reads { R.failures input.new ≡ R.failures input.old + unread result }
    ensures writes { W.failures output.new ≡ W.failures output.old + unwritten result }
{
    Ok(replay(rt, input, output, DEFAULT_WORKERS, progress)?)
}

/// Does what the program's words ask for. Without any it replays what the input has.
fn answer<H: Outside + Plays + Eprint + AllocGlobal + Spawner, R: Source, W: Sink>(
    rt: &H,
    progress: &Progress<'_, H>,
    input: &mut R,
    output: &mut W,
) -> Result<(), Fault>
    requires reads { R.failures input.old < 2 ^ 63 }
    requires writes { W.failures output.old < 2 ^ 63 }
    ensures ok { OnOk result (AnswersAll (H.asked rt.now) (H.seen rt.now) (H.played rt.now) (R.left input.old)
        (W.written output.old) (W.written output.new)) }
    ensures err { IfErr result (FailsAll (H.asked rt.now) (H.seen rt.now) (R.left input.old) (W.written output.old)
        (W.written output.new)) }
    ensures memory { IsErrOf result (Run OutOfMemory) → TakesWithin (R.left input.old) (R.left input.new) }
    ensures reads { ReadsAll (H.asked rt.now) (R.failures input.old) (R.failures input.new) result }
    ensures writes { W.failures output.new ≡ W.failures output.old + unwritten result }
{
    let words = rt.words()?;
    if words.len() > 1 {
        do_asked(rt, progress, &words, output)
    } else {
        replay_input(rt, progress, input, output)
    }
}

/// Ends with status 0 where the whole answer was written, and with 1, 2 or 3 otherwise. (An entry
/// function can have no clause.)
fn main(rt: HostRuntime) -> ExitCode {
    let progress = Progress::new(&rt, &rt.stderr());
    let mut input = Counted::new(Input::new(&progress, rt.stdin()));
    let mut output = Counted::new(Output::new(&progress, rt.stdout()));
    match answer(&rt, &progress, &mut input, &mut output) {
        Ok(()) => ExitCode::SUCCESS,
        Err(fault) => {
            progress.clear();
            let code = fault.exit_code(&rt);
            drop(fault);
            code
        }
    }
}
