//! The replays by steps that the program begins.

ghost use Rattle.std.specs.Prelude.{◌≡◌, ◌+◌, ◌^◌, ◌<◌, ◌≤◌, IfErr, OnOk, IsErrOf};
ghost use Rattle.worker_count.specs.rule.Limit.{most_workers};
ghost use Rattle.kubelet_replay.specs.declared.fault.RunFault.TheVariants.{OutOfMemory};
ghost use Rattle.kubelet_replay.specs.rule.Run.{failed_reads, failed_writes, IsRefusalIn, IsReportIn, TakesWithin};
ghost use Rattle.kubelet_replay.specs.rule.Run.{Writes};

use kubelet_replay::{Format, RunFault, Sink, Source, Step, replay_play_in};

/// What replays traces by the steps of workers.
pub(crate) trait Plays {
    ghost use Rattle.std.specs.Prelude.{ℕ, List, ⊤};
    ghost use Rattle.round_steps.specs.declared.step.Step.{Step};

    // That a trace was replayed by this many workers that took these steps. Whoever calls any `Plays` knows of it only
    // by that call.
    ghost played: { Self → ℕ → List Step → Type 0 } = { λ _ _ _. ⊤ };

    /// Replays the input as [`replay_play_in`] does.
    fn play<R: Source, W: Sink>(
        &self,
        format: Format,
        input: &mut R,
        output: &mut W,
        workers: usize,
        steps: &[Step],
    ) -> Result<(), RunFault>
        requires some { 0 < workers }
        requires most { workers ≤ most_workers }
        requires reads { R.failures input.old < 2 ^ 63 }
        requires writes { W.failures output.old < 2 ^ 63 }
        ensures ok { OnOk result (Writes (IsReportIn format) (R.left input.old) (W.written output.old)
            (W.written output.new)) }
        ensures err { IfErr result (IsRefusalIn format (IsReportIn format) (R.left input.old) (W.written output.old)
            (W.written output.new)) }
        ensures memory { IsErrOf result OutOfMemory → TakesWithin (R.left input.old) (R.left input.new) }
        ensures reads { R.failures input.new ≡ R.failures input.old + failed_reads result }
        ensures writes { W.failures output.new ≡ W.failures output.old + failed_writes result }
        ensures played { played self.now workers steps.now };
}

impl<H: AllocGlobal> Plays for H {
    fn play<R: Source, W: Sink>(
        &self,
        format: Format,
        input: &mut R,
        output: &mut W,
        workers: usize,
        steps: &[Step],
    ) -> Result<(), RunFault> {
        replay_play_in(self.alloc(), format, input, output, workers, steps)
    }
}
