//! Why the program did not do what it was asked.

ghost use Rattle.std.specs.Prelude.{◌≡◌};
ghost use Rattle.std.specs.IoError.{error_kind};
ghost use Rattle.std.specs.Process.{exit_status};
ghost use Rattle.kubelet_replay.specs.declared.fault.RunFault.TheVariants as runs;
ghost use Rattle.kubelet_replay.specs.state.Run.{read_fault_of};
ghost use Rattle.replay_program.specs.declared.fault.Fault.TheVariants.{Run, Steps};
ghost use Rattle.replay_program.specs.state.Fault.{of_kind, of_usage};

use kubelet_replay::{
    RunFault, StepsFault, UsageFault, fault_line, status_of, steps_fault_line, steps_status_of,
};
use replay_stream::ReadAllFault;
use std::alloc::{AllocError, Global};
use std::io::{self, ErrorKind};
use std::process::ExitCode;

/// The status where the words are mistaken.
const USAGE: u8 = 3;

/// Why the program did not do what it was asked.
#[derive(Drop)]
pub(crate) enum Fault {
    /// The trace was not replayed, or not read, or the answer was not written.
    Run(RunFault),
    /// The steps file has no steps.
    Steps(StepsFault),
    /// The words ask for no job, or for help.
    Usage(UsageFault),
    /// An argument is not valid UTF-8.
    Argument,
}

impl From<RunFault> for Fault {
    ghost from_gives = { λ fault e. e ≡ Run fault };

    fn from(fault: RunFault) -> Fault {
        Fault::Run(fault)
    }
}

impl From<StepsFault> for Fault {
    ghost from_gives = { λ fault e. e ≡ Steps fault };

    fn from(fault: StepsFault) -> Fault {
        Fault::Steps(fault)
    }
}

impl From<UsageFault> for Fault {
    ghost from_gives = { λ fault e. e ≡ of_usage fault };

    #[tactic(auto, unfolding(crate::specs::state::Fault::of_usage))]
    fn from(fault: UsageFault) -> Fault {
        match fault {
            UsageFault::OutOfMemory => Fault::Run(RunFault::OutOfMemory),
            fault => Fault::Usage(fault),
        }
    }
}

/// A word or a file could not be had.
impl From<io::Error> for Fault {
    ghost from_gives = { λ error e. e ≡ of_kind (error_kind error) };

    #[tactic(auto, unfolding(crate::specs::state::Fault::of_kind))]
    fn from(error: io::Error) -> Fault {
        match error.kind() {
            ErrorKind::OutOfMemory => Fault::Run(RunFault::OutOfMemory),
            ErrorKind::InvalidData => Fault::Argument,
            _ => Fault::Run(RunFault::Read),
        }
    }
}

impl From<ReadAllFault> for Fault {
    ghost from_gives = { λ fault e. e ≡ Run (read_fault_of fault) };

    fn from(fault: ReadAllFault) -> Fault {
        match fault {
            ReadAllFault::Read => Fault::Run(RunFault::Read),
            ReadAllFault::TooLong => Fault::Run(RunFault::TooLong),
            ReadAllFault::OutOfMemory => Fault::Run(RunFault::OutOfMemory),
        }
    }
}

/// Prints a line on standard error. If there is no memory for it, only the status shows the fault.
fn tell(rt: &impl Eprint, line: Result<String, AllocError>) {
    if let Ok(line) = line {
        let _told = eprintln!(rt; "{line}");
    }
}

impl Fault {
    ghost use Rattle.replay_program.specs.state.Fault.{status, EndsWith};

    /// Prints the error. Returns whether clap's help text was printed.
    fn tell(&self, rt: &(impl Print + Eprint + AllocGlobal)) -> bool {
        let alloc: Global = rt.alloc();
        match self {
            Fault::Run(fault) => tell(rt, fault_line(alloc, fault)),
            Fault::Steps(fault) => tell(rt, steps_fault_line(alloc, fault)),
            Fault::Usage(UsageFault::Refused(error)) => {
                let printed = error.print(rt).is_ok();
                if !printed && !error.use_stderr() {
                    tell(rt, fault_line(alloc, &RunFault::Write));
                }
                return printed;
            }
            Fault::Usage(UsageFault::OutOfMemory) => {}
            Fault::Argument => tell(rt, String::from_str(alloc, "argument is not valid UTF-8")),
        }
        true
    }

    /// The status of the program, where clap's text was printed or was not. A wish for help is no mistake.
    fn status(&self, printed: bool) -> u8
        ensures { result ≡ status self.now printed }
    {
        match self {
            Fault::Run(fault) => status_of(fault),
            Fault::Steps(fault) => steps_status_of(fault),
            Fault::Usage(UsageFault::Refused(error)) if error.use_stderr() => USAGE,
            Fault::Usage(UsageFault::Refused(_)) if printed => 0,
            Fault::Usage(UsageFault::Refused(_)) => status_of(&RunFault::Write),
            Fault::Usage(UsageFault::OutOfMemory) => status_of(&RunFault::OutOfMemory),
            Fault::Argument => USAGE,
        }
    }

    /// Prints the error. Returns the status with which the program exits.
    pub(crate) fn exit_code(&self, rt: &(impl Print + Eprint + AllocGlobal)) -> ExitCode
        ensures { EndsWith self.now (exit_status result) }
    {
        // The status is an equation, which what was printed enters alone.
        // (docs/decisions/program.md)
        let printed = self.tell(rt);
        ExitCode::from(self.status(printed))
    }
}
