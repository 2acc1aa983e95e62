//! Why a line of a trace is refused.

ghost use Rattle.std.specs.Prelude.{◌≡◌};
ghost use Rattle.line_faults.specs.declared.fault.FaultKind.TheVariants.{OutOfMemory};
ghost use Rattle.json_fields.specs.rule.Reading.{refused_if};
ghost use Rattle.json_fields.specs.state.Reading.{GivesExactly};
ghost use Rattle.line_faults.specs.rule.Faults.{kind_of_node_fault, kind_of_tick_fault};
ghost use Rattle.line_faults.specs.state.Faults.{kind_of_manifest_fault};

use manifest_fields::ManifestFault;
use node_lines::NodeFault;
use std::alloc::AllocError;
use thiserror::Error;
use tick_lines::TickLineFault;

/// What is wrong with a line. The kinds stand by their numbers; the order of checks is that of
/// `trace::laws::first_check`.
#[derive(Clone, Copy, Debug, PartialEq, Eq, Error)]
pub enum FaultKind {
    #[error("the line is longer than 1 MiB")]
    TooLong,
    #[error("the line is not JSON")]
    NotJson,
    #[error("the line is of no known kind")]
    UnknownKind,
    #[error("the line stands in the wrong place")]
    Order,
    #[error("the manifest is refused: {0}")]
    Manifest(ManifestFault),
    #[error("the node's configuration is refused")]
    Config,
    #[error("a soft threshold has no grace period")]
    SoftWithoutGrace,
    #[error("an earlier pod has this key")]
    DuplicatePod,
    #[error("no pod has this key")]
    StrangerPod,
    #[error("no container of the pod has this name")]
    StrangerContainer,
    #[error("a pod, a container or a probe is listed twice")]
    Doubled,
    #[error("the moment is missing, out of range or not later than the last tick's")]
    Moment,
    #[error("a listing goes back behind an earlier one")]
    Backwards,
    #[error("an exited container has no exit code")]
    ExitCode,
    #[error("too many lines of a kind")]
    TooMany,
    #[error("a field of the tick is refused")]
    Usage,
    #[error("out of memory")]
    OutOfMemory,
}

impl FaultKind {
    ghost use Rattle.line_faults.specs.state.Faults.{number_of, word_of};

    /// The number and the word by which a refusal names the kind.
    fn refusal(self) -> (u8, &'static str)
        ensures number { result.0 ≡ number_of self }
        ensures word { result.1.now ≡ word_of self }
    {
        match self {
            FaultKind::TooLong => (31, "TooLong"),
            FaultKind::NotJson => (32, "NotJson"),
            FaultKind::UnknownKind => (33, "UnknownKind"),
            FaultKind::Order => (34, "Order"),
            FaultKind::Manifest(_) => (35, "Manifest"),
            FaultKind::Config => (36, "Config"),
            FaultKind::SoftWithoutGrace => (37, "SoftWithoutGrace"),
            FaultKind::DuplicatePod => (38, "DuplicatePod"),
            FaultKind::StrangerPod => (39, "StrangerPod"),
            FaultKind::StrangerContainer => (40, "StrangerContainer"),
            FaultKind::Doubled => (41, "Doubled"),
            FaultKind::Moment => (42, "Moment"),
            FaultKind::Backwards => (43, "Backwards"),
            FaultKind::ExitCode => (44, "ExitCode"),
            FaultKind::TooMany => (45, "TooMany"),
            FaultKind::Usage => (46, "Usage"),
            FaultKind::OutOfMemory => (47, "OutOfMemory"),
        }
    }

    /// The number by which a refusal names the kind.
    pub fn number(self) -> u8
        ensures { result ≡ number_of self }
    {
        self.refusal().0
    }

    /// The word by which a refusal names the kind.
    pub fn word(self) -> &'static str
        ensures { result.now ≡ word_of self }
    {
        self.refusal().1
    }
}

impl From<AllocError> for FaultKind {
    ghost from_gives = { λ _ e. e ≡ OutOfMemory };

    fn from(_e: AllocError) -> FaultKind {
        FaultKind::OutOfMemory
    }
}

impl From<ManifestFault> for FaultKind {
    ghost from_gives = { λ fault kind. kind ≡ kind_of_manifest_fault fault };

    fn from(fault: ManifestFault) -> FaultKind {
        match fault {
            ManifestFault::OutOfMemory => FaultKind::OutOfMemory,
            fault => FaultKind::Manifest(fault),
        }
    }
}

impl From<NodeFault> for FaultKind {
    ghost from_gives = { λ fault kind. kind ≡ kind_of_node_fault fault };

    fn from(fault: NodeFault) -> FaultKind {
        match fault {
            NodeFault::Config => FaultKind::Config,
            NodeFault::SoftWithoutGrace => FaultKind::SoftWithoutGrace,
            NodeFault::OutOfMemory => FaultKind::OutOfMemory,
        }
    }
}

impl From<TickLineFault> for FaultKind {
    ghost from_gives = { λ fault kind. kind ≡ kind_of_tick_fault fault };

    fn from(fault: TickLineFault) -> FaultKind {
        match fault {
            TickLineFault::Usage => FaultKind::Usage,
            TickLineFault::OutOfMemory => FaultKind::OutOfMemory,
        }
    }
}

/// The kind, if the test is true.
pub fn refused_if(test: bool, kind: FaultKind) -> Result<(), FaultKind>
    ensures { GivesExactly (λ t. t) result (refused_if test kind) }
{
    if test { Err(kind) } else { Ok(()) }
}

/// The first faulty line, counted from 1, and its first fault.
#[derive(Clone, Copy, Debug, PartialEq, Eq, Error)]
#[error("line {line}: {kind}")]
pub struct LineFault {
    pub line: u64,
    pub kind: FaultKind,
}
