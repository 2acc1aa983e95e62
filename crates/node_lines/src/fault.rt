//! Why a node line was rejected.

ghost use Rattle.std.specs.Prelude.{◌≡◌};
ghost use Rattle.node_lines.specs.rule.Maps.{or_config};

use thiserror::Error;

/// What is wrong with a node line. Whatever makes it `Config` comes before a missing grace period.
#[derive(Clone, Copy, Debug, PartialEq, Eq, Error)]
pub enum NodeFault {
    /// A field is missing, of another kind or out of its range, a signal is unknown, or a
    /// percentage has no capacity.
    #[error("the node's configuration is refused")]
    Config,
    /// A soft threshold has no grace period.
    #[error("a soft threshold has no grace period")]
    SoftWithoutGrace,
    #[error("out of memory")]
    OutOfMemory,
}

/// What was read, else the fault of a node's configuration.
pub(crate) fn or_config<T: Copy, E: Copy>(read: Result<T, E>) -> Result<T, NodeFault>
    ensures { result ≡ or_config read }
{
    read.map_err(|_| NodeFault::Config)
}
