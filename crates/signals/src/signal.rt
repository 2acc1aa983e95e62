//! The signals for eviction, and their names.

ghost use Rattle.std.specs.Prelude.{◌≡◌};
ghost use Rattle.signals.specs.declared.signal.Signal.{Signal};
ghost use Rattle.signals.specs.rule.Signals.{name_of, named, is_of_file_system};

/// What a kubelet watches for eviction, in the order in which its thresholds are served.
/// (Kubernetes, "Node-pressure Eviction", "Eviction signals"; the order is this profile's.)
#[derive(Clone, Copy, Debug, PartialEq, Eq)]
pub enum Signal {
    /// `memory.available`.
    MemoryAvailable,
    /// `nodefs.available`.
    NodefsAvailable,
    /// `imagefs.available`.
    ImagefsAvailable,
    /// `nodefs.inodesFree`.
    NodefsInodesFree,
    /// `imagefs.inodesFree`.
    ImagefsInodesFree,
    /// `pid.available`.
    PidAvailable,
}

impl Signal {
    /// The name by which a kubelet's configuration calls it, as `memory.available`.
    pub fn name(self) -> &'static str
        ensures { result.now ≡ name_of self }
    {
        match self {
            Signal::MemoryAvailable => "memory.available",
            Signal::NodefsAvailable => "nodefs.available",
            Signal::ImagefsAvailable => "imagefs.available",
            Signal::NodefsInodesFree => "nodefs.inodesFree",
            Signal::ImagefsInodesFree => "imagefs.inodesFree",
            Signal::PidAvailable => "pid.available",
        }
    }

    /// The signal of this name, if there is one.
    pub fn named(name: &str) -> Option<Signal>
        ensures { result ≡ named name.now }
    {
        match name {
            "memory.available" => Some(Signal::MemoryAvailable),
            "nodefs.available" => Some(Signal::NodefsAvailable),
            "imagefs.available" => Some(Signal::ImagefsAvailable),
            "nodefs.inodesFree" => Some(Signal::NodefsInodesFree),
            "imagefs.inodesFree" => Some(Signal::ImagefsInodesFree),
            "pid.available" => Some(Signal::PidAvailable),
            _ => None,
        }
    }

    /// Whether the signal is of a file system: of the node's, or of that of images and containers.
    pub fn is_of_file_system(self) -> bool
        ensures { result ≡ is_of_file_system self }
    {
        match self {
            Signal::NodefsAvailable
            | Signal::ImagefsAvailable
            | Signal::NodefsInodesFree
            | Signal::ImagefsInodesFree => true,
            Signal::MemoryAvailable | Signal::PidAvailable => false,
        }
    }
}
