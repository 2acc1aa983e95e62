//! An instance of a container, as one tick lists it.

ghost use Rattle.std.specs.Prelude.{◌≡◌, ◌≢◌, ◌↔◌, is_some, IsTrue};
ghost use Rattle.state_diff.specs.rule.States.{is_exited as exited, rank as rank_of};

/// The state of an instance, as the container runtime lists it: the `ContainerState` of the
/// Container Runtime Interface (CRI v1).
#[derive(Clone, Copy, Debug, PartialEq, Eq)]
pub enum CriState {
    /// `CONTAINER_CREATED`: it hasn't been started.
    Created,
    /// `CONTAINER_RUNNING`.
    Running,
    /// `CONTAINER_EXITED`: it ran to its end, or could not start.
    Exited,
    /// `CONTAINER_UNKNOWN`: the runtime doesn't know. It leaves what was known before.
    Unknown,
}

impl CriState {
    /// Whether the state is running.
    pub fn is_running(self) -> bool
        ensures { IsTrue result ↔ (self ≡ CriState.Running) }
    {
        matches!(self, CriState::Running)
    }

    /// Whether the state is exited.
    pub fn is_exited(self) -> bool
        ensures { IsTrue result ↔ (self ≡ CriState.Exited) }
    {
        matches!(self, CriState::Exited)
    }

    /// Its place in the order created, running, exited, from 0 on; unknown comes after all.
    pub fn rank(self) -> u8
        ensures { result ≡ rank_of self }
    {
        match self {
            CriState::Created => 0,
            CriState::Running => 1,
            CriState::Exited => 2,
            CriState::Unknown => 3,
        }
    }

    /// Whether the runtime knew the state.
    pub fn is_known(self) -> bool
        ensures { IsTrue result ↔ (self ≢ CriState.Unknown) }
    {
        !matches!(self, CriState::Unknown)
    }
}

/// An instance of a container, as one tick lists it (a `ContainerStatus` of CRI v1).
#[derive(Clone, Copy, Debug, PartialEq, Eq)]
pub struct Seen {
    /// Which instance of the container it is, counted from 0: the attempt of its
    /// `ContainerMetadata`.
    pub attempt: u32,
    /// Its state.
    pub state: CriState,
    /// Its exit code, given exactly when it has exited.
    pub code: Option<i32>,
    ghost code_given: { is_some code ≡ exited state },
}
