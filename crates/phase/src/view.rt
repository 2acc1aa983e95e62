//! What a pod's phase and conditions need to know of a container.

ghost use Rattle.std.specs.Prelude.{◌≡◌, ◌↔◌, IsTrue};
ghost use Rattle.manifest.specs.declared.pod.Role.TheVariants.{Init, App};
ghost use Rattle.phase.specs.state.Views.{restarts_of};
ghost use Rattle.phase.specs.rule.Facts.{HasFailed, HasCompleted};
ghost use Rattle.phase.specs.state.PolicyPhase.{HasFinished};
ghost use Rattle.phase.specs.state.Facts.{exit_code as code_of, of_view, IsRunning};
ghost use Rattle.phase.specs.rule.RawPhase.{IsAwaited, HasInitialized};

use manifest::{Policy, Role};
use restarts::wants_restart;
use state_diff::Seen;

/// A container, as its newest instance shows it. (Container Runtime Interface, `ContainerStatus`.)
#[derive(Clone, Copy, Debug, PartialEq, Eq)]
pub struct ContainerView {
    /// What it is to its pod.
    pub role: Role,
    /// The newest instance, with its state and its exit code.
    pub seen: Option<Seen>,
    /// Whether one of its instances has started or exited.
    pub set_up: bool,
    /// Whether it was started at some tick: an instance was running, and its startup probe, if it
    /// has one, had passed.
    pub was_started: bool,
}

impl ContainerView {
    /// The restarts of the container: the greatest attempt listed so far, and 0 before any.
    pub fn restarts(&self) -> u32
        ensures { result ≡ restarts_of self.now.seen }
    {
        match self.seen {
            Some(seen) => seen.attempt,
            None => 0,
        }
    }

    /// The exit code of the newest instance, if it has exited.
    pub fn exit_code(&self) -> Option<i32>
        ensures { result ≡ code_of self.now }
    {
        self.seen?.code
    }

    /// Whether it is an app container.
    pub fn is_app(&self) -> bool
        ensures { IsTrue result ↔ of_view.is self.now App }
    {
        matches!(self.role, Role::App)
    }

    /// Whether it is an init container, and no sidecar.
    pub fn is_init(&self) -> bool
        ensures { IsTrue result ↔ of_view.is self.now Init }
    {
        matches!(self.role, Role::Init)
    }

    /// Whether the newest instance is running.
    pub fn is_running(&self) -> bool
        ensures { IsTrue result ↔ IsRunning self.now }
    {
        match self.seen {
            Some(seen) => seen.state.is_running(),
            None => false,
        }
    }

    /// Whether the newest instance has exited with 0.
    pub fn has_completed(&self) -> bool
        ensures { IsTrue result ↔ HasCompleted of_view self.now }
    {
        match self.exit_code() {
            Some(code) => code == 0,
            None => false,
        }
    }

    /// Whether the newest instance has exited with a code other than 0.
    pub fn has_failed(&self) -> bool
        ensures { IsTrue result ↔ HasFailed of_view self.now }
    {
        match self.exit_code() {
            Some(code) => code != 0,
            None => false,
        }
    }

    /// Whether the newest instance has exited, and as one of an app container isn't to be started
    /// again.
    pub(crate) fn has_finished(&self, policy: Policy) -> bool
        ensures { IsTrue result ↔ HasFinished of_view policy self.now }
    {
        match self.exit_code() {
            Some(code) => !wants_restart(policy, Role::App, code),
            None => false,
        }
    }

    /// Whether the pod waits for it.
    pub fn is_awaited(&self) -> bool
        ensures { IsTrue result ↔ IsAwaited of_view self.now }
    {
        match self.role {
            Role::Init => !self.has_completed(),
            Role::Sidecar => !self.was_started,
            Role::App => !self.set_up,
        }
    }

    /// Whether nothing before the app containers is still to be done for it.
    pub(crate) fn has_initialized(&self) -> bool
        ensures { IsTrue result ↔ HasInitialized of_view self.now }
    {
        match self.role {
            Role::Init => self.has_completed(),
            Role::Sidecar => self.was_started,
            Role::App => true,
        }
    }
}
