//! One value for each signal.

ghost use Rattle.std.specs.Prelude.{◌≡◌};
ghost use Rattle.signals.specs.rule.BySignal.{of};
ghost use Rattle.signals.specs.state.BySignal.{every};

use crate::signal::Signal;

/// One value for each signal.
#[derive(Clone, Copy, Debug, PartialEq, Eq)]
pub struct BySignal<T> {
    pub memory_available: T,
    pub nodefs_available: T,
    pub imagefs_available: T,
    pub nodefs_inodes_free: T,
    pub imagefs_inodes_free: T,
    pub pid_available: T,
}

impl<T: Copy> BySignal<T> {
    /// The same value for each signal.
    pub fn every(value: T) -> BySignal<T>
        ensures { result ≡ every value }
    {
        BySignal {
            memory_available: value,
            nodefs_available: value,
            imagefs_available: value,
            nodefs_inodes_free: value,
            imagefs_inodes_free: value,
            pid_available: value,
        }
    }

    /// The value for the signal.
    pub fn of(&self, signal: Signal) -> T
        ensures { result ≡ of self.now signal }
    {
        match signal {
            Signal::MemoryAvailable => self.memory_available,
            Signal::NodefsAvailable => self.nodefs_available,
            Signal::ImagefsAvailable => self.imagefs_available,
            Signal::NodefsInodesFree => self.nodefs_inodes_free,
            Signal::ImagefsInodesFree => self.imagefs_inodes_free,
            Signal::PidAvailable => self.pid_available,
        }
    }
}
