//! A node's configuration.

ghost use Rattle.std.specs.Prelude.{◌≡◌, IfSome};
ghost use Rattle.signals.specs.rule.BySignal.{of};
ghost use Rattle.node_config.specs.rule.EvictionConfig.{threshold_of};
ghost use Rattle.node_config.specs.state.EvictionConfig.{HasCapacity};

use crate::eviction_config::EvictionConfig;
use manifest::{MaxRestartDelay, Text};
use quantity::Quantity;
use signals::{Signal, Threshold, ThresholdKind};

/// The format that a trace is read by.
#[derive(Clone, Copy, Debug, PartialEq, Eq)]
pub enum Format {
    /// Versions 1 and 2.
    Standard,
    /// Version 3 as well, which is this project's own.
    Extended,
}

/// The version of the format that a trace is written in.
#[derive(Clone, Copy, Debug, PartialEq, Eq)]
pub enum Version {
    /// Every pod line stands before the first tick line.
    One,
    /// A pod line may follow a tick line.
    Two,
    /// This project's extended format: as version 2; also pods may leave (lines of the kind `gone`), evictions may
    /// pause or be recorded ones, and pod lines, tick lines and entries may have the members `spared`, `judged`,
    /// `unsampled`, `deleting` and `failed`.
    Three,
}

/// The node and its configuration.
#[derive(Drop)]
pub struct NodeConfig {
    /// 1 to 253 bytes.
    pub name: Text,
    pub version: Version,
    /// By how much a restart is backed off at most.
    pub max_restart_delay: MaxRestartDelay,
    /// Whether images and containers have a file system of their own.
    pub has_dedicated_imagefs: bool,
    /// `capacity`, `evictionHard`, `evictionSoft` and what belongs to them.
    pub eviction: EvictionConfig,
    /// `evictionMaxPodGracePeriod`, in seconds.
    pub eviction_max_pod_grace_period: u32,
    /// `evictionPressureTransitionPeriod`, in seconds.
    pub eviction_pressure_transition_period: u64,
    /// `evictionPauseSeconds`: for this many seconds after an eviction no pod is evicted. 0 in versions 1 and 2.
    pub eviction_pause: u32,
    /// `evictionPauseUntilGone`: the pause is over once the evicted pod has ended or gone. False in versions 1 and 2.
    pub pauses_until_gone: bool,
    /// `evictionsRecorded`: the trace says whom the node evicted, so the rules evict nobody, and name whom they would.
    /// False in versions 1 and 2.
    pub evictions_recorded: bool,
}

impl NodeConfig {
    /// The capacity of a signal, in bytes, inodes or processes, where one is given.
    pub fn capacity(&self, signal: Signal) -> Option<Quantity>
        ensures { result ≡ of self.now.eviction.capacity signal }
    {
        self.eviction.capacity(signal)
    }

    /// The threshold of this kind on a signal, if there is one. (Kubernetes, "Node-pressure
    /// Eviction", "Eviction thresholds".)
    pub fn threshold(&self, kind: ThresholdKind, signal: Signal) -> Option<Threshold>
        ensures value { result ≡ threshold_of self.now.eviction kind signal }
        ensures capacity { IfSome result (HasCapacity (of self.now.eviction.capacity signal)) }
    {
        self.eviction.threshold(kind, signal)
    }
}
