//! The evictions of a node's ticks.

ghost use Rattle.std.specs.Prelude.{◌≡◌, ◌++◌, ◌∷◌, [], length, None, OnOk, OnErr};
ghost use Rattle.std.specs.Option.{option_or};
ghost use Rattle.eviction.specs.state.Pausing.{kept, still};
ghost use Rattle.eviction.specs.rule.Replay.{pause_in, pauses, unless_paused};

use crate::eviction::Eviction;
use crate::over::is_over_in;
use node_config::{NodeConfig, Version};
use node_signals::ThresholdKey;
use observations::TickObs;
use std::alloc::{AllocError, Global};
use std::marker::Model;

/// The evictions of a node's ticks, one or none for each.
#[derive(Drop)]
pub struct Evictions {
    each: Vec<Option<Eviction>>,
    /// The one by which others may pause: the latest, until its pause has ended early.
    pausing: Option<Eviction>,
}

impl Model for Evictions {
    ghost use Rattle.eviction.specs.state.Pausing.{Kept, kept};

    ghost Value = { Kept };

    ghost view = { λ e. kept e.each.items e.pausing };
}

/// The node's pause after an eviction, in seconds.
fn pause_in(config: &NodeConfig) -> u64
    ensures { result ≡ pause_in config.now }
{
    match config.version {
        Version::One | Version::Two => 0,
        Version::Three => u64::from(config.eviction_pause),
    }
}

/// Whether evictions pause at a moment, in seconds, by this one. The tick of the moment was looked at.
fn pauses(config: &NodeConfig, at: u64, pausing: Option<Eviction>) -> bool
    ensures { result ≡ pauses config.now at pausing [] }
{
    match pausing {
        None => false,
        Some(eviction) => at.saturating_sub(eviction.order.at) < pause_in(config),
    }
}

/// What is left in the tick that comes next of the eviction by which others pause.
fn still(config: &NodeConfig, tick: &TickObs, pausing: Option<Eviction>) -> Option<Eviction>
    ensures { result ≡ still config.now tick.now pausing }
{
    let eviction = pausing?;
    if config.pauses_until_gone && is_over_in(eviction.pod, tick) {
        None
    } else {
        Some(eviction)
    }
}

impl Evictions {
    /// The evictions of no tick. Doesn't allocate.
    pub fn new(alloc: Global) -> Evictions
        ensures { result ≡ kept [] None }
    {
        Evictions {
            each: Vec::new(alloc),
            pausing: None,
        }
    }

    /// How many ticks there were.
    pub fn len(&self) -> usize
        ensures { result ≡ length self.now.each }
    {
        self.each.len()
    }

    /// The eviction of each tick, or none, in the order of the ticks.
    pub fn as_slice(&self) -> &[Option<Eviction>]
        ensures { result.now ≡ self.now.each }
    {
        &self.each
    }

    /// Looks at the tick that comes next: it may end the pause after an eviction early.
    pub fn look(&mut self, config: &NodeConfig, tick: &TickObs)
        ensures { self.new ≡ kept self.old.each (still config.now tick.now self.old.pausing) }
    {
        self.pausing = still(config, tick, self.pausing);
    }

    /// Adds the eviction of one more tick, or none. Returns `Err` if an allocation fails; the evictions are then as
    /// they were.
    pub fn push(&mut self, eviction: Option<Eviction>) -> Result<(), AllocError>
        ensures ok { OnOk result (self.new
            ≡ kept (self.old.each ++ eviction ∷ []) (option_or eviction self.old.pausing)) }
        ensures err { OnErr result (self.new ≡ self.old) }
    {
        self.each.push(eviction)?;
        self.pausing = eviction.or(self.pausing);
        Ok(())
    }

    /// The threshold that is acted on at a moment, in seconds, or none while evictions pause; in versions 1 and 2 they
    /// never do. The tick of the moment was looked at.
    pub fn unless_paused(
        &self,
        config: &NodeConfig,
        at: u64,
        served: Option<ThresholdKey>,
    ) -> Option<ThresholdKey>
        ensures { result ≡ unless_paused (pauses config.now at self.now.pausing []) served }
    {
        if pauses(config, at, self.pausing) {
            None
        } else {
            served
        }
    }
}
