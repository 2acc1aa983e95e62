//! Node lines.

ghost use Rattle.std.specs.Prelude.{◌≡◌, option_map, IfErr, IsErrOf};
ghost use Rattle.serde_json.specs.View.{view};
ghost use Rattle.json_fields.specs.state.Reading.{GivesExactly, GivesUnless};
ghost use Rattle.node_lines.specs.state.Memory.{is_memory};
ghost use Rattle.node_lines.specs.rule.Node.{version_of, name_from, restart_delay_of, flag_of, seconds_of};
ghost use Rattle.node_lines.specs.rule.Node.{delay_from, crash_loop_delay_of, delay_by, delay_in};
ghost use Rattle.node_lines.specs.rule.Node.{or_default, pause_of, flag_of_three, settings_in, node_of};

use crate::eviction::{eviction_from, written_in};
use crate::fault::NodeFault;
use crate::maps::duration_at;
use json_fields::{field, text_at};
use manifest::{MaxRestartDelay, Text, is_name};
use node_config::{NodeConfig, Version};
use serde_json::Value;
use std::alloc::Global;

/// What a node line has in addition to its name and its thresholds.
#[derive(Clone, Copy)]
pub(crate) struct Settings {
    version: Version,
    max_restart_delay: MaxRestartDelay,
    has_dedicated_imagefs: bool,
    max_pod_grace_period: u32,
    transition_period: u64,
    eviction_pause: u32,
    pauses_until_gone: bool,
    evictions_recorded: bool,
}

/// How long a condition of the node stays where nothing else is written, in seconds.
const DEFAULT_TRANSITION_PERIOD: u64 = 300;

fn version(found: Option<&Value>) -> Result<Version, NodeFault>
    ensures { result ≡ version_of (option_map (λ v. view v.now) found.entry) }
{
    let Some(value) = found else {
        return Ok(Version::One);
    };
    match value.as_u64() {
        Some(1) => Ok(Version::One),
        Some(2) => Ok(Version::Two),
        Some(3) => Ok(Version::Three),
        _ => Err(NodeFault::Config),
    }
}

fn name_from(found: Option<&str>) -> Result<&str, NodeFault>
    ensures { GivesExactly (λ s. s.now) result (name_from (option_map (λ s. s.now) found.entry)) }
{
    match found {
        Some(name) if is_name(name.as_bytes()) => Ok(name),
        _ => Err(NodeFault::Config),
    }
}

fn restart_delay(found: Option<&Value>) -> Result<MaxRestartDelay, NodeFault>
    ensures { result ≡ restart_delay_of (option_map (λ v. view v.now) found.entry) }
{
    let Some(value) = found else {
        return Ok(MaxRestartDelay::unset());
    };
    let seconds = value.as_u64().ok_or(NodeFault::Config)?;
    MaxRestartDelay::new(seconds).ok_or(NodeFault::Config)
}

/// The greatest restart delay by a period, which has to be in its range.
fn delay_from(seconds: Option<u64>) -> Result<MaxRestartDelay, NodeFault>
    ensures { result ≡ delay_from seconds }
{
    match seconds {
        None => Ok(MaxRestartDelay::unset()),
        Some(seconds) => MaxRestartDelay::new(seconds).ok_or(NodeFault::Config),
    }
}

/// The greatest restart delay that a kubelet's configuration gives in its own field. (Kubernetes, "Configurable
/// container restart delay".)
fn crash_loop_delay(value: &Value) -> Result<MaxRestartDelay, NodeFault>
    ensures { result ≡ crash_loop_delay_of (view value.now) }
{
    if !value.is_object() {
        return Err(NodeFault::Config);
    }
    delay_from(duration_at(field(value, "maxContainerRestartPeriod"))?)
}

/// The same, by the field of this project's own or by the kubelet's, of which a line has one.
fn delay_by(found: Option<&Value>, crash_loop: Option<&Value>) -> Result<MaxRestartDelay, NodeFault>
    ensures { result ≡ delay_by (option_map (λ v. view v.now) found.entry)
        (option_map (λ v. view v.now) crash_loop.entry) }
{
    match (found, crash_loop) {
        (found, None) => restart_delay(found),
        (None, Some(value)) => crash_loop_delay(value),
        (Some(_), Some(_)) => Err(NodeFault::Config),
    }
}

/// The greatest restart delay. Version 3 alone has the kubelet's own field.
fn delay_in(
    version: Version,
    found: Option<&Value>,
    crash_loop: Option<&Value>,
) -> Result<MaxRestartDelay, NodeFault>
    ensures { result ≡ delay_in version (option_map (λ v. view v.now) found.entry)
        (option_map (λ v. view v.now) crash_loop.entry) }
{
    match version {
        Version::One | Version::Two => restart_delay(found),
        Version::Three => delay_by(found, crash_loop),
    }
}

/// True or false, and false where none is written.
fn flag(found: Option<&Value>) -> Result<bool, NodeFault>
    ensures { result ≡ flag_of (option_map (λ v. view v.now) found.entry) }
{
    let Some(value) = found else {
        return Ok(false);
    };
    value.as_bool().ok_or(NodeFault::Config)
}

/// Seconds below 2^31, and 0 where none are written.
fn seconds(found: Option<&Value>) -> Result<u32, NodeFault>
    ensures { result ≡ seconds_of (option_map (λ v. view v.now) found.entry) }
{
    let Some(value) = found else {
        return Ok(0);
    };
    match value.as_u64() {
        Some(seconds) if seconds < 1 << 31 => Ok(seconds as u32),
        _ => Err(NodeFault::Config),
    }
}

/// How long a condition of the node stays. A period of 0 is the default too, since generated configurations write one
/// for it.
fn or_default(period: Option<u64>) -> u64
    ensures { result ≡ or_default period }
{
    match period {
        None | Some(0) => DEFAULT_TRANSITION_PERIOD,
        Some(seconds) => seconds,
    }
}

/// The seconds of a pause, in a version that has one.
fn pause(version: Version, found: Option<&Value>) -> Result<u32, NodeFault>
    ensures { result ≡ pause_of version (option_map (λ v. view v.now) found.entry) }
{
    match version {
        Version::One | Version::Two => Ok(0),
        Version::Three => seconds(found),
    }
}

/// True or false in a field that version 3 alone has.
fn flag_of_three(version: Version, found: Option<&Value>) -> Result<bool, NodeFault>
    ensures { result ≡ flag_of_three version (option_map (λ v. view v.now) found.entry) }
{
    match version {
        Version::One | Version::Two => Ok(false),
        Version::Three => flag(found),
    }
}

#[tactic(auto, unfolding(crate::specs::rule::Node::settings_in))]
fn settings_in(node: &Value) -> Result<Settings, NodeFault>
    ensures { result ≡ settings_in (view node.now) }
{
    let version = version(field(node, "version"))?;
    let max_restart_delay = delay_in(
        version,
        field(node, "maxRestartDelay"),
        field(node, "crashLoopBackOff"),
    )?;
    let has_dedicated_imagefs = flag(field(node, "dedicatedImagefs"))?;
    let max_pod_grace_period = seconds(field(node, "evictionMaxPodGracePeriod"))?;
    let transition_period = duration_at(field(node, "evictionPressureTransitionPeriod"))?;
    let eviction_pause = pause(version, field(node, "evictionPauseSeconds"))?;
    let pauses_until_gone = flag_of_three(version, field(node, "evictionPauseUntilGone"))?;
    let evictions_recorded = flag_of_three(version, field(node, "evictionsRecorded"))?;
    Ok(Settings {
        version,
        max_restart_delay,
        has_dedicated_imagefs,
        max_pod_grace_period,
        transition_period: or_default(transition_period),
        eviction_pause,
        pauses_until_gone,
        evictions_recorded,
    })
}

/// The configuration that a node line gives. The fault is `Config` if any field is rejected, and `SoftWithoutGrace` if
/// none is and a soft threshold has no grace period; `OutOfMemory` if there is neither fault and there is no memory for
/// the name, which is copied after every check. (Kubernetes, "Node-pressure Eviction"; "Kubelet Configuration".)
#[tactic(auto, unfolding(crate::specs::rule::Node::node_of))]
pub fn node_of(alloc: Global, node: &Value) -> Result<NodeConfig, NodeFault>
    ensures gives { GivesUnless is_memory (λ n. n) result (node_of (view node.now)) }
    ensures faults { IfErr (node_of (view node.now)) (IsErrOf result) }
{
    let name = name_from(text_at(node, "name"))?;
    let settings = settings_in(node)?;
    let written = written_in(node)?;
    let eviction = eviction_from(&written)?;
    let Ok(name) = String::from_str(alloc, name) else {
        return Err(NodeFault::OutOfMemory);
    };
    Ok(NodeConfig {
        name: Text::new(name),
        version: settings.version,
        max_restart_delay: settings.max_restart_delay,
        has_dedicated_imagefs: settings.has_dedicated_imagefs,
        eviction,
        eviction_max_pod_grace_period: settings.max_pod_grace_period,
        eviction_pressure_transition_period: settings.transition_period,
        eviction_pause: settings.eviction_pause,
        pauses_until_gone: settings.pauses_until_gone,
        evictions_recorded: settings.evictions_recorded,
    })
}
