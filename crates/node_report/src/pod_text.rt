//! The lines of a pod, as text.

ghost use Rattle.std.specs.Prelude.{◌≡◌, [], ◌++◌, codes, length, option_map, unwrap_or, OnOk, string_bytes};
ghost use Rattle.event_list.specs.rule.Text.{phase_word};
ghost use Rattle.pod_piece.specs.rule.Status.{reason_in, disrupted_at};
ghost use Rattle.node_report.specs.rule.Lines.{state_word, qos_word, bool_text, code_text};
ghost use Rattle.node_report.specs.rule.Lines.{pod_words, pod_line, condition_line, container_words};
ghost use Rattle.node_report.specs.rule.Lines.{flag_words, container_line, conditions_text, disruption_text};
ghost use Rattle.node_report.specs.rule.Lines.{containers_text, pod_text};

use event_list::{add_with_number, phase_word, truth_word};
use manifest::{ContainerSpec, PodSpec};
use phase::{Condition, Conditions, ContainerState, Phase};
use pod_piece::PodStatus;
use pod_state::ContainerStatus;
use qos::Qos;
use std::alloc::AllocError;

fn state_word(state: ContainerState) -> &'static str
    ensures { result.now ≡ state_word state }
{
    match state {
        ContainerState::Waiting => "Waiting",
        ContainerState::Running => "Running",
        ContainerState::Terminated => "Terminated",
    }
}

fn qos_word(qos: Qos) -> &'static str
    ensures { result.now ≡ qos_word qos }
{
    match qos {
        Qos::Guaranteed => "Guaranteed",
        Qos::Burstable => "Burstable",
        Qos::BestEffort => "BestEffort",
    }
}

fn bool_word(value: bool) -> &'static str
    ensures { result.now ≡ bool_text value }
{
    if value { "true" } else { "false" }
}

fn add_code(text: &mut String, code: Option<i32>) -> Result<(), AllocError>
    ensures { OnOk result (string_bytes text.new ≡ string_bytes text.old ++ (codes " code=" ++ code_text code)) }
{
    match code {
        None => add(text, " code=-"),
        Some(code) => add_with_number(text, " code=", code),
    }
}

/// Adds why the pod has failed, if it is known.
fn add_reason(text: &mut String, reason: Option<&str>) -> Result<(), AllocError>
    ensures { OnOk result (string_bytes text.new
        ≡ string_bytes text.old ++ unwrap_or (option_map (λ r. r.now) reason.entry) (codes "-")) }
{
    match reason {
        None => add(text, "-"),
        Some(reason) => add(text, reason),
    }
}

fn add_pod_words(
    text: &mut String,
    number: usize,
    pod: &PodSpec,
    phase: Phase,
) -> Result<(), AllocError>
    ensures { OnOk result (string_bytes text.new
        ≡ string_bytes text.old ++ pod_words number pod.now.namespace pod.now.name (phase_word phase)) }
{
    add_with_number(text, "pod ", number)?;
    add(text, " ")?;
    add(text, pod.namespace.as_str())?;
    add(text, "/")?;
    add(text, pod.name.as_str())?;
    add(text, " phase=")?;
    add(text, phase_word(phase))
}

#[tactic(auto, unfolding(crate::specs::rule::Lines::pod_line))]
fn add_pod_line(
    text: &mut String,
    number: usize,
    pod: &PodSpec,
    qos: Qos,
    phase: Phase,
    reason: Option<&str>,
) -> Result<(), AllocError>
    ensures { OnOk result (string_bytes text.new
        ≡ string_bytes text.old ++ pod_line number pod.now qos phase (option_map (λ r. r.now) reason.entry)) }
{
    add_pod_words(text, number, pod, phase)?;
    add(text, " reason=")?;
    add_reason(text, reason)?;
    add(text, " qos=")?;
    add(text, qos_word(qos))?;
    add(text, "\n")
}

pub(crate) fn add(text: &mut String, line: &str) -> Result<(), AllocError>
    ensures { OnOk result (string_bytes text.new ≡ string_bytes text.old ++ line.now) }
{
    text.push_str(line)
}

#[tactic(auto, unfolding(crate::specs::rule::Lines::condition_line))]
fn add_condition(
    text: &mut String,
    number: usize,
    kind: &str,
    condition: Condition,
) -> Result<(), AllocError>
    ensures { OnOk result (string_bytes text.new ≡ string_bytes text.old ++ condition_line number kind.now condition) }
{
    let since = condition.since.unwrap_or(0);
    add_with_number(text, "condition ", number)?;
    add(text, " ")?;
    add(text, kind)?;
    add(text, " ")?;
    add(text, truth_word(condition.value))?;
    add_with_number(text, " ", since)?;
    add(text, "\n")
}

/// Adds the line of `Ready`.
fn add_ready(text: &mut String, number: usize, conditions: Conditions) -> Result<(), AllocError>
    ensures { OnOk result (string_bytes text.new
        ≡ string_bytes text.old ++ condition_line number (codes "Ready") conditions.ready) }
{
    add_condition(text, number, "Ready", conditions.ready)
}

/// Adds the four condition lines.
fn add_conditions(
    text: &mut String,
    number: usize,
    conditions: Conditions,
) -> Result<(), AllocError>
    ensures { OnOk result (string_bytes text.new ≡ string_bytes text.old ++ conditions_text number conditions) }
{
    add_condition(text, number, "PodScheduled", conditions.pod_scheduled)?;
    add_condition(text, number, "Initialized", conditions.initialized)?;
    add_condition(text, number, "ContainersReady", conditions.containers_ready)?;
    add_ready(text, number, conditions)?;
    Ok(())
}

/// Adds the line of the condition that a pod has beside the four that the node disrupts.
fn add_disruption(text: &mut String, number: usize, since: Option<u64>) -> Result<(), AllocError>
    ensures { OnOk result (string_bytes text.new ≡ string_bytes text.old ++ disruption_text number since) }
{
    let Some(since) = since else {
        return Ok(());
    };
    add_with_number(text, "condition ", number)?;
    add_with_number(text, " DisruptionTarget True ", since)?;
    add(text, " TerminationByKubelet\n")
}

fn add_container_words(
    text: &mut String,
    number: usize,
    name: &str,
    status: ContainerStatus,
) -> Result<(), AllocError>
    ensures { OnOk result (string_bytes text.new ≡ string_bytes text.old
        ++ container_words number name.now (state_word status.state) (code_text status.code)) }
{
    add_with_number(text, "container ", number)?;
    add(text, " ")?;
    add(text, name)?;
    add(text, " state=")?;
    add(text, state_word(status.state))?;
    add_code(text, status.code)
}

/// Adds the end of the line of a container.
fn add_flags(text: &mut String, status: ContainerStatus) -> Result<(), AllocError>
    ensures { OnOk result (string_bytes text.new
        ≡ string_bytes text.old ++ flag_words [] status.restarts status.ready status.started) }
{
    add_with_number(text, " restarts=", status.restarts)?;
    add(text, " ready=")?;
    add(text, bool_word(status.ready))?;
    add(text, " started=")?;
    add(text, bool_word(status.started))?;
    add(text, "\n")
}

#[tactic(auto, unfolding(crate::specs::rule::Lines::container_line))]
fn add_container_line(
    text: &mut String,
    number: usize,
    name: &str,
    status: ContainerStatus,
) -> Result<(), AllocError>
    ensures { OnOk result (string_bytes text.new ≡ string_bytes text.old ++ container_line number name.now status) }
{
    add_container_words(text, number, name, status)?;
    add_flags(text, status)
}

/// Adds a line for each container.
fn add_containers(
    text: &mut String,
    number: usize,
    containers: &[ContainerSpec],
    statuses: &[ContainerStatus],
) -> Result<(), AllocError>
    requires { length statuses.now ≡ length containers.now }
    ensures { OnOk result (string_bytes text.new
        ≡ string_bytes text.old ++ containers_text number containers.now statuses.now) }
{
    for (place, container) in containers.iter().enumerate() {
        add_container_line(text, number, container.name.as_str(), statuses[place])?;
    }
    Ok(())
}

/// Adds the lines of the pod with this status.
pub(crate) fn add_pod_text(
    text: &mut String,
    number: usize,
    pod: &PodSpec,
    status: &PodStatus,
) -> Result<(), AllocError>
    requires { length status.now.containers.items ≡ length pod.now.containers }
    ensures { OnOk result (string_bytes text.new ≡ string_bytes text.old
        ++ pod_text number pod.now status.now.class status.now.phase status.now.conditions
        (reason_in status.now.order status.now.failure) (disrupted_at status.now.order status.now.failure)
        status.now.containers.items) }
{
    add_pod_line(
        text,
        number,
        pod,
        status.class,
        status.phase,
        status.reason(),
    )?;
    add_conditions(text, number, status.conditions)?;
    add_disruption(text, number, status.disruption_target())?;
    add_containers(text, number, pod.containers.as_slice(), &status.containers)?;
    Ok(())
}
