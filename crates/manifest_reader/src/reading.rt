//! Reading a manifest, with the first fault in the order of the fields.

ghost use Rattle.std.specs.Prelude.{◌≡◌, ◌≤◌, ◌<◌, ◌+◌, ◌++◌, false, length, map, option_map, bytes_eq};
ghost use Rattle.std.specs.Prelude.{IfErr, IfOk, IsErrOf, OnOk};
ghost use Rattle.std.specs.List.{list_any};
ghost use Rattle.serde_json.specs.View.{view};
ghost use Rattle.json_fields.specs.rule.Reading.{each};
ghost use Rattle.json_fields.specs.state.Reading.{GivesExactly, GivesUnless};
ghost use Rattle.manifest.specs.declared.pod.Role.TheVariants.{Sidecar};
ghost use Rattle.manifest_fields.specs.state.Memory.{is_memory};
ghost use Rattle.manifest.specs.rule.Containers.{has_twice, most_containers};
ghost use Rattle.manifest.specs.state.Containers.{MayHave, IsOf, AllOf};
ghost use Rattle.manifest_reader.specs.rule.Manifest.{policy_of, priority_from, priority_of, grace_period_from};
ghost use Rattle.manifest_reader.specs.rule.Manifest.{grace_period_of, field_of, sidecar_from, role_of, container_of};
ghost use Rattle.manifest_reader.specs.rule.Manifest.{few};
ghost use Rattle.manifest_reader.specs.rule.Manifest.{apart, containers_of, app_items_of, containers_in, metadata_of};
ghost use Rattle.manifest_reader.specs.rule.Manifest.{role_by, restarts_by, settings_in, pod_in, pod_at};
ghost use Rattle.manifest_reader.specs.rule.OwnRestarts.{role_with};

use crate::checks::check_pod;
use crate::own_restarts::{own_policy_of, policy_in, restarts_of, role_with};
use json_fields::field;
use manifest::{
    ContainerList, ContainerSpec, GracePeriod, MOST_CONTAINERS, OwnRestarts, Place, PodSpec,
    Policy, ReadinessGates, Resources, Role, Text,
};
use manifest_fields::{
    Field, Grammar, ManifestFault, array, array_or_none, object, probes_of, required_text,
    resources_of, some_items, text_or,
};
use quantity::END_OF_TIME;
use serde_json::Value;
use std::alloc::{AllocError, Global};

fn policy_of(found: Option<&Value>) -> Result<Policy, ManifestFault>
    ensures { GivesExactly (λ p. p) result (policy_of (option_map (λ v. view v.now) found.entry)) }
{
    match found {
        None => Ok(Policy::Always),
        Some(value) => policy_in(value),
    }
}

fn priority_from(number: Option<i64>) -> Result<i32, ManifestFault>
    ensures { GivesExactly (λ n. n) result (priority_from number) }
{
    let fault = ManifestFault::WrongKind(Field::Priority);
    i32::try_from(number.ok_or(fault)?).map_err(|_| fault)
}

fn priority_of(found: Option<&Value>) -> Result<i32, ManifestFault>
    ensures { GivesExactly (λ n. n) result (priority_of (option_map (λ v. view v.now) found.entry)) }
{
    match found {
        None => Ok(0),
        Some(value) => priority_from(value.as_i64()),
    }
}

fn grace_period_from(seconds: Option<u64>) -> Result<GracePeriod, ManifestFault>
    ensures { GivesExactly (λ n. n) result (grace_period_from seconds) }
{
    match seconds {
        Some(seconds) if seconds < END_OF_TIME => Ok(GracePeriod::new(seconds)),
        _ => Err(ManifestFault::WrongKind(Field::GracePeriod)),
    }
}

fn grace_period_of(found: Option<&Value>) -> Result<GracePeriod, ManifestFault>
    ensures { GivesExactly (λ n. n) result (grace_period_of (option_map (λ v. view v.now) found.entry)) }
{
    match found {
        None => Ok(GracePeriod::new(30)),
        Some(value) => grace_period_from(value.as_u64()),
    }
}

pub(crate) fn field_of(place: Place) -> Field
    ensures { result ≡ field_of place }
{
    match place {
        Place::InitContainers => Field::InitContainers,
        Place::Containers => Field::Containers,
    }
}

/// The role of an item of `initContainers` with a restart policy of its own, which has to be
/// `Always`.
fn sidecar_from(own_policy: Option<&str>) -> Result<Role, ManifestFault>
    ensures gives { GivesExactly (λ r. r) result (sidecar_from (option_map (λ s. s.now) own_policy.entry)) }
    ensures is { IfOk result (λ role. role ≡ Sidecar) }
{
    match own_policy {
        Some("Always") => Ok(Role::Sidecar),
        _ => Err(ManifestFault::Sidecar),
    }
}

/// What a container is to its pod, by where it is written and by its own restart policy.
pub(crate) fn role_of(place: Place, own_policy: Option<&Value>) -> Result<Role, ManifestFault>
    ensures gives { GivesExactly (λ r. r) result (role_of place (option_map (λ v. view v.now) own_policy.entry)) }
    ensures may_have { IfOk result (MayHave place) }
{
    match (place, own_policy) {
        (Place::InitContainers, None) => Ok(Role::Init),
        (Place::InitContainers, Some(policy)) => sidecar_from(policy.as_str()),
        (Place::Containers, None) => Ok(Role::App),
        (Place::Containers, Some(_)) => Err(ManifestFault::Sidecar),
    }
}

/// What a container is to its pod; `own` is whether the format reads its own restart policy.
pub(crate) fn role_by(
    own: bool,
    place: Place,
    own_policy: Option<&Value>,
) -> Result<Role, ManifestFault>
    ensures gives { GivesExactly (λ r. r) result (role_by own place (option_map (λ v. view v.now) own_policy.entry)) }
    ensures may_have { IfOk result (MayHave place) }
{
    if own {
        Ok(own_role(place, own_policy_of(own_policy)?))
    } else {
        role_of(place, own_policy)
    }
}

/// The role of a container with this policy of its own.
fn own_role(place: Place, policy: Option<Policy>) -> Role
    ensures value { result ≡ role_with place policy }
    ensures may_have { MayHave place result }
{
    role_with(place, policy)
}

/// What a container has of its own to decide on its restarts, in a format that reads it or not.
fn restarts_by(
    alloc: Global,
    own: bool,
    role: Role,
    container: &Value,
) -> Result<Option<OwnRestarts>, ManifestFault>
    ensures { GivesUnless is_memory (λ o. o) result (restarts_by own role (view container.now)) }
{
    if own {
        restarts_of(alloc, role, container)
    } else {
        Ok(None)
    }
}

#[tactic(auto, unfolding(crate::specs::rule::Manifest::container_of))]
fn container_of(
    alloc: Global,
    own: bool,
    place: Place,
    value: &Value,
) -> Result<ContainerSpec, ManifestFault>
    ensures gives { GivesUnless is_memory (λ c. c) result (container_of own place (view value.now)) }
    ensures of { IfOk result (IsOf place) }
{
    let object = object(field_of(place), Some(value))?;
    let name = required_text(
        alloc,
        Grammar::Label,
        Field::ContainerName,
        field(object, "name"),
    )?;
    let role = role_by(own, place, field(object, "restartPolicy"))?;
    let own_restarts = restarts_by(alloc, own, role, object)?;
    let resources = resources_of(field(object, "resources"))?;
    let probes = probes_of(role, object)?;
    let mut container = ContainerSpec::new(name, role, resources, probes);
    container.own_restarts = own_restarts;
    Ok(container)
}

#[tactic(auto, using(crate::proofs::Placed::all_of_none))]
fn containers(
    alloc: Global,
    own: bool,
    place: Place,
    values: &[Value],
) -> Result<Vec<ContainerSpec>, ManifestFault>
    ensures gives { GivesUnless is_memory (λ cs. cs.items) result
        (each (container_of own place) (map view values.now)) }
    ensures as_many { IfOk result (λ cs. length cs.items ≡ length values.now) }
    ensures of { IfOk result (λ cs. AllOf place cs.items) }
{
    let mut all = Vec::new(alloc);
    for value in values {
        let container = container_of(alloc, own, place, value)?;
        let Ok(()) = all.push(container) else {
            return Err(ManifestFault::OutOfMemory);
        };
    }
    Ok(all)
}

fn has_name(containers: &[ContainerSpec], name: &str) -> bool
    ensures { result ≡ list_any (λ c. bytes_eq c.name name.now) containers.now }
{
    containers.iter().any(|c| c.name.as_str() == name)
}

fn has_twice(containers: &[ContainerSpec]) -> bool
    ensures { result ≡ has_twice containers.now }
{
    let mut rest = containers;
    while let [first, others @ ..] = rest {
        if has_name(others, first.name.as_str()) {
            return true;
        }
        rest = others;
    }
    false
}

pub(crate) fn few(init: &[Value], apps: &[Value]) -> Result<(), ManifestFault>
    ensures gives { GivesExactly (λ t. t) result (few (map view init.now) (map view apps.now)) }
    ensures within { OnOk result (length init.now + length apps.now ≤ most_containers) }
{
    if init.len() + apps.len() > MOST_CONTAINERS {
        return Err(ManifestFault::TooMany);
    }
    Ok(())
}

fn apart(containers: &[ContainerSpec]) -> Result<(), ManifestFault>
    ensures gives { GivesExactly (λ t. t) result (apart containers.now) }
    ensures apart { OnOk result (has_twice containers.now ≡ false) }
{
    if has_twice(containers) {
        return Err(ManifestFault::DuplicateContainer);
    }
    Ok(())
}

fn joined(
    init: Vec<ContainerSpec>,
    apps: Vec<ContainerSpec>,
) -> Result<Vec<ContainerSpec>, AllocError>
    ensures { IfOk result (λ all. all.items ≡ init.items ++ apps.items) }
{
    let mut all = init;
    for container in apps {
        all.push(container)?;
    }
    Ok(all)
}

#[tactic(auto, unfolding(crate::specs::rule::Manifest::containers_of))]
fn containers_of(
    alloc: Global,
    own: bool,
    init_items: &[Value],
    items: &[Value],
) -> Result<ContainerList, ManifestFault>
    requires { 0 < length items.now }
    ensures { GivesUnless is_memory (λ cs. cs) result
        (containers_of own (map view init_items.now) (map view items.now)) }
{
    few(init_items, items)?;
    let init = containers(alloc, own, Place::InitContainers, init_items)?;
    let apps = containers(alloc, own, Place::Containers, items)?;
    let all = joined(init, apps)?;
    apart(&all)?;
    Ok(ContainerList::new(all))
}

/// The items of an array of app containers, of which there is at least one.
#[tactic(auto, unfolding(crate::specs::rule::Manifest::app_items_of))]
pub(crate) fn app_items_of(found: Option<&Value>) -> Result<&[Value], ManifestFault>
    ensures gives { GivesExactly (λ v. map view v.now) result
        (app_items_of (option_map (λ v. view v.now) found.entry)) }
    ensures some { IfOk result (λ v. 0 < length v.now) }
{
    let listed = array(Field::Containers, found)?;
    some_items(Field::Containers, listed)
}

#[tactic(auto, unfolding(crate::specs::rule::Manifest::containers_in))]
fn containers_in(alloc: Global, own: bool, spec: &Value) -> Result<ContainerList, ManifestFault>
    ensures { GivesUnless is_memory (λ cs. cs) result (containers_in own (view spec.now)) }
{
    let init_items = array_or_none(Field::InitContainers, field(spec, "initContainers"))?;
    let items = app_items_of(field(spec, "containers"))?;
    containers_of(alloc, own, init_items, items)
}

/// What is read of a pod's `metadata`.
#[derive(Drop)]
struct Metadata {
    name: Text,
    namespace: Text,
}

#[tactic(auto, unfolding(crate::specs::rule::Manifest::metadata_of))]
fn metadata_of(alloc: Global, found: Option<&Value>) -> Result<Metadata, ManifestFault>
    ensures { GivesUnless is_memory (λ m. m) result (metadata_of (option_map (λ v. view v.now) found.entry)) }
{
    let metadata = object(Field::Metadata, found)?;
    let name = required_text(alloc, Grammar::Name, Field::Name, field(metadata, "name"))?;
    let namespace = text_or(
        alloc,
        "default",
        Grammar::Label,
        Field::Namespace,
        field(metadata, "namespace"),
    )?;
    Ok(Metadata { name, namespace })
}

/// What a pod's `spec` has on the pod as a whole.
#[derive(Clone, Copy)]
pub(crate) struct Settings {
    policy: Policy,
    priority: i32,
    grace_period_seconds: GracePeriod,
}

#[tactic(auto, unfolding(crate::specs::rule::Manifest::settings_in))]
pub(crate) fn settings_in(spec: &Value) -> Result<Settings, ManifestFault>
    ensures { GivesExactly (λ s. s) result (settings_in (view spec.now)) }
{
    Ok(Settings {
        policy: policy_of(field(spec, "restartPolicy"))?,
        priority: priority_of(field(spec, "priority"))?,
        grace_period_seconds: grace_period_of(field(spec, "terminationGracePeriodSeconds"))?,
    })
}

#[tactic(auto, unfolding(crate::specs::rule::Manifest::pod_in, crate::specs::rule::Manifest::spec_of))]
fn pod_of(alloc: Global, own: bool, value: &Value) -> Result<PodSpec, ManifestFault>
    ensures { GivesUnless is_memory (λ p. p) result (pod_in own (view value.now)) }
{
    let pod = object(Field::Pod, Some(value))?;
    let metadata = metadata_of(alloc, field(pod, "metadata"))?;
    let spec = object(Field::Spec, field(pod, "spec"))?;
    let settings = settings_in(spec)?;
    let containers = containers_in(alloc, own, spec)?;
    Ok(PodSpec {
        name: metadata.name,
        namespace: metadata.namespace,
        policy: settings.policy,
        priority: settings.priority,
        grace_period_seconds: settings.grace_period_seconds,
        containers,
        resources: Resources::none(),
        gates: ReadinessGates::none(alloc),
        spared: false,
    })
}

/// The pod that a manifest describes, or the manifest's first fault in the order of its fields
/// (`metadata`, its `name` and `namespace`, `spec`, its `restartPolicy`, `priority`,
/// `terminationGracePeriodSeconds`, `initContainers` and `containers`; then each container).
/// `OutOfMemory` only where there is no fault: one that the reading did not come to is looked for.
pub fn read_pod(alloc: Global, value: &Value) -> Result<PodSpec, ManifestFault>
    ensures gives { GivesUnless is_memory (λ p. p) result (pod_at (view value.now)) }
    ensures faults { IfErr (pod_at (view value.now)) (IsErrOf result) }
{
    read_pod_in(alloc, false, value)
}

/// The pod that a manifest describes, or the manifest's first fault, in the order of [`read_pod`]. With `own` a
/// container may have a restart policy of its own, and then, directly after it, restart rules; without `own` the
/// manifest is read as [`read_pod`] reads it. `OutOfMemory` only if the manifest has no fault. (Kubernetes, "Pod
/// Lifecycle", "Individual container restart policy and rules".)
pub fn read_pod_in(alloc: Global, own: bool, value: &Value) -> Result<PodSpec, ManifestFault>
    ensures gives { GivesUnless is_memory (λ p. p) result (pod_in own (view value.now)) }
    ensures faults { IfErr (pod_in own (view value.now)) (IsErrOf result) }
{
    match pod_of(alloc, own, value) {
        Ok(pod) => Ok(pod),
        Err(_) => {
            check_pod(own, value)?;
            Err(ManifestFault::OutOfMemory)
        }
    }
}
