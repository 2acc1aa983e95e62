//! What a manifest says of a pod.

ghost use Rattle.std.specs.Prelude.{◌≡◌, ◌<◌, List, None, option_map};
ghost use Rattle.lists.specs.rule.Names.{place_of};

use crate::gates::ReadinessGates;
use crate::grace::GracePeriod;
use crate::own_restarts::OwnRestarts;
use crate::policy::Policy;
use crate::probe::Probes;
use crate::resources::Resources;
use crate::text::Text;
use std::marker::Model;

/// What a container is to its pod.
#[derive(Clone, Copy, Debug, PartialEq, Eq)]
pub enum Role {
    /// An item of `initContainers` that has to end well before the containers after it start.
    /// (Kubernetes, "Init Containers".)
    Init,
    /// An item of `initContainers` with the restart policy `Always` of its own: once it has
    /// started, the containers after it start, and it goes on running beside them. (Kubernetes,
    /// "Sidecar Containers".)
    Sidecar,
    /// An item of `containers`.
    App,
}

/// The two arrays of containers in a pod's `spec`.
#[derive(Clone, Copy)]
pub enum Place {
    InitContainers,
    Containers,
}

/// One container of a pod.
#[derive(Drop)]
pub struct ContainerSpec {
    /// At most 63 bytes, with no point.
    pub name: Text,
    role: Role,
    pub resources: Resources,
    pub probes: Probes,
    /// The container's own restart policy and rules, where it has them and is no sidecar. (Kubernetes, "Pod Lifecycle",
    /// "Individual container restart policy and rules"; read in this project's extended format alone.)
    pub own_restarts: Option<OwnRestarts>,
}

impl ContainerSpec {
    /// A container of this name, whose pod's policy decides on its restarts.
    pub fn new(name: Text, role: Role, resources: Resources, probes: Probes) -> ContainerSpec
        ensures { result ≡ record {
          name = name;
          role = role;
          resources = resources;
          probes = probes;
          own_restarts = None;
        } }
    {
        ContainerSpec {
            name,
            role,
            resources,
            probes,
            own_restarts: None,
        }
    }

    /// The container's own restart policy and rules, if it has them.
    pub fn own_restarts(&self) -> Option<&OwnRestarts>
        ensures { option_map (λ own. own.now) result ≡ self.now.own_restarts }
    {
        self.own_restarts.as_ref()
    }

    /// What the container is to its pod.
    pub fn role(&self) -> Role
        ensures { result ≡ self.now.role }
    {
        self.role
    }
}

/// No pod has more containers.
pub const MOST_CONTAINERS: usize = 16;

/// The containers of a pod: init containers and sidecars in their order, then at least one app
/// container, at most [`MOST_CONTAINERS`] together, no two of one name. An init container has no probes. Contracts
/// see them as a list.
#[derive(Drop)]
pub struct ContainerList {
    items: Vec<ContainerSpec>,
}

impl Model for ContainerList {
    ghost use Rattle.std.specs.Prelude.{List};
    ghost use Rattle.manifest.specs.declared.pod.ContainerSpec.{ContainerSpec};
    ghost use Rattle.manifest.specs.state.Containers.{AreContainers};

    ghost Value = { List ContainerSpec };

    ghost view = { λ c. c.items.items };

    ghost invariant = { λ c. AreContainers c.items.items };
}

impl ContainerList {
    ghost use Rattle.manifest.specs.rule.Containers.{names_of};
    ghost use Rattle.manifest.specs.state.Containers.{AreContainers, has_only_apps};

    /// The containers, numbered by their places.
    pub fn new(items: Vec<ContainerSpec>) -> ContainerList
        requires { AreContainers items.items }
        ensures { result ≡ items.items }
    {
        ContainerList { items }
    }

    /// The containers, by number.
    pub fn as_slice(&self) -> &[ContainerSpec]
        ensures same { result.now ≡ self.now }
        ensures containers { AreContainers self.now }
    {
        self.items.as_slice()
    }

    /// Whether none of them is an init container or a sidecar.
    pub fn has_only_apps(&self) -> bool
        ensures { result ≡ has_only_apps self.now }
    {
        has_only_apps(&self.items)
    }

    /// The number of the container with this name, if there is one.
    pub fn number_of(&self, name: &str) -> Option<usize>
        ensures { result ≡ place_of (names_of self.now) name.now }
    {
        place_of(&self.items, name)
    }
}

ghost use Rattle.manifest.specs.rule.Containers.{names_of};
ghost use Rattle.manifest.specs.state.Containers.{AreContainers, has_only_apps, is_app};

fn is_app(role: Role) -> bool
    ensures { result ≡ is_app role }
{
    matches!(role, Role::App)
}

fn has_only_apps(containers: &[ContainerSpec]) -> bool
    ensures { result ≡ has_only_apps containers.now }
{
    containers.iter().all(|container| is_app(container.role))
}

/// The place of the first container with this name.
fn place_of(containers: &[ContainerSpec], name: &str) -> Option<usize>
    ensures { result ≡ place_of (names_of containers.now) name.now }
{
    let mut rest = containers;
    let mut place = 0;
    'others: while let [first, others @ ..] = rest {
        if name == first.name.as_str() {
            return Some(place);
        }
        rest = others;
        place += 1;
    }
    None
}

/// The specification of one pod (Kubernetes, "Pod Lifecycle"; the fields of the manifest's
/// `metadata` and `spec`).
#[derive(Drop)]
pub struct PodSpec {
    /// `metadata.name`, 1 to 253 bytes.
    pub name: Text,
    /// `metadata.namespace`, at most 63 bytes; `default` where none is written.
    pub namespace: Text,
    /// `spec.restartPolicy`; `Always` where none is written.
    pub policy: Policy,
    /// `spec.priority`, 0 where none is written. Under memory or disk pressure, of pods alike in
    /// whether they use more than they request, one of lower priority is evicted first.
    /// (Kubernetes, "Node-pressure Eviction", "Pod selection for kubelet eviction".)
    pub priority: i32,
    /// `spec.terminationGracePeriodSeconds`, in seconds; 30 where none is written.
    pub grace_period_seconds: GracePeriod,
    /// `spec.initContainers`, then `spec.containers`, in their order.
    pub containers: ContainerList,
    /// `spec.resources`: what the pod requests of cpu and memory as a whole, and its limits of these; nothing where
    /// none is written. (Kubernetes, "Resource Management for Pods and Containers", "Pod-level resource specification";
    /// read in this project's extended format alone.)
    pub resources: Resources,
    /// `spec.readinessGates`; none where none is written. (Kubernetes, "Pod Lifecycle", "Pod readiness"; read in this
    /// project's extended format alone.)
    pub gates: ReadinessGates,
    /// Whether the node spares the pod, so that it never evicts it, as a static or a critical one. No manifest says
    /// so; a pod line may. (This project's extended format.)
    pub spared: bool,
}
