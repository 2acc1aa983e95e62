//! Resources that a container asks for (Kubernetes, "Resource Management for Pods and Containers").

ghost use Rattle.std.specs.Prelude.{◌≡◌, false};
ghost use Rattle.manifest.specs.rule.Resources.{amount_of, nothing, no_resources, is_above, some_above};
ghost use Rattle.manifest.specs.state.Resources.{AreWithin};

use quantity::Quantity;
use std::marker::Model;

/// A resource that is read of a manifest.
#[derive(Clone, Copy, Debug, PartialEq, Eq)]
pub enum Resource {
    /// `cpu`, in CPUs.
    Cpu,
    /// `memory`, in bytes.
    Memory,
    /// `ephemeral-storage`, in bytes.
    EphemeralStorage,
}

/// An amount of each resource, where one is written; a zero stands as it is written.
#[derive(Clone, Copy, Debug, PartialEq, Eq)]
pub struct Amounts {
    /// Processor time, in CPUs.
    pub cpu: Option<Quantity>,
    /// Memory, in bytes.
    pub memory: Option<Quantity>,
    /// Room on the node's disk, in bytes.
    pub ephemeral_storage: Option<Quantity>,
}

/// Whether a request is above its limit. A limit of zero counts as unset.
fn is_above(request: Option<Quantity>, limit: Option<Quantity>) -> bool
    ensures { result ≡ is_above request limit }
{
    match (request, limit) {
        (Some(request), Some(limit)) => 0 < limit.milli() && limit.milli() < request.milli(),
        _ => false,
    }
}

impl Amounts {
    /// No amount of any.
    pub fn nothing() -> Amounts
        ensures { result ≡ nothing }
    {
        Amounts {
            cpu: None,
            memory: None,
            ephemeral_storage: None,
        }
    }

    /// The amount of one resource.
    pub fn of(&self, resource: Resource) -> Option<Quantity>
        ensures { result ≡ amount_of self.now resource }
    {
        match resource {
            Resource::Cpu => self.cpu,
            Resource::Memory => self.memory,
            Resource::EphemeralStorage => self.ephemeral_storage,
        }
    }

    /// Whether one of these requests is above its limit.
    pub fn some_above(&self, limits: &Amounts) -> bool
        ensures { result ≡ some_above self.now limits.now }
    {
        is_above(self.cpu, limits.cpu)
            || is_above(self.memory, limits.memory)
            || is_above(self.ephemeral_storage, limits.ephemeral_storage)
    }
}

/// The requests and limits of a container, as they are written: nothing is made of a zero or of a
/// limit without its request. No request is above its limit where both are set and neither is zero.
/// Contracts see the two.
#[derive(Clone, Copy, Debug, PartialEq, Eq)]
pub struct Resources {
    requests: Amounts,
    limits: Amounts,
}

impl Model for Resources {
    ghost use Rattle.manifest.specs.rule.Resources.{Resources};
    ghost use Rattle.manifest.specs.state.Resources.{AreWithin};

    ghost Value = { Resources };

    ghost view = { λ r. record { requests = r.requests; limits = r.limits } };

    ghost invariant = { λ r. AreWithin (record { requests = r.requests; limits = r.limits }) };

    ghost inverse = { λ v. record { requests = v.requests; limits = v.limits } };
}

impl Resources {
    /// These requests and limits.
    pub fn new(requests: Amounts, limits: Amounts) -> Resources
        requires { some_above requests limits ≡ false }
        ensures { result ≡ record { requests = requests; limits = limits } }
    {
        Resources { requests, limits }
    }

    /// A container's resources where none is written.
    pub fn none() -> Resources
        ensures { result ≡ no_resources }
    {
        Resources {
            requests: Amounts::nothing(),
            limits: Amounts::nothing(),
        }
    }

    /// `requests`
    pub fn requests(self) -> Amounts
        ensures value { result ≡ self.requests }
        ensures within { AreWithin self }
    {
        self.requests
    }

    /// `limits`
    pub fn limits(self) -> Amounts
        ensures value { result ≡ self.limits }
        ensures within { AreWithin self }
    {
        self.limits
    }
}
