//! Why a manifest was rejected.

ghost use Rattle.std.specs.Prelude.{◌≡◌};
ghost use Rattle.manifest_fields.specs.declared.fault.ManifestFault.TheVariants.{OutOfMemory};

use json_fields::FieldFault;
use quantity::QuantityFault;
use std::alloc::AllocError;
use thiserror::Error;

/// A place in a manifest, in the order in which they are read.
#[derive(Clone, Copy, Debug, PartialEq, Eq)]
pub enum Field {
    /// The manifest itself.
    Pod,
    Metadata,
    /// `metadata.name`
    Name,
    /// `metadata.namespace`
    Namespace,
    Spec,
    /// `spec.restartPolicy` and, in this project's extended format, a container's `restartPolicy`.
    RestartPolicy,
    /// `spec.priority`
    Priority,
    /// `spec.terminationGracePeriodSeconds`
    GracePeriod,
    /// `spec.initContainers`, and an item of it
    InitContainers,
    /// `spec.containers`, and an item of it
    Containers,
    /// A container's `name`.
    ContainerName,
    /// A container's `restartPolicyRules`, an item of it, and a field of an item. (This project's extended format.)
    RestartRules,
    /// `resources` of a container or, in this project's extended format, of the pod's `spec`.
    Resources,
    /// A container's `startupProbe`, `livenessProbe` or `readinessProbe`.
    Probe,
    /// `spec.readinessGates`, an item of it, and an item's `conditionType`. (This project's extended format.)
    ReadinessGates,
    /// Whether the node exempts the pod from eviction (the member `spared`, next to the manifest). (This project's
    /// extended format.)
    Spared,
}

/// The first fault of a manifest, in the order of its fields.
#[derive(Clone, Copy, Debug, PartialEq, Eq, Error)]
pub enum ManifestFault {
    #[error("a required field is missing: {0:?}")]
    Missing(Field),
    #[error("a field has a value of another kind, or one that is out of its range: {0:?}")]
    WrongKind(Field),
    #[error("a quantity is faulty: {0}")]
    Quantity(QuantityFault),
    #[error("a number of a probe is out of its range")]
    ProbeRange,
    #[error("an init container that is no sidecar has a probe")]
    InitProbe,
    #[error("a resource's request is above its limit")]
    RequestAboveLimit,
    #[error("two containers have one name")]
    DuplicateContainer,
    #[error("a container has a restart policy, or restart rules, that it may not have")]
    Sidecar,
    #[error("more than 16 containers or readiness gates, 20 restart rules or 255 exit codes")]
    TooMany,
    #[error("out of memory")]
    OutOfMemory,
}

impl ManifestFault {
    ghost use Rattle.manifest_fields.specs.state.Fault.{number_of};

    /// The number of the fault in a refusal's line.
    pub fn number(self) -> u8
        ensures { result ≡ number_of self }
    {
        match self {
            ManifestFault::Missing(_) => 11,
            ManifestFault::WrongKind(_) => 12,
            ManifestFault::Quantity(_) => 13,
            ManifestFault::ProbeRange => 14,
            ManifestFault::InitProbe => 15,
            ManifestFault::RequestAboveLimit => 16,
            ManifestFault::DuplicateContainer => 17,
            ManifestFault::Sidecar => 18,
            ManifestFault::TooMany => 19,
            ManifestFault::OutOfMemory => 20,
        }
    }
}

impl From<FieldFault> for ManifestFault {
    ghost use Rattle.manifest_fields.specs.rule.Fault.{resource_fault};

    ghost from_gives = { λ fault e. e ≡ resource_fault fault };

    /// The fault of a quantity of a container's resources.
    fn from(fault: FieldFault) -> ManifestFault {
        match fault {
            FieldFault::WrongKind => ManifestFault::WrongKind(Field::Resources),
            FieldFault::Faulty(fault) => ManifestFault::Quantity(fault),
        }
    }
}

impl From<AllocError> for ManifestFault {
    ghost from_gives = { λ _ e. e ≡ OutOfMemory };

    fn from(_e: AllocError) -> ManifestFault {
        ManifestFault::OutOfMemory
    }
}
