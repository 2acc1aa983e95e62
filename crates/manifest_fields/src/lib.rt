//! The fields of a manifest, each read with its own fault, and the parts of a container that no other field decides.
//! (Kubernetes, "Resource Management for Pods and Containers" and "Configure Liveness, Readiness and Startup Probes".)
#![tactic(auto)]

mod fault;
mod fields;
mod probe_fields;
mod resource_fields;

pub use fault::{Field, ManifestFault};
pub use fields::{
    Grammar, absent, array, array_or_none, object, required_text, some_items, text_or,
};
pub use probe_fields::probes_of;
pub use resource_fields::{pod_resources_of, resources_of};
