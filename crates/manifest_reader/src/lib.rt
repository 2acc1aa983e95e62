//! Reading a manifest: the pod that it describes, or its first fault in the order of its fields.
#![tactic(auto)]

mod checks;
pub mod laws;
mod own_restarts;
mod reading;

pub use manifest_fields::{Field, ManifestFault};
pub use reading::{read_pod, read_pod_in};
