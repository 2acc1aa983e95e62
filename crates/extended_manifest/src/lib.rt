//! A manifest as the extended format reads it: also the resources of the pod as a whole, its readiness gates, and the
//! restart policy and rules of each container.
#![tactic(auto)]

mod gates;
mod reading;

pub use manifest_fields::{Field, ManifestFault};
pub use reading::read_extended_pod;
