//! What a node is configured with, as a kubelet is.
#![tactic(auto)]

mod eviction_config;
mod node;

pub use eviction_config::EvictionConfig;
pub use node::{Format, NodeConfig, Version};
