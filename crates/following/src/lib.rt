//! Follows the containers of a node's pods, tick by tick: which listings may come next.
#![tactic(auto)]

mod listing_order;

pub use listing_order::ListingOrder;
