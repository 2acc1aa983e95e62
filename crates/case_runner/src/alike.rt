//! Whether two pods show the same.

use pod_piece::{PodPiece, PodStatus};

/// Whether the phases, the conditions and the containers are the same.
fn have_one_state(one: &PodStatus, other: &PodStatus) -> bool {
    one.phase == other.phase
        && one.conditions == other.conditions
        && one.containers.as_slice() == other.containers.as_slice()
        && one.order == other.order
}

/// Whether all else is the same by which pods are told apart and ranked.
fn have_one_rank(one: &PodStatus, other: &PodStatus) -> bool {
    one.number == other.number
        && one.class == other.class
        && one.requests == other.requests
        && one.usage == other.usage
        && one.priority == other.priority
}

/// Whether two pods show the same.
pub(crate) fn are_alike(one: &PodPiece, other: &PodPiece) -> bool {
    one.pending() == other.pending()
        && one.last_at() == other.last_at()
        && one.events() == other.events()
        && have_one_state(one.status(), other.status())
        && have_one_rank(one.status(), other.status())
}
