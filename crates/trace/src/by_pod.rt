//! The entries of a tick line by the numbers of their pods.

ghost use Rattle.std.specs.Prelude.{◌≡◌, ◌<◌, All, IfOk, None, Some, is_some, length, option_map, slice_index_or};
ghost use Rattle.std.specs.Prelude.{slice_set, if◌then◌else◌};
ghost use Rattle.trace.specs.state.ByPod.{AreFirst};
ghost use Rattle.trace.specs.rule.Observed.{entry_for};
ghost use Rattle.trace.specs.rule.Placing.{has_twice, are_of_one_pod};

use crate::placing::PlacedEntry;
use std::alloc::{AllocError, Global};

/// The places of the pods' entries.
#[derive(Drop)]
pub(crate) struct EntriesByPod {
    /// For each pod the place of its first entry, if it has one.
    pub(crate) first: Vec<Option<usize>>,
    /// Whether a pod has two entries.
    pub(crate) has_pod_twice: bool,
}

/// Notes the place of a pod's entry, unless it has an earlier one. Returns whether it has.
fn note(first: &mut [Option<usize>], pod: usize, place: usize) -> bool
    requires { pod < length first.old }
    ensures earlier { result ≡ is_some (slice_index_or first.old pod None) }
    ensures noted { first.new ≡ (if result then first.old else slice_set first.old pod (Some place)) }
{
    if first[pod].is_some() {
        return true;
    }
    first[pod] = Some(place);
    false
}

/// The places of the entries of this many pods.
pub(crate) fn entries_by_pod(
    alloc: Global,
    entries: &[PlacedEntry],
    pods: usize,
) -> Result<EntriesByPod, AllocError>
    requires { All (λ e. e.pod < pods) entries.now }
    ensures twice { IfOk result (λ found. found.has_pod_twice ≡ has_twice are_of_one_pod entries.now) }
    ensures first { IfOk result (λ found. AreFirst entries.now pods found.first.items) }
{
    // One pass: a search for each pod would cost pods times entries in every tick.
    // (docs/decisions/reading.md)
    let mut first = vec![in alloc; None; pods]?;
    let mut has_pod_twice = false;
    for (place, entry) in entries.iter().enumerate() {
        has_pod_twice |= note(&mut first, entry.pod, place);
    }
    Ok(EntriesByPod {
        first,
        has_pod_twice,
    })
}

/// The first entry of the pod with the number.
pub(crate) fn entry_for<'e>(
    entries: &'e [PlacedEntry],
    first: &[Option<usize>],
    pod: usize,
) -> Option<&'e PlacedEntry>
    requires first { AreFirst entries.now (length first.now) first.now }
    requires within { pod < length first.now }
    ensures { option_map (λ e. e.now) result ≡ entry_for entries.now pod }
{
    let place = first[pod]?;
    Some(&entries[place])
}
