//! Moments of results, and parts of lists of them.

ghost use Rattle.std.specs.Prelude.{◌≡◌, ◌++◌, [], take, OnOk, IfOk};
ghost use Rattle.std.specs.List.{cons_option};
ghost use Rattle.probe_causes.specs.rule.Moments.{told_at, last_of};

use manifest::{Outcome, Probe};
use probes::belonging;
use std::alloc::{AllocError, Global};

/// The moment, if the result at it belongs to the instance with this start.
fn told_at(probe: Probe, start: u64, at: u64, outcome: Option<Outcome>) -> Option<u64>
    ensures { result ≡ told_at probe start at outcome }
{
    belonging(probe, at.saturating_sub(start), outcome)?;
    Some(at)
}

/// Adds the moment of a result that belongs.
pub(crate) fn add_told(
    moments: &mut Vec<u64>,
    probe: Probe,
    start: u64,
    at: u64,
    outcome: Option<Outcome>,
) -> Result<(), AllocError>
    ensures { OnOk result (moments.new.items ≡ moments.old.items ++ cons_option (told_at probe start at outcome) []) }
{
    if let Some(moment) = told_at(probe, start, at, outcome) {
        moments.push(moment)?;
    }
    Ok(())
}

/// The first of these moments, at most so many.
pub(crate) fn first_of(alloc: Global, moments: &[u64], many: usize) -> Result<Vec<u64>, AllocError>
    ensures { IfOk result (λ first. first.items ≡ take many moments.now) }
{
    let first = &moments[..many.min(moments.len())];
    first.to_vec(alloc)
}

/// The last of these moments, at most so many.
pub(crate) fn last_of(alloc: Global, moments: &[u64], many: usize) -> Result<Vec<u64>, AllocError>
    ensures { IfOk result (λ last. last.items ≡ last_of many moments.now) }
{
    let last = &moments[moments.len().saturating_sub(many)..];
    last.to_vec(alloc)
}
