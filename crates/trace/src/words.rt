//! The words of a tick line, which only version 3 reads: members whose value is true, false or a reason. (This
//! project's extended format.)

ghost use Rattle.std.specs.Prelude.{◌≡◌};
ghost use Rattle.json_fields.specs.state.Reading.{GivesExactly};
ghost use Rattle.trace.specs.rule.Observed.{is_judged};
ghost use Rattle.trace.specs.rule.Placing.{says_so};
ghost use Rattle.trace.specs.rule.Written.{is_of_other_kind, is_no_reason, has_other_kind, line_has_other_kind};
ghost use Rattle.trace.specs.rule.Written.{are_no_statuses, are_no_resizes, is_of_no_kind, heeded, written_in};

use line_faults::{FaultKind, refused_if};
use tick_lines::{
    ConditionsMember, ReasonMember, ResizedMember, TickEntry, TickLine, TickLineFault, TruthMember,
};

pub(crate) fn says_so(member: TruthMember) -> bool
    ensures { result ≡ says_so member }
{
    matches!(member, TruthMember::Yes)
}

/// Whether the tick is a sync tick: unless the line denies it and the version reads that.
pub(crate) fn is_judged(heeds: bool, unjudged: TruthMember) -> bool
    ensures { result ≡ is_judged heeds unjudged }
{
    !(heeds && says_so(unjudged))
}

pub(crate) fn is_of_other_kind(member: TruthMember) -> bool
    ensures { result ≡ is_of_other_kind member }
{
    matches!(member, TruthMember::OfOtherKind)
}

fn is_no_reason(member: &ReasonMember) -> bool
    ensures { result ≡ is_no_reason member.now }
{
    matches!(member, ReasonMember::OfOtherKind)
}

fn are_no_statuses(member: &ConditionsMember) -> bool
    ensures { result ≡ are_no_statuses member.now }
{
    matches!(member, ConditionsMember::OfOtherKind)
}

fn are_no_resizes(member: &ResizedMember) -> bool
    ensures { result ≡ are_no_resizes member.now }
{
    matches!(member, ResizedMember::OfOtherKind)
}

/// Whether a member `unsampled` or `deleting` of the entry is of another kind than a truth value, its member `failed`
/// is neither null nor a reason, its member `conditions` is neither null nor an object of true, false and null, or its
/// member `resized` is neither null nor an object of requests and limits.
fn is_of_no_kind(entry: &TickEntry) -> bool
    ensures { result ≡ is_of_no_kind entry.now }
{
    is_of_other_kind(entry.unsampled)
        || is_of_other_kind(entry.deleting)
        || is_no_reason(&entry.failed)
        || are_no_statuses(&entry.conditions)
        || are_no_resizes(&entry.resized)
}

/// Whether one of the entries has such a member.
fn has_other_kind(entries: &[TickEntry]) -> bool
    ensures { result ≡ has_other_kind entries.now }
{
    entries.iter().any(|e| is_of_no_kind(e))
}

/// Whether one of these, or the line's member `judged`, is of another kind.
pub(crate) fn line_has_other_kind(written: &TickLine) -> bool
    ensures { result ≡ line_has_other_kind written.now }
{
    is_of_other_kind(written.unjudged) || has_other_kind(written.entries.as_slice())
}

/// Rejects these members if the version reads them.
fn heeded(heeds: bool, written: &TickLine) -> Result<&TickLine, FaultKind>
    ensures { GivesExactly (λ t. t.now) result (heeded heeds written.now) }
{
    refused_if(heeds && line_has_other_kind(written), FaultKind::Usage)?;
    Ok(written)
}

/// The contents of a tick line except its moment.
pub(crate) fn written_in(
    heeds: bool,
    said: &Result<TickLine, TickLineFault>,
) -> Result<&TickLine, FaultKind>
    ensures { GivesExactly (λ t. t.now) result (written_in heeds said.now) }
{
    match said {
        Ok(written) => heeded(heeds, written),
        Err(fault) => Err(FaultKind::from(*fault)),
    }
}
