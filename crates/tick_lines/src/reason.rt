//! The member with the reason for which the node has ended a pod.

ghost use Rattle.std.specs.Prelude.{◌≡◌, option_map};
ghost use Rattle.tick_lines.specs.rule.Reasons.{reason_said, reason_member_of};

use crate::value::TickValue;
use observations::EndReason;

/// The content of an entry's member `failed`. (This project's extended format.)
#[derive(Drop)]
pub enum ReasonMember {
    /// Nothing: it is missing or null.
    Missing,
    /// It is this reason.
    Reason(EndReason),
    /// It is a text that is no reason, or a value of another kind.
    OfOtherKind,
}

/// The content of a value that is not null, by its text, if it is one.
fn reason_said(text: Option<&str>) -> ReasonMember
    ensures { result ≡ reason_said (option_map (λ s. s.now) text.entry) }
{
    let Some(text) = text else {
        return ReasonMember::OfOtherKind;
    };
    match EndReason::of(text) {
        Some(reason) => ReasonMember::Reason(reason),
        None => ReasonMember::OfOtherKind,
    }
}

/// The content of such a member.
pub(crate) fn reason_member_of<V: TickValue>(found: Option<&V>) -> ReasonMember
    ensures { result ≡ reason_member_of (option_map (λ v. V.data v.now) found.entry) }
{
    match found {
        Some(value) => reason_said(value.text()),
        None => ReasonMember::Missing,
    }
}
