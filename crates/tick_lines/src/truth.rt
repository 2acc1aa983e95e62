//! Members that are truth values, one of which has a meaning.

ghost use Rattle.std.specs.Prelude.{◌≡◌, option_map};
ghost use Rattle.tick_lines.specs.rule.Truths.{truth_of, denial_of};

use crate::value::TickValue;

/// The content of a member such as `unsampled`, `deleting` or `judged`. (This project's extended format.)
#[derive(Clone, Copy, Debug, PartialEq, Eq)]
pub enum TruthMember {
    /// Nothing: it is missing, null or the truth value without a meaning.
    No,
    /// Its word: it is true, or false if that has the meaning.
    Yes,
    /// It has a value of another kind than a truth value.
    OfOtherKind,
}

/// The content of a member that means something by true.
pub fn truth_of<V: TickValue>(found: Option<&V>) -> TruthMember
    ensures { result ≡ truth_of (option_map (λ v. V.data v.now) found.entry) }
{
    let Some(value) = found else {
        return TruthMember::No;
    };
    match value.truth() {
        Some(true) => TruthMember::Yes,
        Some(false) => TruthMember::No,
        None => TruthMember::OfOtherKind,
    }
}

/// The content of a member that means something by false.
pub(crate) fn denial_of<V: TickValue>(found: Option<&V>) -> TruthMember
    ensures { result ≡ denial_of (option_map (λ v. V.data v.now) found.entry) }
{
    let Some(value) = found else {
        return TruthMember::No;
    };
    match value.truth() {
        Some(true) => TruthMember::No,
        Some(false) => TruthMember::Yes,
        None => TruthMember::OfOtherKind,
    }
}
