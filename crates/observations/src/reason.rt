//! The reason with which a node has ended a pod.

ghost use Rattle.std.specs.Prelude.{◌≡◌};
ghost use Rattle.std.specs.List.{list_all};
ghost use Rattle.std.specs.Char.{is_ascii_alphabetic};
ghost use Rattle.std.specs.Prelude.{slice_index};
ghost use Rattle.observations.specs.rule.Reasons.{is_reason_byte, is_reason, reason_of};

use arrayvec::ArrayString;
use std::marker::Model;

/// The longest reason, in bytes.
const MOST_BYTES: usize = 63;

/// Why a node has ended a pod: the `reason` of the pod's status, such as `Evicted` or `DeadlineExceeded`. It has 1 to
/// 63 bytes, each a letter, a digit, `-`, `_`, `.` or `/`, and a letter first. (Kubernetes, "Pod Lifecycle"; which
/// bytes it has is this project's extended format.)
#[derive(Drop)]
pub struct EndReason {
    text: ArrayString<MOST_BYTES>,
}

impl Model for EndReason {
    ghost use Rattle.std.specs.Prelude.{ℕ, List};

    ghost Value = { List ℕ };

    ghost view = { λ r. r.text.bytes };
}

fn is_reason_byte(byte: u8) -> bool
    ensures { result ≡ is_reason_byte byte }
{
    byte.is_ascii_alphanumeric() || matches!(byte, b'-' | b'_' | b'.' | b'/')
}

fn has_reason_bytes(text: &[u8]) -> bool
    ensures { result ≡ list_all is_reason_byte text.now }
{
    text.iter().all(|byte| is_reason_byte(*byte))
}

fn begins_with_letter(text: &[u8]) -> bool
    ensures { result ≡ is_ascii_alphabetic (slice_index text.now 0) }
{
    match text.first() {
        Some(first) => first.is_ascii_alphabetic(),
        None => false,
    }
}

/// Whether the text is a reason.
#[tactic(auto, unfolding(crate::specs::rule::Reasons::is_reason))]
fn is_reason(text: &[u8]) -> bool
    ensures { result ≡ is_reason text.now }
{
    !text.is_empty()
        && text.len() <= MOST_BYTES
        && has_reason_bytes(text)
        && begins_with_letter(text)
}

impl EndReason {
    /// The reason that the text is, if it is one.
    pub fn of(text: &str) -> Option<EndReason>
        ensures { result ≡ reason_of text.now }
    {
        if !is_reason(text.as_bytes()) {
            return None;
        }
        match ArrayString::from(text) {
            Ok(text) => Some(EndReason { text }),
            Err(_) => None,
        }
    }

    /// The reason once more. Doesn't allocate.
    pub fn again(&self) -> EndReason
        ensures { result ≡ self.now }
    {
        EndReason { text: self.text }
    }

    /// The text of the reason.
    pub fn as_str(&self) -> &str
        ensures { result.now ≡ self.now }
    {
        self.text.as_str()
    }
}
