//! The readiness gates of a pod.

ghost use Rattle.std.specs.Prelude.{◌≡◌, ◌<◌, ◌≤◌, ◌++◌, ◌∷◌, [], length, option_map, slice_get, OnOk, OnErr};
ghost use Rattle.std.specs.List.{list_all};
ghost use Rattle.manifest.specs.rule.Gates.{most_gates, is_type_byte, has_type_ends, is_plain_type, slash_in};
ghost use Rattle.manifest.specs.rule.Gates.{is_condition_type};

use crate::names::is_name;
use crate::text::Text;
use std::alloc::{AllocError, Global};
use std::marker::Model;

/// No pod has more readiness gates.
pub const MOST_GATES: usize = 16;

/// The condition types that the readiness gates of a pod name, each once, at most [`MOST_GATES`]: the pod is Ready only
/// while each of these conditions is True. Contracts see a list of texts. (Kubernetes, "Pod Lifecycle", "Pod
/// readiness".)
#[derive(Drop)]
pub struct ReadinessGates {
    types: Vec<Text>,
}

impl Model for ReadinessGates {
    ghost use Rattle.std.specs.Prelude.{ℕ, List, length, ◌≤◌};
    ghost use Rattle.manifest.specs.rule.Gates.{most_gates};

    ghost Value = { List (List ℕ) };

    ghost view = { λ g. g.types.items };

    ghost invariant = { λ g. length g.types.items ≤ most_gates };
}

fn is_type_byte(byte: u8) -> bool
    ensures { result ≡ is_type_byte byte }
{
    byte.is_ascii_alphanumeric() || matches!(byte, b'-' | b'_' | b'.')
}

fn has_type_bytes(text: &[u8]) -> bool
    ensures { result ≡ list_all is_type_byte text.now }
{
    text.iter().all(|byte| is_type_byte(*byte))
}

fn has_type_ends(text: &[u8]) -> bool
    ensures { result ≡ has_type_ends text.now }
{
    match text {
        [] => false,
        [first, .., last] => first.is_ascii_alphanumeric() && last.is_ascii_alphanumeric(),
        [only] => only.is_ascii_alphanumeric(),
    }
}

#[tactic(auto, unfolding(crate::specs::rule::Gates::is_plain_type))]
fn is_plain_type(text: &[u8]) -> bool
    ensures { result ≡ is_plain_type text.now }
{
    0 < text.len() && text.len() <= 63 && has_type_bytes(text) && has_type_ends(text)
}

/// The place of the first slash.
fn slash_in(text: &[u8]) -> Option<usize>
    ensures { result ≡ slash_in text.now }
{
    text.iter().position(|byte| *byte == b'/')
}

/// Whether the text is a condition type: a qualified name, which is 1 to 63 letters, digits, `-`, `_` and `.` with a
/// letter or digit at both ends, after a name and a slash or alone. (Kubernetes, "Labels and Selectors", "Syntax and
/// character set".)
pub fn is_condition_type(text: &[u8]) -> bool
    ensures { result ≡ is_condition_type text.now }
{
    match slash_in(text) {
        None => is_plain_type(text),
        Some(place) => is_name(&text[..place]) && is_plain_type(&text[place + 1..]),
    }
}

impl ReadinessGates {
    /// No gate. Doesn't allocate.
    pub fn none(alloc: Global) -> ReadinessGates
        ensures { result ≡ [] }
    {
        ReadinessGates {
            types: Vec::new(alloc),
        }
    }

    /// How many gates there are.
    pub fn len(&self) -> usize
        ensures same { result ≡ length self.now }
        ensures most { result ≤ most_gates }
    {
        self.types.len()
    }

    /// The condition type that the gate with the number names, if there is one.
    pub fn get(&self, number: usize) -> Option<&str>
        ensures { option_map (λ s. s.now) result ≡ slice_get self.now number }
    {
        match self.types.get(number) {
            Some(name) => Some(name.as_str()),
            None => None,
        }
    }

    /// Appends a gate. Returns `Err` if an allocation fails; the gates are then as they were.
    pub fn push(&mut self, name: Text) -> Result<(), AllocError>
        requires { length self.old < most_gates }
        ensures ok { OnOk result (self.new ≡ self.old ++ name ∷ []) }
        ensures err { OnErr result (self.new ≡ self.old) }
    {
        self.types.push(name)?;
        Ok(())
    }
}
