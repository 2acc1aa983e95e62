//! The names of a node's pods.

ghost use Rattle.std.specs.Prelude.{◌≡◌, ◌++◌, IfOk, OnOk, IfSome, IfNone, None, Some, string_bytes};
ghost use Rattle.event_list.specs.state.Names.{pod_in};
ghost use Rattle.event_list.specs.rule.Text.{key_of};
ghost use Rattle.event_list.specs.state.Text.{Extends};

use crate::phrases::add;
use manifest::PodSpec;
use pod_piece::PodPiece;
use std::alloc::{AllocError, Global};

/// The names of a node's pods and of their containers, by their numbers.
#[derive(Clone, Copy)]
pub struct Names<'n> {
    pods: &'n [PodPiece],
}

impl<'n> Names<'n> {
    /// The names of these pods.
    pub fn of(pods: &'n [PodPiece]) -> Names<'n>
        ensures { result.pods.now ≡ pods.now }
    {
        Names { pods }
    }

    /// The pod with the number.
    pub(crate) fn pod(self, number: usize) -> Option<&'n PodSpec>
        ensures some { IfSome result (λ pod. pod_in self.entry.pods.now number ≡ Some pod.now) }
        ensures none { IfNone result (pod_in self.entry.pods.now number ≡ None) }
    {
        let piece = self.pods.get(number)?;
        Some(piece.pod())
    }

    /// Appends the key of the pod with the number, as `key` writes it.
    pub(crate) fn add_key(self, text: &mut String, number: usize) -> Result<(), AllocError>
        ensures ok { OnOk result (string_bytes text.new
            ≡ string_bytes text.old ++ key_of (pod_in self.entry.pods.now number)) }
        ensures more { Extends (string_bytes text.old) (string_bytes text.new) }
    {
        let Some(pod) = self.pod(number) else {
            return Ok(());
        };
        add(text, pod.namespace.as_str())?;
        add(text, "/")?;
        add(text, pod.name.as_str())
    }

    /// The key of the pod with the number, `NAMESPACE/NAME`; of a number without a pod it is empty.
    pub fn key(self, alloc: Global, number: usize) -> Result<String, AllocError>
        ensures { IfOk result (λ s. string_bytes s ≡ key_of (pod_in self.entry.pods.now number)) }
    {
        let mut text = String::new(alloc);
        self.add_key(&mut text, number)?;
        Ok(text)
    }
}
