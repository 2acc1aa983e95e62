//! A text that grows by pieces.

use itoa::Buffer;
use std::alloc::{AllocError, Global};

/// A text that grows by pieces.
#[derive(Drop)]
pub(crate) struct Pen {
    text: Vec<u8>,
    digits: Buffer,
}

impl Pen {
    /// Nothing is written, and there is room for this many bytes.
    pub(crate) fn new(alloc: Global, room: usize) -> Result<Pen, AllocError> {
        Ok(Pen {
            text: Vec::with_capacity(alloc, room)?,
            digits: Buffer::new(),
        })
    }

    pub(crate) fn text(&mut self, piece: &str) -> Result<(), AllocError> {
        self.text.extend_from_slice(piece.as_bytes())
    }

    pub(crate) fn number(&mut self, number: u64) -> Result<(), AllocError> {
        self.text
            .extend_from_slice(self.digits.format(number).as_bytes())
    }

    pub(crate) fn into_text(self) -> Vec<u8> {
        let Pen { text, digits: _ } = self;
        text
    }
}
