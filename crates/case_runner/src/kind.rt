//! What the texts of a table are.

use crate::manifest_text::{Telling, told};
use crate::texts;
use anyhow::Result;
use std::alloc::Global;

/// What the texts of a table are.
#[derive(Clone, Copy)]
pub(crate) enum Kind {
    Quantity,
    PrintedQuantity,
    Percentage,
    PrintedPercentage,
    Duration,
    Limit,
    Name,
    Manifest,
    Class,
    Steps,
}

impl Kind {
    /// The kind of the table of this name in `texts/`.
    pub(crate) fn of_name(name: &str) -> Option<Kind> {
        match name {
            "quantity" => Some(Kind::Quantity),
            "printed_quantity" => Some(Kind::PrintedQuantity),
            "percentage" => Some(Kind::Percentage),
            "printed_percentage" => Some(Kind::PrintedPercentage),
            "duration" => Some(Kind::Duration),
            "limit" => Some(Kind::Limit),
            "name" => Some(Kind::Name),
            "manifest" => Some(Kind::Manifest),
            "class" => Some(Kind::Class),
            "steps" => Some(Kind::Steps),
            _ => None,
        }
    }

    /// What the text is answered.
    pub(crate) fn answer_of(self, alloc: Global, text: &str) -> Result<String> {
        let bytes = text.as_bytes();
        Ok(match self {
            Kind::Quantity => texts::quantity(alloc, bytes)?,
            Kind::PrintedQuantity => texts::printed_quantity(alloc, bytes)?,
            Kind::Percentage => texts::percentage(alloc, bytes)?,
            Kind::PrintedPercentage => texts::printed_percentage(alloc, bytes)?,
            Kind::Duration => texts::duration(alloc, bytes)?,
            Kind::Limit => texts::limit(alloc, bytes)?,
            Kind::Name => texts::name(alloc, bytes)?,
            Kind::Steps => texts::steps(alloc, text)?,
            Kind::Manifest => return told(alloc, text, Telling::Pod),
            Kind::Class => return told(alloc, text, Telling::Class),
        })
    }
}
