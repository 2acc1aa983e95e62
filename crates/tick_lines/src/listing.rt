//! The listings of an entry, as they are written.

ghost use Rattle.std.specs.Prelude.{◌≡◌, option_map};
ghost use Rattle.json_fields.specs.state.Reading.{GivesExactly, GivesUnless, checked};
ghost use Rattle.tick_lines.specs.state.Memory.{is_memory};
ghost use Rattle.tick_lines.specs.rule.Listings.{attempt_of, state_named, state_numbered, state_of, code_of};
ghost use Rattle.tick_lines.specs.rule.Listings.{instance_of, listing_of};

use crate::fault::TickLineFault;
use crate::fields::{text_of, written_text};
use crate::items::ReadItem;
use crate::value::TickValue;
use json_fields::{Json, field, text_at};
use manifest::Text;
use state_diff::CriState;
use std::alloc::Global;

/// What a listing shows of an instance.
#[derive(Clone, Copy)]
pub struct ListedInstance {
    /// Which instance of the container it is, below 2^31: the attempt of its `ContainerMetadata`.
    /// (Container Runtime Interface, CRI v1.)
    pub attempt: u32,
    /// Its state.
    pub state: CriState,
    /// The exit code of the field, if it has one. In another state than exited nobody looks at it.
    pub code: Option<i32>,
}

/// A container's listing.
#[derive(Drop)]
pub struct Listing {
    /// The container's name.
    pub name: Text,
    /// The instance that is listed.
    pub instance: ListedInstance,
}

pub(crate) fn attempt_of<V: Json>(found: Option<&V>) -> Result<u32, TickLineFault>
    ensures { GivesExactly (λ n. n) result (attempt_of (option_map (λ v. V.data v.now) found.entry)) }
{
    let Some(value) = found else {
        return Ok(0);
    };
    match value.unsigned() {
        Some(attempt) if attempt < 1 << 31 => Ok(attempt as u32),
        _ => Err(TickLineFault::Usage),
    }
}

fn state_named(name: &str) -> Result<CriState, TickLineFault>
    ensures { GivesExactly (λ s. s) result (state_named name.now) }
{
    match name {
        "CONTAINER_CREATED" => Ok(CriState::Created),
        "CONTAINER_RUNNING" => Ok(CriState::Running),
        "CONTAINER_EXITED" => Ok(CriState::Exited),
        "CONTAINER_UNKNOWN" => Ok(CriState::Unknown),
        _ => Err(TickLineFault::Usage),
    }
}

fn state_numbered(number: Option<u64>) -> Result<CriState, TickLineFault>
    ensures { GivesExactly (λ s. s) result (state_numbered number) }
{
    match number {
        Some(0) => Ok(CriState::Created),
        Some(1) => Ok(CriState::Running),
        Some(2) => Ok(CriState::Exited),
        Some(3) => Ok(CriState::Unknown),
        _ => Err(TickLineFault::Usage),
    }
}

pub(crate) fn state_of<V: Json>(found: Option<&V>) -> Result<CriState, TickLineFault>
    ensures { GivesExactly (λ s. s) result (state_of (option_map (λ v. V.data v.now) found.entry)) }
{
    let Some(value) = found else {
        return Err(TickLineFault::Usage);
    };
    match value.text() {
        Some(name) => state_named(name),
        None => state_numbered(value.unsigned()),
    }
}

pub(crate) fn code_of<V: Json>(found: Option<&V>) -> Option<i32>
    ensures { result ≡ code_of (option_map (λ v. V.data v.now) found.entry) }
{
    i32::try_from(found?.signed()?).ok()
}

#[tactic(auto, unfolding(crate::specs::rule::Listings::instance_of))]
fn instance_of<V: Json>(value: &V) -> Result<ListedInstance, TickLineFault>
    ensures { GivesExactly (λ i. i) result (instance_of (V.data value.now)) }
{
    Ok(ListedInstance {
        attempt: attempt_of(field(value, "attempt"))?,
        state: state_of(field(value, "state"))?,
        code: code_of(field(value, "exitCode")),
    })
}

#[tactic(auto, unfolding(crate::specs::rule::Listings::listing_of))]
fn listing_of<V: Json>(alloc: Global, value: &V) -> Result<Listing, TickLineFault>
    ensures { GivesUnless is_memory (λ l. l) result (listing_of (V.data value.now)) }
{
    Ok(Listing {
        name: text_of(alloc, text_at(value, "name"))?,
        instance: instance_of(value)?,
    })
}

/// Whether a listing can be read, or its fault.
#[tactic(auto, unfolding(crate::specs::rule::Listings::listing_of))]
fn check_listing<V: Json>(value: &V) -> Result<(), TickLineFault>
    ensures { result ≡ checked (listing_of (V.data value.now)) }
{
    written_text(text_at(value, "name"))?;
    instance_of(value)?;
    Ok(())
}

impl ReadItem for Listing {
    ghost read_of = { listing_of };

    fn read<V: TickValue>(alloc: Global, item: &V) -> Result<Listing, TickLineFault> {
        listing_of(alloc, item)
    }

    fn check<V: TickValue>(item: &V) -> Result<(), TickLineFault> {
        check_listing(item)
    }
}
