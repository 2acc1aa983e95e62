//! The contents of a tick line except its moment, read from the tape of its tokens: one pass over its members finds its
//! entries and its samples, which are still to be read. If one of these answers none, the line has a fault, or a shape
//! that is left to `tick_line_of`.

ghost use Rattle.std.specs.Prelude.{◌≡◌, List, Some, option_map, Ok, IfOk, IfSome};
ghost use Rattle.json.specs.Token.{Token};
ghost use Rattle.serde_json.specs.Data.{Data};
ghost use Rattle.json_fields.specs.rule.Fields.{present};
ghost use Rattle.json_fields.specs.state.Tape.{data_at, IsNextMember};
ghost use Rattle.tick_lines.specs.rule.Samples.{samples_of};
ghost use Rattle.tick_lines.specs.state.Tape.{denial_in, found_in, LineRead, IsLine, HasSamples};

use crate::samples::samples_of;
use crate::tape::{items_here, scalar_here};
use crate::truth::{TruthMember, denial_of};
use json::Value;
use json_fields::{MemberNames, Scope, TapeItems, TapeValue};
use quantity::Quantity;
use signals::BySignal;
use std::alloc::{AllocError, Global};

/// A tick line, whose entries and samples are still to be read.
#[derive(Drop)]
pub struct LineText<'t, 'a> {
    /// The pods' entries, if the line has some.
    pub entries: Option<TapeItems<'t, 'a>>,
    /// The samples of the node's signals, if the line has some.
    pub signals: Option<TapeValue<'t, 'a>>,
    /// Those after images and dead containers were deleted, if the line has some.
    pub after_reclaim: Option<TapeValue<'t, 'a>>,
    /// Whether it marks the tick as no sync tick. (This project's extended format.)
    pub unjudged: TruthMember,
}

/// The samples of a tick line.
#[derive(Drop)]
pub struct LineSamples {
    /// What the node has left of each resource, as in `TickLine`.
    pub signals: BySignal<Option<Quantity>>,
    /// What it has left after images and dead containers were deleted, as in `TickLine`.
    pub after_reclaim: BySignal<Option<Quantity>>,
}

/// What was read of a tick line's members, the last of each name.
#[derive(Drop)]
struct LineMembers<'t, 'a> {
    entries: Option<TapeItems<'t, 'a>>,
    signals: Option<TapeValue<'t, 'a>>,
    after_reclaim: Option<TapeValue<'t, 'a>>,
    unjudged: TruthMember,
}

/// The content of a member that means something by false; none if it is an array or an object.
fn denial_here(value: &TapeValue<'_, '_>) -> Option<TruthMember>
    ensures { IfSome result (λ said. denial_in (present (Some (data_at value.now))) ≡ Ok said) }
{
    let found = scalar_here(value)?;
    Some(denial_of(found.as_ref()))
}

/// A member that is still to be read, if it is not null.
fn value_here<'t, 'a>(value: TapeValue<'t, 'a>) -> Option<TapeValue<'t, 'a>>
    ensures { found_in (present (Some (data_at value.entry))) ≡ Ok (option_map data_at result) }
{
    if value.is_null() { None } else { Some(value) }
}

/// What was read of a tick line, and of one member more.
fn line_with<'t, 'a>(
    line: LineMembers<'t, 'a>,
    name: &str,
    value: TapeValue<'t, 'a>,
) -> Option<LineMembers<'t, 'a>>
    ensures { (d : Data) (old new : List Token) → IsNextMember name.now value.entry old new
        → LineRead d old line.entry → IfSome result (LineRead d new) }
{
    match name {
        "pods" => Some(LineMembers {
            entries: items_here(&value)?,
            ..line
        }),
        "signals" => Some(LineMembers {
            signals: value_here(value),
            ..line
        }),
        "afterReclaim" => Some(LineMembers {
            after_reclaim: value_here(value),
            ..line
        }),
        "judged" => Some(LineMembers {
            unjudged: denial_here(&value)?,
            ..line
        }),
        _ => Some(line),
    }
}

/// The contents of a tick line except its moment, its entries and its samples.
pub fn line_text<'t, 'a>(value: &TapeValue<'t, 'a>) -> Option<LineText<'t, 'a>>
    ensures { IfSome result (IsLine (data_at value.now)) }
{
    let mut members = value.members()?;
    let mut line = LineMembers {
        entries: None,
        signals: None,
        after_reclaim: None,
        unjudged: TruthMember::No,
    };
    while let Some((field, found)) = members.next() {
        line = line_with(line, field, found)?;
    }
    Some(LineText {
        entries: line.entries,
        signals: line.signals,
        after_reclaim: line.after_reclaim,
        unjudged: line.unjudged,
    })
}

/// Whether an object has members of the scope's names alone. One of another name may be null at its last place, for
/// which the members are looked through: that is left to the other reader, so that it is done once.
fn names_only_signals(scope: Scope, object: &TapeValue<'_, '_>) -> bool {
    let Some(mut members) = object.members() else {
        return true;
    };
    while let Some((name, _)) = members.next() {
        if !scope.includes(name) {
            return false;
        }
    }
    true
}

/// The samples in an object that may be left out.
fn samples_at(
    alloc: Global,
    scope: Scope,
    found: Option<&TapeValue<'_, '_>>,
) -> Result<Option<BySignal<Option<Quantity>>>, AllocError>
    ensures { IfOk result (λ read. IfSome read (λ samples.
        samples_of scope (option_map (λ v. data_at v.now) found.entry) ≡ Ok samples)) }
{
    let Some(value) = found else {
        let none: Option<&Value<'_>> = None;
        return Ok(samples_of(scope, none).ok());
    };
    if !names_only_signals(scope, value) {
        return Ok(None);
    }
    match value.flat(alloc)? {
        Some(object) => Ok(samples_of(scope, Some(&object)).ok()),
        None => Ok(None),
    }
}

/// The samples of a tick line.
pub fn samples_text(
    alloc: Global,
    line: &LineText<'_, '_>,
) -> Result<Option<LineSamples>, AllocError>
    ensures { IfOk result (λ found. IfSome found (HasSamples line.now)) }
{
    let Some(signals) = samples_at(alloc, Scope::Node, line.signals.as_ref())? else {
        return Ok(None);
    };
    let Some(after_reclaim) = samples_at(alloc, Scope::FileSystems, line.after_reclaim.as_ref())?
    else {
        return Ok(None);
    };
    Ok(Some(LineSamples {
        signals,
        after_reclaim,
    }))
}
