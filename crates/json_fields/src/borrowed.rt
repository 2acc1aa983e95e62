//! The values of `json`, whose texts are part of the text that was read.

ghost use Rattle.std.specs.Prelude.{◌≡◌, ◌&&◌, not};
ghost use Rattle.json.specs.Value.{value_view, items_view, members_view};
ghost use Rattle.json_fields.specs.state.Borrowed.{data_of, is_plain, items_are_plain, members_are_plain, whole};
ghost use Rattle.json_fields.specs.state.Borrowed.{has_name, has_last_stranger};
ghost use Rattle.json_fields.specs.rule.Strangers.{is_stranger};

use crate::value::{HasData, Json, MemberNames};
use fast_float::Numeral;
use json::Value;
use std::alloc::Allocator;

impl<'a, A: Allocator> HasData for Value<'a, A> {
    ghost use Rattle.json.specs.Value.{value_view};
    ghost use Rattle.json_fields.specs.state.Borrowed.{data_of};

    ghost data = { λ v. data_of (value_view v) };
}

/// The whole number that the digits write, where the text is digits alone and it is below 2^64.
pub(crate) fn whole(text: &str) -> Option<u64>
    ensures { result ≡ whole text.now }
{
    let bytes = text.as_bytes();
    if bytes.first() == Some(&b'-') {
        return None;
    }
    Numeral::scan(bytes).to_u64()
}

/// Whether each number in the value is one that digits alone write, below 2^64. Then `serde_json` reads the same data.
pub fn is_plain(value: &Value<'_>) -> bool
    ensures { result ≡ is_plain (value_view value.now) }
{
    is_plain_in(value)
}

/// Whether each number in the value is one that digits alone write, below 2^64, whatever allocator its memory is of.
#[cycle(is_plain)]
pub fn is_plain_in<A: Allocator>(value: &Value<'_, A>) -> bool
    ensures { result ≡ is_plain (value_view value.now) }
{
    match value {
        Value::Null | Value::Bool(_) | Value::String(_) => true,
        Value::Number(text) => whole(text).is_some(),
        Value::Array(items) => items_are_plain(items),
        Value::Object(members) => members_are_plain(members),
    }
}

#[cycle(is_plain)]
fn items_are_plain<A: Allocator>(items: &Vec<Value<'_, A>, A>) -> bool
    ensures { result ≡ items_are_plain (items_view items.now.items) }
{
    for item in items {
        if !is_plain_in(item) {
            return false;
        }
    }
    true
}

#[cycle(is_plain)]
fn members_are_plain<A: Allocator>(members: &Vec<(&str, Value<'_, A>), A>) -> bool
    ensures { result ≡ members_are_plain (members_view members.now.items) }
{
    for member in members {
        if !is_plain_in(&member.1) {
            return false;
        }
    }
    true
}

impl<'a, A: Allocator> Json for Value<'a, A> {
    #[tactic(auto, using(crate::proofs::Plain::get_data))]
    fn member<'v>(&'v self, name: &str) -> Option<&'v Value<'a, A>> {
        self.get(name)
    }

    fn is_null(&self) -> bool {
        Value::is_null(self)
    }

    fn text<'v>(&'v self) -> Option<&'v str> {
        self.as_str()
    }

    fn unsigned(&self) -> Option<u64> {
        whole(self.as_number()?)
    }

    fn signed(&self) -> Option<i64> {
        i64::try_from(whole(self.as_number()?)?).ok()
    }

    fn items<'v>(&'v self) -> Option<&'v [Value<'a, A>]> {
        match self {
            Value::Array(items) => Some(items.as_slice()),
            _ => None,
        }
    }

    fn is_object(&self) -> bool {
        matches!(self, Value::Object(_))
    }

    fn has_stranger<N: MemberNames>(&self, names: &N) -> bool {
        match self {
            Value::Object(members) => has_last_stranger(names, members),
            _ => false,
        }
    }
}

/// Whether the members have one of this name.
fn has_name<A: Allocator>(members: &[(&str, Value<'_, A>)], name: &str) -> bool
    ensures { result ≡ has_name name.now (members_view members.now) }
{
    for member in members {
        if member.0 == name {
            return true;
        }
    }
    false
}

/// Whether the member is other than null, under none of these names, and none of its own name is among those after it.
fn is_last_stranger<N: MemberNames, A: Allocator>(
    names: &N,
    name: &str,
    value: &Value<'_, A>,
    others: &[(&str, Value<'_, A>)],
) -> bool
    ensures { result ≡ is_stranger (N.includes names.now) name.now (data_of (value_view value.now))
        && not (has_name name.now (members_view others.now)) }
{
    !value.is_null() && !names.includes(name) && !has_name(others, name)
}

/// Whether the last member of some name is other than null, and the name none of these.
fn has_last_stranger<N: MemberNames, A: Allocator>(
    names: &N,
    members: &[(&str, Value<'_, A>)],
) -> bool
    ensures { result ≡ has_last_stranger (N.includes names.now) (members_view members.now) }
{
    let mut rest = members;
    while let [(name, value), others @ ..] = rest {
        if is_last_stranger(names, name, value, others) {
            return true;
        }
        rest = others;
    }
    false
}
