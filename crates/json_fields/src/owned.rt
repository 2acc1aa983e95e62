//! The values of `serde_json`.

ghost use Rattle.std.specs.Prelude.{◌≡◌};
ghost use Rattle.serde_json.specs.View.{view, members_view};
ghost use Rattle.json_fields.specs.rule.Strangers.{is_stranger, has_stranger};

use crate::value::{HasData, Json, MemberNames};
use serde_json::{Map, Value};

impl HasData for Value {
    ghost use Rattle.serde_json.specs.View.{view};

    ghost data = { view };
}

fn is_stranger<N: MemberNames>(names: &N, name: &str, value: &Value) -> bool
    ensures { result ≡ is_stranger (N.includes names.now) name.now (view value.now) }
{
    !value.is_null() && !names.includes(name)
}

fn has_stranger<N: MemberNames>(names: &N, members: &Map<String, Value>) -> bool
    ensures { result ≡ has_stranger (N.includes names.now) (members_view members.now.entries) }
{
    for (name, value) in members.iter() {
        if is_stranger(names, name.as_str(), value) {
            return true;
        }
    }
    false
}

impl Json for Value {
    fn member<'v>(&'v self, name: &str) -> Option<&'v Value> {
        self.get(name)
    }

    fn is_null(&self) -> bool {
        Value::is_null(self)
    }

    fn text<'v>(&'v self) -> Option<&'v str> {
        self.as_str()
    }

    fn unsigned(&self) -> Option<u64> {
        self.as_u64()
    }

    fn signed(&self) -> Option<i64> {
        self.as_i64()
    }

    fn items<'v>(&'v self) -> Option<&'v [Value]> {
        match self.as_array() {
            Some(list) => Some(list.as_slice()),
            None => None,
        }
    }

    fn is_object(&self) -> bool {
        Value::is_object(self)
    }

    fn has_stranger<N: MemberNames>(&self, names: &N) -> bool {
        match self.as_object() {
            Some(members) => has_stranger(names, members),
            None => false,
        }
    }
}
