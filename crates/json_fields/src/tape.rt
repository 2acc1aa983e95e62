//! The values of a line on a tape, whose texts are part of the text that was read.

ghost use Rattle.std.specs.Prelude.{◌≡◌, ◌<◌, ◌∷◌, [], length, Some, None, option_map, is_some, MatchOption};
ghost use Rattle.std.specs.Prelude.{◌≤◌, ℕ, List, IfSome, IfOk, IsTrue, OnSome};
ghost use Rattle.json.specs.Json as json;
ghost use Rattle.json.specs.Json.{Json};
ghost use Rattle.json.specs.Find.{BeginsWith, InMembers};
ghost use Rattle.json.specs.Tape.{node_token};
ghost use Rattle.json.specs.Tree.{json_tokens, depth};
ghost use Rattle.json.specs.Value.{value_view};
ghost use Rattle.serde_json.specs.Find.{get, as_null, as_str, as_array, as_object};
ghost use Rattle.serde_json.specs.Read.{max_depth};
ghost use Rattle.json_fields.specs.state.Borrowed.{data_of, is_plain};
ghost use Rattle.json_fields.specs.rule.Fields.{field_at, text_at, items_list};
ghost use Rattle.json_fields.specs.state.Tape.{data_at, items_in, field_behind, room_after, fits};
ghost use Rattle.json_fields.specs.state.Tape.{AreAllPassed, IsNextMember};

use crate::borrowed::whole;
use json::{Element, Items, Members, Node, Tape, Value};
use std::alloc::{AllocError, Allocator};
use std::marker::Model;

/// Arrays and objects nest no deeper in a line that is read, as in `serde_json`.
pub const MAX_DEPTH: usize = 127;

/// How many more arrays and objects may open after the node; none if that is too deep, or a number is not plain.
#[tactic(auto, unfolding(crate::specs::state::Tape::room_after))]
fn room_after(room: usize, node: &Node<'_>) -> Option<usize>
    ensures { result ≡ room_after room (node_token node.now) }
{
    match node {
        Node::Object(_) | Node::Array(_) => room.checked_sub(1),
        Node::EndObject | Node::EndArray => {
            if room < MAX_DEPTH {
                Some(room + 1)
            } else {
                None
            }
        }
        Node::Number(text) => {
            if whole(text).is_some() {
                Some(room)
            } else {
                None
            }
        }
        Node::Key(_) | Node::String(_) | Node::Bool(_) | Node::Null => Some(room),
    }
}

/// Whether each number on the tape is one that digits alone write, below 2^64, and arrays and objects nest no deeper
/// than [`MAX_DEPTH`]. Then `serde_json` reads the same data.
pub fn is_plain_tape(tape: &Tape<'_>) -> bool
    ensures fits { result ≡ fits max_depth tape.now }
    ensures plain { IsTrue result → (j : Json) → tape.now ≡ json_tokens j
        → IsTrue (is_plain j) × (depth j ≤ max_depth) }
{
    let mut room = MAX_DEPTH;
    let nodes = tape.nodes();
    for node in nodes {
        let Some(left) = room_after(room, node) else {
            return false;
        };
        room = left;
    }
    true
}

/// A value on a tape. A clause sees the tokens from its first one on.
#[derive(Drop)]
pub struct TapeValue<'t, 'a> {
    element: Element<'t, 'a>,
}

impl<'t, 'a> Model for TapeValue<'t, 'a> {
    ghost use Rattle.std.specs.Prelude.{List};
    ghost use Rattle.json.specs.Token.{Token, tokens_code};

    ghost Value = { List Token };

    ghost coded = { tokens_code };

    ghost use Rattle.json.specs.Find.{HasValue};

    ghost view = { λ v. v.element };

    ghost invariant = { λ v. HasValue v.element };
}

/// The text, the number, the truth value or the null that this is; none if it is an array or an object.
fn scalar_of<'a, A: Allocator>(element: &Element<'_, 'a>) -> Option<Value<'a, A>>
    ensures { IfSome result (λ v. (j : Json) → BeginsWith element.now j → value_view v ≡ j) }
{
    if let Some(text) = element.as_str() {
        return Some(Value::String(text));
    }
    if let Some(text) = element.as_number() {
        return Some(Value::Number(text));
    }
    if let Some(truth) = element.as_bool() {
        return Some(Value::Bool(truth));
    }
    if element.is_null() {
        return Some(Value::Null);
    }
    None
}

/// An object whose members are these, none of them an array or an object.
fn flat_object<'a, A: Allocator>(
    alloc: A,
    mut members: Members<'_, 'a>,
) -> Result<Option<Value<'a, A>>, AllocError>
    ensures { IfOk result (λ found. IfSome found (λ v. (ms : json.Members) → InMembers members.entry ms
        → value_view v ≡ json.object ms)) }
{
    let mut all = Vec::new(alloc);
    while let Some((name, element)) = members.next() {
        let Some(value) = scalar_of(&element) else {
            return Ok(None);
        };
        all.push((name, value))?;
    }
    Ok(Some(Value::Object(all)))
}

impl<'t, 'a> TapeValue<'t, 'a> {
    /// The value of the whole tape.
    pub fn root(tape: &'t Tape<'a>) -> TapeValue<'t, 'a>
        ensures { result ≡ tape.now }
    {
        TapeValue {
            element: tape.root(),
        }
    }

    /// The member of this name; the last one, where there are several.
    pub fn member(&self, name: &str) -> Option<TapeValue<'t, 'a>>
        ensures { option_map data_at result ≡ get name.now (data_at self.now) }
    {
        match self.element.get(name) {
            Some(element) => Some(TapeValue { element }),
            None => None,
        }
    }

    /// Whether this is null.
    pub fn is_null(&self) -> bool
        ensures { result ≡ is_some (as_null (data_at self.now)) }
    {
        self.element.is_null()
    }

    /// The value of an object's field, where null counts as absent. A value that is no object has no fields.
    pub fn field(&self, name: &str) -> Option<TapeValue<'t, 'a>>
        ensures { option_map data_at result ≡ field_at name.now (data_at self.now) }
    {
        let found = self.member(name)?;
        if found.is_null() { None } else { Some(found) }
    }

    /// Whether this is an object, which may have no members.
    pub fn is_object(&self) -> bool
        ensures { result ≡ is_some (as_object (data_at self.now)) }
    {
        self.element.members().is_some()
    }

    /// The text, where this is one.
    pub fn text(&self) -> Option<&'a str>
        ensures { option_map (λ s. s.now) result ≡ as_str (data_at self.now) }
    {
        self.element.as_str()
    }

    /// The text in an object's field, if there is one.
    pub fn text_at(&self, name: &str) -> Option<&'a str>
        ensures { option_map (λ s. s.now) result ≡ text_at name.now (data_at self.now) }
    {
        self.field(name)?.text()
    }

    /// The members in their order, where this is an object.
    pub fn members(&self) -> Option<TapeMembers<'t, 'a>>
        ensures some { IfSome result (λ left. (name : List ℕ)
            → field_at name (data_at self.now) ≡ field_behind name left None) }
        ensures object { is_some result ≡ is_some (as_object (data_at self.now)) }
    {
        match self.element.members() {
            Some(members) => Some(TapeMembers { members }),
            None => None,
        }
    }

    /// The items in their order, where this is an array.
    pub fn items(&self) -> Option<TapeItems<'t, 'a>>
        ensures { option_map items_in result ≡ option_map items_list (as_array (data_at self.now)) }
    {
        match self.element.items() {
            Some(items) => Some(TapeItems { items }),
            None => None,
        }
    }

    /// The text, the number, the truth value or the null that this is; none if it is an array or an object.
    pub fn scalar<A: Allocator>(&self) -> Option<Value<'a, A>>
        ensures { IfSome result (λ v. data_of (value_view v) ≡ data_at self.now) }
    {
        scalar_of(&self.element)
    }

    /// What an object's field holds, where null counts as absent; none if it is an array or an object.
    pub fn scalar_at<A: Allocator>(&self, name: &str) -> Option<Option<Value<'a, A>>>
        ensures { IfSome result (λ found.
            option_map (λ v. data_of (value_view v)) found ≡ field_at name.now (data_at self.now)) }
    {
        let Some(found) = self.field(name) else {
            return Some(None);
        };
        let value = found.scalar()?;
        Some(Some(value))
    }

    /// An object none of whose members is an array or an object; none where this is anything else.
    pub fn flat<A: Allocator>(&self, alloc: A) -> Result<Option<Value<'a, A>>, AllocError>
        ensures { IfOk result (λ found. IfSome found (λ v. data_of (value_view v) ≡ data_at self.now)) }
    {
        match self.element.members() {
            Some(members) => flat_object(alloc, members),
            None => Ok(None),
        }
    }
}

/// The items of an array that are left. A clause sees the tokens from the next one on.
#[derive(Drop)]
pub struct TapeItems<'t, 'a> {
    items: Items<'t, 'a>,
}

impl<'t, 'a> Model for TapeItems<'t, 'a> {
    ghost use Rattle.std.specs.Prelude.{List};
    ghost use Rattle.json.specs.Token.{Token, tokens_code};

    ghost Value = { List Token };

    ghost coded = { tokens_code };

    ghost use Rattle.json_fields.specs.state.Tape.{HasItems};

    ghost view = { λ v. v.items };

    ghost invariant = { λ v. HasItems v.items };
}

impl<'t, 'a> TapeItems<'t, 'a> {
    /// The next item of the list, if one is left.
    pub fn next(&mut self) -> Option<TapeValue<'t, 'a>>
        ensures value { MatchOption result (items_in self.old ≡ [])
            (λ v. items_in self.old ≡ data_at v ∷ items_in self.new) }
        ensures shorter { OnSome result (length self.new < length self.old) }
    {
        match self.items.next() {
            Some(element) => Some(TapeValue { element }),
            None => None,
        }
    }
}

/// The members of an object that are left. A clause sees the tokens from the next one on.
#[derive(Drop)]
pub struct TapeMembers<'t, 'a> {
    members: Members<'t, 'a>,
}

impl<'t, 'a> Model for TapeMembers<'t, 'a> {
    ghost use Rattle.std.specs.Prelude.{List};
    ghost use Rattle.json.specs.Token.{Token, tokens_code};

    ghost Value = { List Token };

    ghost coded = { tokens_code };

    ghost use Rattle.json_fields.specs.state.Tape.{HasMembers};

    ghost view = { λ v. v.members };

    ghost invariant = { λ v. HasMembers v.members };
}

impl<'t, 'a> TapeMembers<'t, 'a> {
    /// The name and the value of the next member. Where a name comes again, the last one counts.
    pub fn next(&mut self) -> Option<(&'a str, TapeValue<'t, 'a>)>
        ensures value { MatchOption result (AreAllPassed self.old)
            (λ m. IsNextMember m.0.now m.1 self.old self.new) }
        ensures shorter { OnSome result (length self.new < length self.old) }
    {
        match self.members.next() {
            Some((name, element)) => Some((name, TapeValue { element })),
            None => None,
        }
    }
}
