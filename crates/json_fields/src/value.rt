//! What a JSON value shows, whichever reader has made it.

/// The names that the members of an object may have.
pub trait MemberNames {
    ghost use Rattle.std.specs.Prelude.{◌≡◌, ℕ, List, Bool};

    /// Whether the name is one of them.
    ghost includes: { Self → List ℕ → Bool };

    /// Whether the name is one of them.
    fn includes(&self, name: &str) -> bool
        ensures { result ≡ includes self.now name.now };
}

/// A value that has JSON data.
pub trait HasData {
    ghost use Rattle.serde_json.specs.Data.{Data};

    ghost data: { Self → Data };

    /// Does nothing: a trait whose promise is a definition has a method all the same.
    fn stands_for_data(&self) {}
}

/// A JSON value of a reader.
pub trait Json: HasData + Sized {
    ghost use Rattle.std.specs.Prelude.{◌≡◌, map, is_some, option_map, option_and_then};
    ghost use Rattle.serde_json.specs.Find.{get, as_null, as_str, as_number, as_u64, as_i64, as_array, as_object};
    ghost use Rattle.json_fields.specs.rule.Fields.{items_list};
    ghost use Rattle.json_fields.specs.state.Strangers.{has_stranger_in};

    /// The member of this name; the last one, where there are several.
    fn member<'v>(&'v self, name: &str) -> Option<&'v Self>
        ensures { option_map (λ v. Self.data v.now) result ≡ get name.now (Self.data self.now) };

    /// Whether this is null.
    fn is_null(&self) -> bool
        ensures { result ≡ is_some (as_null (Self.data self.now)) };

    /// The text, where this is one.
    fn text<'v>(&'v self) -> Option<&'v str>
        ensures { option_map (λ s. s.now) result ≡ as_str (Self.data self.now) };

    /// The number, where this is a whole one from 0 to 2^64 - 1.
    fn unsigned(&self) -> Option<u64>
        ensures { result ≡ option_and_then as_u64 (as_number (Self.data self.now)) };

    /// The number, where this is a whole one from -2^63 to 2^63 - 1.
    fn signed(&self) -> Option<i64>
        ensures { result ≡ option_and_then as_i64 (as_number (Self.data self.now)) };

    /// The items in their order, where this is an array.
    fn items<'v>(&'v self) -> Option<&'v [Self]>
        ensures { option_map (λ v. map Self.data v.now) result
            ≡ option_map items_list (as_array (Self.data self.now)) };

    /// Whether this is an object, which may have no members.
    fn is_object(&self) -> bool
        ensures { result ≡ is_some (as_object (Self.data self.now)) };

    /// Whether an object has a member other than null under none of these names.
    fn has_stranger<N: MemberNames>(&self, names: &N) -> bool
        ensures { result ≡ has_stranger_in (N.includes names.now) (as_object (Self.data self.now)) };
}
