//! The fields of an object, where null counts as absent.

ghost use Rattle.std.specs.Prelude.{◌≡◌, option_map};
ghost use Rattle.json_fields.specs.rule.Fields.{field_at, text_at};

use crate::value::Json;

/// The value of an object's field, where null counts as absent. A value that is no object has no
/// fields.
pub fn field<'v, V: Json>(object: &'v V, name: &str) -> Option<&'v V>
    ensures { option_map (λ v. V.data v.now) result ≡ field_at name.now (V.data object.now) }
{
    let found = object.member(name)?;
    if found.is_null() { None } else { Some(found) }
}

/// The text in an object's field, if there is one.
pub fn text_at<'v, V: Json>(object: &'v V, name: &str) -> Option<&'v str>
    ensures { option_map (λ s. s.now) result ≡ text_at name.now (V.data object.now) }
{
    field(object, name)?.text()
}
