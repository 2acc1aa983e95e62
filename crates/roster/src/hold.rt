//! Which pod has a key.

ghost use Rattle.std.specs.Prelude.{◌≡◌, length, Some, None, IsTrue, IsFalse, OnOk, string_bytes};
ghost use Rattle.lists.specs.rule.Names.{place_of};
ghost use Rattle.roster.specs.state.Holders.{holder_of, HasHeld};

use lists::NameList;
use std::alloc::AllocError;

/// The number of the pod that has the key, if one is present.
pub(crate) fn holder_of(keys: &NameList, holders: &[Option<usize>], key: &str) -> Option<usize>
    ensures { result ≡ holder_of keys.now holders.now key.now }
{
    let place = keys.number_of(key)?;
    let holder = holders.get(place)?;
    *holder
}

/// Sets which pod has a key that was mentioned before. Returns whether it was. Doesn't allocate.
fn set(keys: &NameList, holders: &mut Vec<Option<usize>>, key: &str, pod: Option<usize>) -> bool
    requires { length holders.old.items ≡ length keys.now }
    ensures set { IsTrue result → HasHeld keys.now holders.old.items key.now pod keys.now holders.new.items }
    ensures new { IsFalse result → place_of keys.now key.now ≡ None }
    ensures same { IsFalse result → holders.new.items ≡ holders.old.items }
{
    match keys.number_of(key) {
        Some(place) => {
            holders[place] = pod;
            true
        }
        None => false,
    }
}

/// No pod has the key any more. Doesn't allocate.
pub(crate) fn release(keys: &NameList, holders: &mut Vec<Option<usize>>, key: &str)
    requires { length holders.old.items ≡ length keys.now }
    ensures { HasHeld keys.now holders.old.items key.now None keys.now holders.new.items }
{
    let _was_mentioned = set(keys, holders, key, None);
}

/// The key is of the pod with the number.
pub(crate) fn hold(
    keys: &mut NameList,
    holders: &mut Vec<Option<usize>>,
    key: String,
    number: usize,
) -> Result<(), AllocError>
    requires { length holders.old.items ≡ length keys.old }
    ensures { OnOk result
        (HasHeld keys.old holders.old.items (string_bytes key) (Some number) keys.new holders.new.items) }
{
    if !set(keys, holders, key.as_str(), Some(number)) {
        keys.push(key)?;
        holders.push(Some(number))?;
    }
    Ok(())
}
