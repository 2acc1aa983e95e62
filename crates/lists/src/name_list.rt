//! Names with their numbers.

ghost use Rattle.std.specs.Prelude.{◌≡◌, ◌++◌, ◌∷◌, [], None, ℕ, List, map, string_bytes, OnOk, OnErr};
ghost use Rattle.lists.specs.rule.Names.{place_of};

use indexmap::IndexSet;
use std::alloc::{AllocError, Global};
use std::marker::Model;

/// Names without repetition, each with its place as its number. Contracts see the list of their
/// bytes.
#[derive(Drop)]
pub struct NameList {
    set: IndexSet<String>,
}

impl Model for NameList {
    ghost Value = { List (List ℕ) };

    ghost view = { λ n. map string_bytes n.set.keys };
}

impl NameList {
    /// A list without names.
    pub fn new(alloc: Global) -> NameList
        ensures { result ≡ [] }
    {
        NameList {
            set: IndexSet::new(alloc),
        }
    }

    /// The number of a name, if it is there.
    pub fn number_of(&self, name: &str) -> Option<usize>
        ensures { result ≡ place_of self.now name.now }
    {
        self.set.get_index_of(name)
    }

    /// Adds a name that isn't there yet, with the next number. An `Err` changes nothing.
    pub fn push(&mut self, name: String) -> Result<(), AllocError>
        requires { place_of self.old (string_bytes name) ≡ None }
        ensures ok { OnOk result (self.new ≡ self.old ++ string_bytes name ∷ []) }
        ensures err { OnErr result (self.new ≡ self.old) }
    {
        self.set.insert(name)?;
        Ok(())
    }
}
