//! The JSON values that a tick line is read from.

use crate::conditions::{ConditionStatuses, borrowed_names_in, borrowed_statuses_in, statuses_in};
use crate::resizes::names_of;
use json::Value as BorrowedValue;
use json_fields::Json;
use serde_json::Value;
use std::alloc::{AllocError, Allocator, Global};

/// A JSON value that also shows its truth value, the statuses that it has, and the names of its members.
pub trait TickValue: Json {
    ghost use Rattle.std.specs.Prelude.{◌≡◌, map, IfOk, string_bytes};
    ghost use Rattle.serde_json.specs.Find.{as_bool, as_object};
    ghost use Rattle.tick_lines.specs.rule.Resizes.{names_from};
    ghost use Rattle.tick_lines.specs.state.Conditions.{if_statuses};

    /// Whether this is true or false, if it is one of these.
    fn truth(&self) -> Option<bool>
        ensures { result ≡ as_bool (Self.data self.now) };

    /// The statuses that this gives, if it is an object of true, false and null.
    fn statuses(&self, alloc: Global) -> Result<Option<ConditionStatuses>, AllocError>
        ensures { IfOk result (λ found. found ≡ if_statuses (Self.data self.now)) };

    /// The names of this object's members; none if it is no object.
    fn names(&self, alloc: Global) -> Result<Vec<String>, AllocError>
        ensures { IfOk result (λ names. map string_bytes names.items ≡ names_from (as_object (Self.data self.now))) };
}

impl TickValue for Value {
    fn truth(&self) -> Option<bool> {
        self.as_bool()
    }

    fn statuses(&self, alloc: Global) -> Result<Option<ConditionStatuses>, AllocError> {
        statuses_in(alloc, self)
    }

    fn names(&self, alloc: Global) -> Result<Vec<String>, AllocError> {
        match self.as_object() {
            Some(members) => names_of(alloc, members),
            None => Ok(Vec::new(alloc)),
        }
    }
}

impl<'a, A: Allocator> TickValue for BorrowedValue<'a, A> {
    fn truth(&self) -> Option<bool> {
        self.as_bool()
    }

    fn statuses(&self, alloc: Global) -> Result<Option<ConditionStatuses>, AllocError> {
        borrowed_statuses_in(alloc, self)
    }

    fn names(&self, alloc: Global) -> Result<Vec<String>, AllocError> {
        borrowed_names_in(alloc, self)
    }
}
