//! The signals that a map may name.

ghost use Rattle.std.specs.Prelude.{◌≡◌};
ghost use Rattle.json_fields.specs.rule.SignalMaps.{includes};

use crate::value::MemberNames;
use signals::Signal;

/// The signals that a map may name.
#[derive(Clone, Copy)]
pub enum Scope {
    /// The signals of a whole node, which are all.
    Node,
    /// The signals of the file systems alone.
    FileSystems,
}

fn includes(scope: Scope, signal: Signal) -> bool
    ensures { result ≡ includes scope signal }
{
    match scope {
        Scope::Node => true,
        Scope::FileSystems => signal.is_of_file_system(),
    }
}

impl MemberNames for Scope {
    ghost use Rattle.json_fields.specs.rule.SignalMaps.{may_name};

    ghost includes = { may_name };

    fn includes(&self, name: &str) -> bool {
        match Signal::named(name) {
            None => false,
            Some(signal) => includes(*self, signal),
        }
    }
}
