//! Where a reader or a writer over memory stops.

ghost use Rattle.std.specs.Prelude.{◌≡◌, ◌↔◌, Some, IsTrue};
ghost use Rattle.replay_stream.specs.state.Stop.{one_fewer};

/// How a reader or a writer over memory stops.
#[derive(Clone, Copy, Debug, PartialEq, Eq)]
pub enum Stop {
    /// The call fails, and so does each later one.
    Fail,
    /// The call moves no byte, nor does any later one.
    Nothing,
}

/// Whether the call to come is one that stops. It counts as one of the calls before.
pub fn is_over(calls_left: &mut Option<usize>) -> bool
    ensures over { IsTrue result ↔ (calls_left.old ≡ Some 0) }
    ensures counted { calls_left.new ≡ one_fewer calls_left.old }
{
    match *calls_left {
        None => false,
        Some(0) => true,
        Some(calls) => {
            *calls_left = Some(calls - 1);
            false
        }
    }
}
