//! What a reader and a writer promise.

ghost use Rattle.std.specs.Prelude.{◌≡◌, ℕ, ◌+◌, ◌^◌, ◌<◌, ◌≤◌, List, Option, IfOk, length, is_err, if◌then◌else◌};
ghost use Rattle.std.specs.Io.KnownBytes.{ReadConsumes, WriteAppends};
ghost use Rattle.replay_stream.specs.rule.Stream.{has_stalled};

use crate::fault::{ReadFailed, WriteFailed};

/// A reader that tells contracts its bytes and how many of its calls failed. A failed call moves no
/// byte.
pub trait Source {
    // The bytes that reads will give from here on, where they are known.
    ghost left: { Self → Option (List ℕ) };

    // How many calls failed.
    ghost failures: { Self → ℕ };

    /// Reads some bytes into the front of `buffer`, and answers how many; none only at the end or
    /// without room.
    fn read(&mut self, buffer: &mut [u8]) -> Result<usize, ReadFailed>
        requires { failures self.old < 2 ^ 63 }
        ensures within { IfOk result (λ n. n ≤ length buffer.old) }
        ensures bytes { ReadConsumes (left self.old) (left self.new) result buffer.new }
        ensures counted { failures self.new ≡ failures self.old + (if is_err result then 1 else 0) }
        ensures room { length buffer.new ≡ length buffer.old };
}

/// A writer that tells contracts its bytes and how many of its calls failed. A failed call takes no
/// byte.
pub trait Sink {
    // The bytes that were written so far, where they are known.
    ghost written: { Self → Option (List ℕ) };

    // How many calls failed, one that takes none of some bytes counted with them.
    ghost failures: { Self → ℕ };

    /// Takes some bytes from the front of `bytes`, and answers how many.
    fn write(&mut self, bytes: &[u8]) -> Result<usize, WriteFailed>
        requires { failures self.old < 2 ^ 63 }
        ensures within { IfOk result (λ n. n ≤ length bytes.now) }
        ensures bytes { WriteAppends (written self.old) (written self.new) result bytes.now }
        ensures counted { failures self.new ≡ failures self.old + (if has_stalled result bytes.now then 1 else 0) };
}
