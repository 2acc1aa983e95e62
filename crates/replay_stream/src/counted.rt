//! A reader or a writer of std, with the number of its failed calls.

ghost use Rattle.std.specs.Prelude.{◌≡◌, ◌+◌, ◌^◌, ◌<◌, IsErr, MatchResult, is_err, if◌then◌else◌};
ghost use Rattle.replay_stream.specs.rule.Stream.{has_stalled};

use crate::fault::{ReadFailed, WriteFailed};
use crate::stream::{Sink, Source};
use std::io::{self, Read, Write};

/// Makes a [`Source`] of std's `Read`, and a [`Sink`] of std's `Write`.
///
/// An error of any kind, `Interrupted` too, is a failed call. Of the bytes contracts know what the
/// inner reader or writer tells, which is nothing for files and terminals.
#[derive(Drop)]
pub struct Counted<T: Drop> {
    inner: T,
    failed: u64,
}

impl<T: Drop> Counted<T> {
    ghost use Rattle.replay_stream.specs.state.Counted.{failed_calls, inner_of};

    /// No call was made yet.
    pub fn new(inner: T) -> Counted<T>
        ensures inner { inner_of result ≡ inner }
        ensures failures { failed_calls result ≡ 0 }
    {
        Counted { inner, failed: 0 }
    }

    /// The reader or the writer, as the calls left it.
    pub fn into_inner(self) -> T
        ensures { result ≡ inner_of self }
    {
        let Counted { inner, failed: _ } = self;
        inner
    }
}

/// What a read answers and how many calls failed, by what the reader answered.
fn read_answered(answer: io::Result<usize>, failed: u64) -> (Result<usize, ReadFailed>, u64)
    requires { failed < 2 ^ 63 }
    ensures answer { MatchResult answer (λ n. result.0 ≡ Ok n) (λ _. IsErr result.0) }
    ensures counted { result.1 ≡ failed + (if is_err answer then 1 else 0) }
{
    match answer {
        Ok(n) => (Ok(n), failed),
        Err(_) => (Err(ReadFailed), failed + 1),
    }
}

/// What a write of these bytes answers and how many calls failed, by what the writer answered.
fn write_answered(
    answer: io::Result<usize>,
    bytes: &[u8],
    failed: u64,
) -> (Result<usize, WriteFailed>, u64)
    requires { failed < 2 ^ 63 }
    ensures answer { MatchResult answer (λ n. result.0 ≡ Ok n) (λ _. IsErr result.0) }
    ensures counted { result.1 ≡ failed + (if has_stalled answer bytes.now then 1 else 0) }
{
    match answer {
        Ok(0) if !bytes.is_empty() => (Ok(0), failed + 1),
        Ok(n) => (Ok(n), failed),
        Err(_) => (Err(WriteFailed), failed + 1),
    }
}

impl<R: Read + Drop> Source for Counted<R> {
    ghost left = { λ s. R.remaining s.inner };

    ghost failures = { λ s. s.failed };

    fn read(&mut self, buffer: &mut [u8]) -> Result<usize, ReadFailed> {
        let (answer, failed) = read_answered(self.inner.read(buffer), self.failed);
        self.failed = failed;
        answer
    }
}

impl<W: Write + Drop> Sink for Counted<W> {
    ghost written = { λ s. W.contents s.inner };

    ghost failures = { λ s. s.failed };

    fn write(&mut self, bytes: &[u8]) -> Result<usize, WriteFailed> {
        let (answer, failed) = write_answered(self.inner.write(bytes), bytes, self.failed);
        self.failed = failed;
        answer
    }
}
