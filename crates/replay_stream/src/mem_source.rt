//! A reader over memory.

ghost use Rattle.std.specs.Prelude.{◌≡◌, ◌*◌, ◌<◌, take};

use crate::fault::ReadFailed;
use crate::stop::{Stop, is_over};
use crate::stream::Source;

/// Reads a slice, a set number of bytes a call: fewer at the end, and where the buffer is smaller.
#[derive(Drop)]
pub struct MemSource<'a> {
    bytes: &'a [u8],
    step: usize,
    /// How many calls come before those that fail, if any do.
    calls_left: Option<usize>,
    failed: u64,
    ghost steps: { 0 < step },
}

impl<'a> MemSource<'a> {
    ghost use Rattle.std.specs.Prelude.{◌≡◌, ◌*◌, ◌<◌, None};
    ghost use Rattle.replay_stream.specs.state.Stop.{bytes_before, failing_after};
    ghost use Rattle.replay_stream.specs.state.MemSource.{source_bytes, source_step, source_failures};
    ghost use Rattle.replay_stream.specs.state.MemSource.{calls_to_failure};

    /// Reads all of `bytes`, `step` bytes a call.
    pub fn new(bytes: &'a [u8], step: usize) -> MemSource<'a>
        requires { 0 < step }
        ensures left { source_bytes result ≡ bytes.now }
        ensures step { source_step result ≡ step }
        ensures calls { calls_to_failure result ≡ None }
        ensures failures { source_failures result ≡ 0 }
    {
        MemSource {
            bytes,
            step,
            calls_left: None,
            failed: 0,
        }
    }

    /// Reads `bytes`, `step` bytes a call, and stops after `calls` calls.
    ///
    /// With `Stop::Nothing` that is the end of the input: only the bytes of `calls` full calls are
    /// there.
    pub fn stopping(bytes: &'a [u8], step: usize, calls: usize, stop: Stop) -> MemSource<'a>
        requires { 0 < step }
        ensures left { source_bytes result ≡ bytes_before stop (calls * step) bytes.now }
        ensures step { source_step result ≡ step }
        ensures calls { calls_to_failure result ≡ failing_after stop calls }
        ensures failures { source_failures result ≡ 0 }
    {
        match stop {
            Stop::Fail => {
                let mut source = MemSource::new(bytes, step);
                source.calls_left = Some(calls);
                source
            }
            Stop::Nothing => MemSource::new(front_of(bytes, step, calls), step),
        }
    }
}

/// The bytes of this many calls.
fn front_of(bytes: &[u8], step: usize, calls: usize) -> &[u8]
    ensures { result.now ≡ take (calls * step) bytes.now }
{
    let end = calls.saturating_mul(step).min(bytes.len());
    &bytes[..end]
}

impl Source for MemSource<'_> {
    ghost use Rattle.std.specs.Prelude.{◌≡◌, ◌+◌, ◌^◌, ◌<◌, ◌≤◌, ◌↔◌, Some, IfOk, IsErr};
    ghost use Rattle.std.specs.Prelude.{is_err, if◌then◌else◌, length, min};
    ghost use Rattle.std.specs.Io.KnownBytes.{ReadConsumes};
    ghost use Rattle.replay_stream.specs.state.Stop.{one_fewer};
    ghost use Rattle.replay_stream.specs.state.MemSource.{source_bytes, source_step, source_failures};
    ghost use Rattle.replay_stream.specs.state.MemSource.{calls_to_failure};

    ghost left = { λ s. Some s.bytes.now };

    ghost failures = { λ s. s.failed };

    fn read(&mut self, buffer: &mut [u8]) -> Result<usize, ReadFailed>
        requires { source_failures self.old < 2 ^ 63 }
        ensures within { IfOk result (λ n. n ≤ length buffer.old) }
        ensures bytes { ReadConsumes (Some (source_bytes self.old)) (Some (source_bytes self.new)) result buffer.new }
        ensures counted { source_failures self.new ≡ source_failures self.old + (if is_err result then 1 else 0) }
        ensures room { length buffer.new ≡ length buffer.old }

        // It fails exactly after the calls before, and else moves as many bytes as a call may.
        ensures fails { IsErr result ↔ (calls_to_failure self.old ≡ Some 0) }
        ensures calls { calls_to_failure self.new ≡ one_fewer (calls_to_failure self.old) }
        ensures piece { IfOk result (λ n.
            n ≡ min (min (source_step self.old) (length (source_bytes self.old))) (length buffer.old)) }
        ensures step { source_step self.new ≡ source_step self.old }
    {
        if is_over(&mut self.calls_left) {
            self.failed += 1;
            return Err(ReadFailed);
        }
        let n = self.step.min(self.bytes.len()).min(buffer.len());
        let (front, rest) = self.bytes.split_at(n);
        buffer[..n].copy_from_slice(front);
        self.bytes = rest;
        Ok(n)
    }
}
