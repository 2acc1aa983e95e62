//! A writer over memory.

ghost use Rattle.std.specs.Prelude.{◌≤◌, length};

use crate::fault::WriteFailed;
use crate::stop::{Stop, is_over};
use crate::stream::Sink;

/// Writes into a slice, a set number of bytes a call: fewer where no more are there or fit, and
/// none once it is full.
#[derive(Drop)]
pub struct MemSink<'a> {
    room: &'a mut [u8],
    len: usize,
    step: usize,
    /// How many calls come before those that stop, if any do.
    calls_left: Option<usize>,
    stop: Stop,
    failed: u64,
    ghost within: { len ≤ length room.now },
}

impl<'a> MemSink<'a> {
    ghost use Rattle.std.specs.Prelude.{◌≡◌, [], None, Some, length};
    ghost use Rattle.replay_stream.specs.state.MemSink.{sink_bytes, sink_room, sink_step, sink_failures};
    ghost use Rattle.replay_stream.specs.state.MemSink.{calls_to_stop, sink_stop};

    /// Writes into `room`, `step` bytes a call.
    pub fn new(room: &'a mut [u8], step: usize) -> MemSink<'a>
        ensures written { sink_bytes result ≡ [] }
        ensures room { sink_room result ≡ length room.old }
        ensures step { sink_step result ≡ step }
        ensures calls { calls_to_stop result ≡ None }
        ensures failures { sink_failures result ≡ 0 }
    {
        MemSink {
            room,
            len: 0,
            step,
            calls_left: None,
            stop: Stop::Fail,
            failed: 0,
        }
    }

    /// Writes into `room`, `step` bytes a call, and stops after `calls` calls.
    pub fn stopping(room: &'a mut [u8], step: usize, calls: usize, stop: Stop) -> MemSink<'a>
        ensures written { sink_bytes result ≡ [] }
        ensures room { sink_room result ≡ length room.old }
        ensures step { sink_step result ≡ step }
        ensures calls { calls_to_stop result ≡ Some calls }
        ensures stop { sink_stop result ≡ stop }
        ensures failures { sink_failures result ≡ 0 }
    {
        let mut sink = MemSink::new(room, step);
        sink.calls_left = Some(calls);
        sink.stop = stop;
        sink
    }

    /// What was written so far.
    pub fn written(&self) -> &[u8]
        ensures { result.now ≡ sink_bytes self.now }
    {
        &self.room[..self.len]
    }
}

impl Sink for MemSink<'_> {
    ghost use Rattle.std.specs.Prelude.{◌≡◌, ◌+◌, ◌-◌, ◌^◌, ◌<◌, ◌≤◌, ◌↔◌, Some, IfOk, IsErr};
    ghost use Rattle.std.specs.Prelude.{if◌then◌else◌, length, min, take};
    ghost use Rattle.std.specs.Io.KnownBytes.{WriteAppends};
    ghost use Rattle.replay_stream.specs.state.Stop.{is_stopped, one_fewer};
    ghost use Rattle.replay_stream.specs.rule.Stream.{has_stalled};
    ghost use Rattle.replay_stream.specs.state.MemSink.{sink_bytes, sink_room, sink_step, sink_failures};
    ghost use Rattle.replay_stream.specs.state.MemSink.{calls_to_stop, sink_stop, piece_of};

    ghost written = { λ s. Some (take s.len s.room.now) };

    ghost failures = { λ s. s.failed };

    fn write(&mut self, bytes: &[u8]) -> Result<usize, WriteFailed>
        requires { sink_failures self.old < 2 ^ 63 }
        ensures within { IfOk result (λ n. n ≤ length bytes.now) }
        ensures bytes { WriteAppends (Some (sink_bytes self.old)) (Some (sink_bytes self.new)) result bytes.now }
        ensures counted { sink_failures self.new
            ≡ sink_failures self.old + (if has_stalled result bytes.now then 1 else 0) }

        // It fails only after the calls before, and else moves as many bytes as a call may.
        ensures fails { IsErr result ↔ ((calls_to_stop self.old ≡ Some 0) × (sink_stop self.old ≡ Stop.Fail)) }
        ensures calls { calls_to_stop self.new ≡ one_fewer (calls_to_stop self.old) }
        ensures piece { IfOk result (λ n.
            n ≡ (if is_stopped (calls_to_stop self.old) then 0 else piece_of self.old bytes.now)) }
        ensures step { sink_step self.new ≡ sink_step self.old }
        ensures stop { sink_stop self.new ≡ sink_stop self.old }
        ensures room { sink_room self.new ≡ sink_room self.old }
    {
        let is_over = is_over(&mut self.calls_left);
        if is_over && matches!(self.stop, Stop::Fail) {
            self.failed += 1;
            return Err(WriteFailed);
        }
        let n = if is_over {
            0
        } else {
            self.step.min(bytes.len()).min(self.room.len() - self.len)
        };
        self.room[self.len..self.len + n].copy_from_slice(&bytes[..n]);
        self.len += n;
        if n == 0 && !bytes.is_empty() {
            self.failed += 1;
        }
        Ok(n)
    }
}
