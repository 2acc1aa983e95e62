//! The calls that read a trace and write an answer.

ghost use Rattle.std.specs.Prelude.{◌^◌, ◌<◌};
ghost use Rattle.replay_stream.specs.state.MemSource.{source_failures};

use kubelet_replay::{
    MemSink, MemSource, NoGate, RunFault, Sink, Source, check, replay, replay_play,
};
use std::alloc::AllocGlobal;
use std::process::Abort;
use std::sync::Wait;
use std::thread::Threads;
use trace::{FaultKind, LineFault};

/// A call that reads a trace and writes an answer.
#[derive(Clone, Copy, Debug, PartialEq, Eq)]
pub(crate) enum Call {
    /// A replay by one worker in a thread.
    ByOne,
    /// A replay by three workers in threads.
    ByThree,
    /// A replay on one thread.
    Played,
    /// No replay.
    Checked,
}

pub(crate) const CALLS: [Call; 4] = [Call::ByOne, Call::ByThree, Call::Played, Call::Checked];

/// What is written of a trace.
#[derive(Clone, Copy)]
pub(crate) struct Written {
    /// What a replay writes.
    pub(crate) report: &'static str,
    /// What `check` writes.
    pub(crate) line: &'static str,
}

/// What is written of a text that is refused.
pub(crate) const NOTHING: Written = Written {
    report: "",
    line: "",
};

impl Written {
    /// What this call writes.
    pub(crate) fn by(&self, call: Call) -> &'static [u8] {
        match call {
            Call::Checked => self.line.as_bytes(),
            Call::ByOne | Call::ByThree | Call::Played => self.report.as_bytes(),
        }
    }
}

impl Call {
    /// Makes the call.
    pub(crate) fn make<H: AllocGlobal + Threads + Wait + Sync, R: Source, W: Sink>(
        self,
        rt: &H,
        input: &mut R,
        output: &mut W,
    ) -> Result<(), RunFault>
        requires reads { R.failures input.old < 2 ^ 63 }
        requires writes { W.failures output.old < 2 ^ 63 }
    {
        match self {
            Call::ByOne => replay(rt, input, output, 1, &NoGate),
            Call::ByThree => replay(rt, input, output, 3, &NoGate),
            Call::Played => replay_play(rt.alloc(), input, output, 1, &[]),
            Call::Checked => check(rt.alloc(), input, output),
        }
    }
}

/// Compares an answer, and what was written, with what is wanted.
pub(crate) fn expect_answer(
    rt: &impl Abort,
    call: Call,
    answer: Result<(), RunFault>,
    output: &[u8],
    wanted: Result<(), RunFault>,
    written: &[u8],
) {
    assert_eq!(rt; answer, wanted, "{call:?}");
    assert_eq!(rt; output, written, "{call:?}");
}

/// Makes a call over a reader, and compares the answer and what was written.
pub(crate) fn expect_of<H: Abort + AllocGlobal + Threads + Wait + Sync>(
    rt: &H,
    call: Call,
    input: MemSource<'_>,
    wanted: Result<(), RunFault>,
    written: Written,
)
    requires { source_failures input < 2 ^ 63 }
{
    let mut room = [0u8; 1000];
    let mut input = input;
    let mut output = MemSink::new(&mut room, 100);
    let answer = call.make(rt, &mut input, &mut output);
    let written = written.by(call);
    expect_answer(rt, call, answer, output.written(), wanted, written);
}

/// Hands a text to each call.
pub(crate) fn expect<H: Abort + AllocGlobal + Threads + Wait + Sync>(
    rt: &H,
    text: &[u8],
    wanted: Result<(), RunFault>,
    written: Written,
) {
    for call in CALLS {
        expect_of(rt, call, MemSource::new(text, 4096), wanted, written);
    }
}

pub(crate) fn refused(line: u64, kind: FaultKind) -> Result<(), RunFault> {
    Err(RunFault::Line(LineFault { line, kind }))
}
