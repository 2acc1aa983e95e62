//! Replays of texts that are cut, over readers and writers that stop, and refusals that no text
//! reaches.

use crate::calls::{CALLS, Call, NOTHING, Written, expect, expect_answer, expect_of, refused};
use crate::halting::{Front, Halting, Sheet};
use kubelet_replay::{Counted, MemSink, MemSource, RunFault, Stop, fault_line, status_of};
use manifest_reader::ManifestFault;
use std::alloc::AllocGlobal;
use std::io::ErrorKind;
use std::process::Abort;
use std::sync::Wait;
use std::test::Fail;
use std::thread::Threads;
use trace::{FaultKind, LineFault};

/// A pod that runs from its first tick on.
const FIRST_TICK: &str = r#"{"kind":"node","name":"n1"}
{"kind":"pod","pod":{"metadata":{"name":"a"},"spec":{"containers":[{"name":"c"}]}}}
{"kind":"tick","at":100,"pods":[{"pod":"default/a","containers":[{"name":"c","attempt":0,"state":1}]}]}
"#;

/// The report of `FIRST_TICK`.
const FIRST_REPORT: &str = "node n1 pods=1 ticks=1
event 100 default/a c started 0
event 100 default/a c ready
event 100 default/a - phase Running
pod 0 default/a phase=Running reason=- qos=BestEffort
condition 0 PodScheduled True 100
condition 0 Initialized True 100
condition 0 ContainersReady True 100
condition 0 Ready True 100
container 0 c state=Running code=- restarts=0 ready=true started=true
nodecondition MemoryPressure False 100
nodecondition DiskPressure False 100
nodecondition PIDPressure False 100
totals updates=1 events=3 orders=0
";

/// The report of its node line alone.
const NODE_REPORT: &str = "node n1 pods=0 ticks=0
nodecondition MemoryPressure False 0
nodecondition DiskPressure False 0
nodecondition PIDPressure False 0
totals updates=0 events=0 orders=0
";

/// The report of its pod before any tick.
const PENDING_REPORT: &str = "node n1 pods=1 ticks=0
pod 0 default/a phase=Pending reason=- qos=BestEffort
condition 0 PodScheduled True 0
condition 0 Initialized True 0
condition 0 ContainersReady False 0
condition 0 Ready False 0
container 0 c state=Waiting code=- restarts=0 ready=false started=false
nodecondition MemoryPressure False 0
nodecondition DiskPressure False 0
nodecondition PIDPressure False 0
totals updates=0 events=0 orders=0
";

const FIRST: Written = Written {
    report: FIRST_REPORT,
    line: "ok pods=1 ticks=1\n",
};

const NODE_ALONE: Written = Written {
    report: NODE_REPORT,
    line: "ok pods=0 ticks=0\n",
};

const PENDING: Written = Written {
    report: PENDING_REPORT,
    line: "ok pods=1 ticks=0\n",
};

/// What is answered to this many bytes of the beginning of `FIRST_TICK`.
fn answer_to_first(bytes: usize) -> (Result<(), RunFault>, Written) {
    match bytes {
        0 => (refused(1, FaultKind::Order), NOTHING),
        1..=26 => (refused(1, FaultKind::NotJson), NOTHING),
        27 | 28 => (Ok(()), NODE_ALONE),
        29..=110 => (refused(2, FaultKind::NotJson), NOTHING),
        111 | 112 => (Ok(()), PENDING),
        113..=214 => (refused(3, FaultKind::NotJson), NOTHING),
        _ => (Ok(()), FIRST),
    }
}

#[test]
fn each_beginning_of_a_text_is_answered(rt: HostRuntime) {
    let bytes = FIRST_TICK.as_bytes();
    assert_eq!(rt; bytes.len(), 216);
    for end in 0..bytes.len() {
        let (wanted, written) = answer_to_first(end);
        expect(&rt, &bytes[..end], wanted, written);
    }
}

#[test]
fn readers_may_give_a_byte_a_call(rt: HostRuntime) {
    for call in CALLS {
        let input = MemSource::new(FIRST_TICK.as_bytes(), 1);
        expect_of(&rt, call, input, Ok(()), FIRST);
    }
}

#[test]
fn failing_readers_leave_nothing_written(rt: HostRuntime) {
    let bytes = FIRST_TICK.as_bytes();
    // a byte a call, and one call that finds the end
    for calls in 0..=bytes.len() {
        for call in CALLS {
            let input = MemSource::stopping(bytes, 1, calls, Stop::Fail);
            expect_of(&rt, call, input, Err(RunFault::Read), NOTHING);
        }
    }
}

#[test]
fn readers_that_end_early_give_a_shorter_text(rt: HostRuntime) {
    let bytes = FIRST_TICK.as_bytes();
    for calls in 0..bytes.len() {
        let (wanted, written) = answer_to_first(calls);
        for call in CALLS {
            let input = MemSource::stopping(bytes, 1, calls, Stop::Nothing);
            expect_of(&rt, call, input, wanted, written);
        }
    }
}

/// A call over a reader of std that gives ten bytes a call, and halts once, after this many calls.
fn expect_halted_reader<H: Abort + AllocGlobal + Threads + Wait + Sync>(
    rt: &H,
    call: Call,
    calls: usize,
    fault: Option<ErrorKind>,
) {
    let (wanted, written) = match fault {
        Some(_) => (Err(RunFault::Read), NOTHING),
        None => answer_to_first(calls.saturating_mul(10)),
    };
    let left = FIRST_TICK.as_bytes();
    let mut room = [0u8; 1000];
    let mut input = Counted::new(Halting::new(Front { left }, 10, calls, fault));
    let mut output = MemSink::new(&mut room, 100);
    let answer = call.make(rt, &mut input, &mut output);
    let written = written.by(call);
    expect_answer(rt, call, answer, output.written(), wanted, written);
}

#[test]
fn readers_of_std_may_halt_once(rt: HostRuntime) {
    // 22 calls give the text, and one more finds its end
    for calls in 0..23usize {
        for call in CALLS {
            expect_halted_reader(&rt, call, calls, Some(ErrorKind::Interrupted));
            expect_halted_reader(&rt, call, calls, Some(ErrorKind::BrokenPipe));
            expect_halted_reader(&rt, call, calls, None);
        }
    }
}

/// A call over a writer that takes ten bytes a call, and stops after this many calls.
fn expect_stopped_writer<H: Abort + AllocGlobal + Threads + Wait + Sync>(
    rt: &H,
    call: Call,
    calls: usize,
    stop: Stop,
) {
    let mut room = [0u8; 1000];
    let mut input = MemSource::new(FIRST_TICK.as_bytes(), 4096);
    let mut output = MemSink::stopping(&mut room, 10, calls, stop);
    let answer = call.make(rt, &mut input, &mut output);
    let (wanted, front) = (Err(RunFault::Write), front_of(FIRST.by(call), calls));
    expect_answer(rt, call, answer, output.written(), wanted, front);
}

/// What a writer takes of a text in this many calls of ten bytes.
fn front_of(text: &[u8], calls: usize) -> &[u8] {
    &text[..calls.saturating_mul(10).min(text.len())]
}

#[test]
fn failing_writers_keep_the_beginning_of_the_answer(rt: HostRuntime) {
    for call in CALLS {
        for calls in 0..FIRST.by(call).len().div_ceil(10) {
            expect_stopped_writer(&rt, call, calls, Stop::Fail);
            expect_stopped_writer(&rt, call, calls, Stop::Nothing);
        }
    }
}

/// A call over a writer of std that takes ten bytes a call, and halts once, after this many calls.
fn expect_halted_writer<H: Abort + AllocGlobal + Threads + Wait + Sync>(
    rt: &H,
    call: Call,
    calls: usize,
    fault: Option<ErrorKind>,
) {
    let sheet = Sheet {
        bytes: Vec::new(rt.alloc()),
    };
    let mut input = MemSource::new(FIRST_TICK.as_bytes(), 4096);
    let mut output = Counted::new(Halting::new(sheet, 10, calls, fault));
    let answer = call.make(rt, &mut input, &mut output);
    let halted = output.into_inner();
    let (wanted, front) = (Err(RunFault::Write), front_of(FIRST.by(call), calls));
    expect_answer(
        rt,
        call,
        answer,
        halted.inner.bytes.as_slice(),
        wanted,
        front,
    );
}

#[test]
fn writers_of_std_may_halt_once(rt: HostRuntime) {
    for call in CALLS {
        for calls in 0..FIRST.by(call).len().div_ceil(10) {
            expect_halted_writer(&rt, call, calls, Some(ErrorKind::Interrupted));
            expect_halted_writer(&rt, call, calls, Some(ErrorKind::BrokenPipe));
            expect_halted_writer(&rt, call, calls, None);
        }
    }
}

/// Refusals that no text reaches, or none of a few lines.
const REFUSALS: [(RunFault, u8, &str); 8] = [
    (RunFault::Read, 1, "read failed"),
    (RunFault::TooLong, 1, "input too long"),
    (RunFault::OutOfMemory, 1, "out of memory"),
    (RunFault::Write, 1, "write failed"),
    (
        RunFault::Line(LineFault {
            line: 1,
            kind: FaultKind::TooLong,
        }),
        2,
        "line 1: 31 TooLong",
    ),
    (
        RunFault::Line(LineFault {
            line: 3,
            kind: FaultKind::OutOfMemory,
        }),
        2,
        "line 3: 47 OutOfMemory",
    ),
    (
        RunFault::Line(LineFault {
            line: 2,
            kind: FaultKind::Manifest(ManifestFault::OutOfMemory),
        }),
        2,
        "line 2: 35 Manifest 20",
    ),
    (
        RunFault::Line(LineFault {
            line: u64::MAX,
            kind: FaultKind::Usage,
        }),
        2,
        "line 18446744073709551615: 46 Usage",
    ),
];

#[test]
fn refusals_have_a_status_and_a_line(rt: HostRuntime) -> Result<(), Fail> {
    for (fault, status, text) in REFUSALS {
        assert_eq!(rt; status_of(&fault), status, "{text}");
        assert_eq!(rt; fault_line(rt.alloc(), &fault)?.as_str(), text);
    }
    Ok(())
}
