//! The trace of the calls, and its report.

ghost use Rattle.std.specs.Prelude.{IfOk};
ghost use Rattle.trace.specs.state.Sound.{AreAcceptable, HasShape};

use crate::seen::Unprepared;
use manifest::PodSpec;
use observations::{PodObs, TickObs};
use std::alloc::Global;
use trace::{Format, NodeConfig, Trace, read_trace};

/// Two pods by two ticks.
const TEXT: &str = concat!(
    r#"{"kind":"node","name":"n1"}"#,
    "\n",
    r#"{"kind":"pod","pod":{"metadata":{"name":"a"},"spec":{"containers":[{"name":"c"}]}}}"#,
    "\n",
    r#"{"kind":"pod","pod":{"metadata":{"name":"b"},"spec":{"containers":[{"name":"c"}]}}}"#,
    "\n",
    r#"{"kind":"tick","at":1,"pods":[{"pod":"default/a","containers":[{"name":"c","state":1}]},"#,
    r#"{"pod":"default/b","containers":[{"name":"c","state":1}]}]}"#,
    "\n",
    r#"{"kind":"tick","at":9,"pods":[{"pod":"default/a","containers":[{"name":"c","state":2,"exitCode":3}]},"#,
    r#"{"pod":"default/b","containers":[{"name":"c","state":1}]}]}"#,
    "\n",
);

/// The report of the trace.
const REPORT: &str = "\
node n1 pods=2 ticks=2
event 1 default/a c started 0
event 1 default/a c ready
event 1 default/a - phase Running
event 1 default/b c started 0
event 1 default/b c ready
event 1 default/b - phase Running
event 9 default/a c died 0 3
event 9 default/a c unready
event 9 default/a c restart 0
pod 0 default/a phase=Running reason=- qos=BestEffort
condition 0 PodScheduled True 1
condition 0 Initialized True 1
condition 0 ContainersReady False 9
condition 0 Ready False 9
container 0 c state=Terminated code=3 restarts=0 ready=false started=false
pod 1 default/b phase=Running reason=- qos=BestEffort
condition 1 PodScheduled True 1
condition 1 Initialized True 1
condition 1 ContainersReady True 1
condition 1 Ready True 1
container 1 c state=Running code=- restarts=0 ready=true started=true
nodecondition MemoryPressure False 1
nodecondition DiskPressure False 1
nodecondition PIDPressure False 1
totals updates=4 events=9 orders=1
";

/// Whether the text is the report of the trace.
pub(crate) fn is_report(text: &str) -> bool {
    text == REPORT
}

/// The trace. Each of the following reads it anew, so that a call holds no more of it than it uses.
pub(crate) fn read(alloc: Global) -> Result<Trace, Unprepared>
    ensures acceptable { IfOk result (λ t. AreAcceptable t.ticks) }
    ensures shape { IfOk result (λ t. HasShape t.pods t.arrivals t.departures t.ticks) }
{
    Ok(read_trace(alloc, Format::Standard, TEXT.as_bytes())?)
}

/// The trace's node.
pub(crate) fn config(alloc: Global) -> Result<NodeConfig, Unprepared> {
    let trace = read(alloc)?;
    Ok(trace.node)
}

/// Its pods.
pub(crate) fn pods(alloc: Global) -> Result<Vec<PodSpec>, Unprepared> {
    let trace = read(alloc)?;
    Ok(trace.pods.into_vec())
}

/// Its ticks.
pub(crate) fn ticks(alloc: Global) -> Result<Vec<TickObs>, Unprepared> {
    let trace = read(alloc)?;
    Ok(trace.ticks.into_vec())
}

/// The pod with this number.
pub(crate) fn pod(alloc: Global, number: usize) -> Result<PodSpec, Unprepared> {
    pods(alloc)?.into_iter().nth(number).ok_or(Unprepared)
}

/// The last pod.
pub(crate) fn last_pod(alloc: Global) -> Result<PodSpec, Unprepared> {
    pods(alloc)?.pop().ok_or(Unprepared)
}

/// The first tick.
pub(crate) fn first_tick(alloc: Global) -> Result<TickObs, Unprepared> {
    ticks(alloc)?.into_iter().next().ok_or(Unprepared)
}

/// What the first tick shows of the pod with this number.
pub(crate) fn shown(alloc: Global, number: usize) -> Result<PodObs, Unprepared> {
    let tick = first_tick(alloc)?;
    tick.pods
        .into_vec()
        .into_iter()
        .nth(number)
        .flatten()
        .ok_or(Unprepared)
}
