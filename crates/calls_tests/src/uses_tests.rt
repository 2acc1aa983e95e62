//! A caller of the replay from memory to memory: a report, and what stands in its place.

use crate::uses::{NoReport, report_of};
use std::test::Fail;

const LINES: &str = r#"{"kind":"node","name":"n1"}
{"kind":"pod","pod":{"metadata":{"name":"a"},"spec":{"containers":[{"name":"c"}]}}}
{"kind":"tick","at":5,"pods":[{"pod":"default/a","containers":[{"name":"c","attempt":0,"state":"CONTAINER_RUNNING"}]}]}
"#;

const REPORT: &str = "node n1 pods=1 ticks=1
event 5 default/a c started 0
event 5 default/a c ready
event 5 default/a - phase Running
pod 0 default/a phase=Running reason=- qos=BestEffort
condition 0 PodScheduled True 5
condition 0 Initialized True 5
condition 0 ContainersReady True 5
condition 0 Ready True 5
container 0 c state=Running code=- restarts=0 ready=true started=true
nodecondition MemoryPressure False 5
nodecondition DiskPressure False 5
nodecondition PIDPressure False 5
totals updates=1 events=3 orders=0
";

#[test]
fn a_trace_in_memory_has_a_report_or_a_fault(rt: HostRuntime) -> Result<(), Fail> {
    match report_of(rt.alloc(), LINES.as_bytes(), 4096) {
        Ok(report) => assert_eq!(rt; report.as_slice(), REPORT.as_bytes()),
        Err(_) => panic!(rt; "the trace was refused"),
    }
    let room = report_of(rt.alloc(), LINES.as_bytes(), 100);
    assert!(rt; matches!(&room, Err(NoReport::NoRoom)));
    match report_of(
        rt.alloc(),
        b"{\"kind\":\"node\",\"name\":\"n1\"}\n{\"kind\":\"pod\"}\n",
        4096,
    ) {
        Err(NoReport::Faulty(fault)) => assert_eq!(rt; fault.line, 2),
        _ => panic!(rt; "the second line was not refused"),
    }
    Ok(())
}
