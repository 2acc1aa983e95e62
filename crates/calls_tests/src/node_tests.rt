//! Which ticks a node takes.

use crate::rounds::{BookCall, over_book};
use crate::test_gate::TestGate;
use std::test::Fail;

/// Two pods that have arrived before the first tick.
const PODS: &str =
    r#"{"kind":"pod","pod":{"metadata":{"name":"a"},"spec":{"containers":[{"name":"c"}]}}}
{"kind":"pod","pod":{"metadata":{"name":"b"},"spec":{"containers":[{"name":"c"}]}}}
{"kind":"tick","at":1}
"#;

#[test]
fn a_pod_is_left_out_in_version_3_alone(rt: HostRuntime) -> Result<(), Fail> {
    for (version, fits) in [(1, false), (2, false), (3, true)] {
        let node = format!(in rt.alloc(); r#"{{"kind":"node","name":"n1","version":{version}}}"#)?;
        let text = format!(in rt.alloc(); "{node}\n{PODS}")?;
        over_book(
            &rt,
            BookCall::<TestGate<'_, '_, HostRuntime>>::LeaveOut(text.as_str(), fits),
        )?;
    }
    Ok(())
}
