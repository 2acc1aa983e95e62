//! Traces as text.

use std::alloc::{AllocError, Global};

/// A pod's container in a tick, both by number. Of three pods, one runs on, one exits in the third tick, and one exits
/// in every other tick and is restarted.
fn listing(alloc: Global, pod: usize, tick: usize) -> Result<String, AllocError> {
    let (attempt, is_running) = match pod % 3 {
        0 => (0, true),
        1 => (0, tick < 2),
        _ => (tick / 2, tick % 2 == 0),
    };
    let code = pod % 5;
    if is_running {
        format!(in alloc; r#"{{"name":"c","attempt":{attempt},"state":"CONTAINER_RUNNING"}}"#)
    } else {
        format!(in alloc;
            r#"{{"name":"c","attempt":{attempt},"state":"CONTAINER_EXITED","exitCode":{code}}}"#
        )
    }
}

fn add_pods(alloc: Global, text: &mut String, pods: usize) -> Result<(), AllocError> {
    for pod in 0..pods {
        let policy = ["Always", "OnFailure", "Never"][pod % 3];
        let spec = format!(in alloc;
            r#"{{"restartPolicy":"{policy}","containers":[{{"name":"c"}}]}}"#
        )?;
        let line = format!(in alloc;
            r#"{{"kind":"pod","pod":{{"metadata":{{"name":"p{pod}"}},"spec":{spec}}}}}"#
        )?;
        text.push_str(line.as_str())?;
        text.push_str("\n")?;
    }
    Ok(())
}

fn add_tick(alloc: Global, text: &mut String, tick: usize, pods: usize) -> Result<(), AllocError> {
    let at = tick.saturating_mul(10);
    let head = format!(in alloc; r#"{{"kind":"tick","at":{at},"pods":["#)?;
    text.push_str(head.as_str())?;
    for pod in 0..pods {
        let container = listing(alloc, pod, tick)?;
        let comma = if pod > 0 { "," } else { "" };
        let entry = format!(in alloc;
            r#"{comma}{{"pod":"default/p{pod}","containers":[{container}]}}"#
        )?;
        text.push_str(entry.as_str())?;
    }
    text.push_str("]}\n")
}

/// A trace of this many pods and ticks, ten seconds apart from 0 on.
pub(crate) fn trace_text(alloc: Global, pods: usize, ticks: usize) -> Result<String, AllocError> {
    let mut text = String::from_str(alloc, "{\"kind\":\"node\",\"name\":\"n1\"}\n")?;
    add_pods(alloc, &mut text, pods)?;
    for tick in 0..ticks {
        add_tick(alloc, &mut text, tick, pods)?;
    }
    Ok(text)
}
