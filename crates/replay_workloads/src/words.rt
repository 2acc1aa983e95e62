//! The pieces of a trace's lines that are the same in each, as one writer or another puts them.

/// The pieces of a tick line.
pub(crate) struct Words {
    pub(crate) tick: &'static str,
    pub(crate) pods: &'static str,
    pub(crate) next: &'static str,
    pub(crate) pod: &'static str,
    pub(crate) containers: &'static str,
    pub(crate) container: &'static str,
    pub(crate) attempt: &'static str,
    pub(crate) running: &'static str,
    pub(crate) exited: &'static str,
    pub(crate) probes: &'static str,
    pub(crate) result: &'static str,
    pub(crate) probe: &'static str,
    pub(crate) success: &'static str,
    pub(crate) failure: &'static str,
    pub(crate) memory: &'static str,
    pub(crate) amounts: [&'static str; 5],
    pub(crate) usage_end: &'static str,
    pub(crate) signals: &'static str,
    pub(crate) disk: &'static str,
    pub(crate) signals_end: &'static str,
}

/// What a program writes that puts nothing between two words, with the usage of memory alone.
pub(crate) const COMPACT: Words = Words {
    tick: r#"{"kind":"tick","at":"#,
    pods: r#","pods":["#,
    next: ",",
    pod: r#"{"pod":"default/p"#,
    containers: r#"","containers":["#,
    container: r#"{"name":"app-"#,
    attempt: r#"","attempt":"#,
    running: r#","state":"CONTAINER_RUNNING"}"#,
    exited: r#","state":"CONTAINER_EXITED","exitCode":"#,
    probes: r#"],"probes":["#,
    result: r#"{"container":"app-"#,
    probe: r#"","probe":""#,
    success: r#"","result":"success"}"#,
    failure: r#"","result":"failure"}"#,
    memory: r#"],"usage":{"memory":"#,
    amounts: [""; 5],
    usage_end: "}}",
    signals: r#"],"signals":{"memory.available":""#,
    disk: r#"Mi","nodefs.available":""#,
    signals_end: "Gi\"}}\n",
};

/// The words of a trace in few bytes, with names as a deployment's containers have them.
pub(crate) const LONG_NAMES: Words = Words {
    container: r#"{"name":"container-of-web-"#,
    result: r#"{"container":"container-of-web-"#,
    ..COMPACT
};

/// What a recorder of a node writes: all usage, and each number in bytes.
pub(crate) const RECORDED: Words = Words {
    amounts: [
        r#","volumes":"#,
        r#","logs":"#,
        r#","writable":"#,
        r#","inodes":"#,
        r#","pids":"#,
    ],
    ..COMPACT
};

/// What a program writes that puts blanks between words, escapes each slash, has fields of its own, quantities with
/// fractions and lines that end in a carriage return.
pub(crate) const SPACED: Words = Words {
    tick: r#"{"kind": "tick", "source": "n\u00f8de \"1\"", "at": "#,
    pods: r#", "pods": ["#,
    next: ", ",
    pod: r#"{"pod": "default\/p"#,
    containers: r#"", "labels": {"tier": ["web", null, true], "weight": 0.25}, "containers": ["#,
    container: r#"{"image": "registry.local\/app:1.2", "name": "app-"#,
    attempt: r#"", "attempt": "#,
    running: r#", "state": "CONTAINER_RUNNING"}"#,
    exited: r#", "state": "CONTAINER_EXITED", "exitCode": "#,
    probes: r#"], "probes": ["#,
    result: r#"{"container": "app-"#,
    probe: r#"", "probe": ""#,
    success: r#"", "result": "success", "seconds": 1.5e-3}"#,
    failure: r#"", "result": "failure", "seconds": 1.0}"#,
    memory: r#"], "usage": {"cpu": 12.75, "memory": "#,
    amounts: [
        r#", "volumes": "1.5Gi", "logs": "#,
        r#", "note": "", "writable": "#,
        r#", "inodes": "#,
        r#", "threads": "#,
        r#", "pids": "#,
    ],
    usage_end: "}}",
    signals: r#"], "signals": {"memory.available": ""#,
    disk: r#".5Mi", "nodefs.available": ""#,
    signals_end: ".25Gi\"}}\r\n",
};
