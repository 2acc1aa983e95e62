//! Lines of many kinds.

use std::alloc::{AllocError, Global};

/// A tick line of the common shape.
pub(crate) const PLAIN: &str =
    "{\"kind\":\"tick\",\"at\":5,\"pods\":[{\"pod\":\"default/\\u0061\"}]}\n";

/// Adds a line of this many bytes with its end: it begins so, and is filled with spaces before its end.
pub(crate) fn add_line_of(
    alloc: Global,
    text: &mut String,
    before: &str,
    bytes: usize,
    behind: &str,
) -> Result<(), AllocError> {
    let spaces = bytes
        .saturating_sub(before.len())
        .saturating_sub(behind.len());
    let spaces = " ".repeat(alloc, spaces)?;
    text.push_str(before)?;
    text.push_str(spaces.as_str())?;
    text.push_str(behind)
}

/// The line itself.
pub(crate) fn line_of(
    alloc: Global,
    before: &str,
    bytes: usize,
    behind: &str,
) -> Result<String, AllocError> {
    let mut line = String::new(alloc);
    add_line_of(alloc, &mut line, before, bytes, behind)?;
    Ok(line)
}

/// Places of a tick line for a value: what stands before it, and behind it.
pub(crate) const PLACES: [(&str, &str); 39] = [
    (r#"{"kind":"#, r#","at":7}"#),
    (r#"{"at":7,"kind":"tick","kind":"#, "}"),
    (r#"{"kind":"tick","at":"#, "}"),
    (r#"{"kind":"tick","at":7,"at":"#, "}"),
    (r#"{"kind":"tick","at":"#, r#","at":7}"#),
    (r#"{"kind":"tick","at":7,"note":[1,"#, "]}"),
    (r#"{"kind":"tick","at":7,"#, ":1}"),
    (r#"{"kind":"tick","at":7,"pods":"#, "}"),
    (r#"{"kind":"tick","at":7,"pods":[{"pod":"a"},"#, "]}"),
    (r#"{"kind":"tick","at":7,"pods":[{"pod":"#, "}]}"),
    (
        r#"{"kind":"tick","at":7,"pods":[{"pod":"a","containers":"#,
        "}]}",
    ),
    (
        r#"{"kind":"tick","at":7,"pods":[{"pod":"a","containers":[{"name":"c","state":1},"#,
        "]}]}",
    ),
    (
        r#"{"kind":"tick","at":7,"pods":[{"pod":"a","containers":[{"state":1,"name":"#,
        "}]}]}",
    ),
    (
        r#"{"kind":"tick","at":7,"pods":[{"pod":"a","containers":[{"name":"c","state":"#,
        "}]}]}",
    ),
    (
        r#"{"kind":"tick","at":7,"pods":[{"pod":"a","containers":[{"name":"c","state":1,"attempt":"#,
        "}]}]}",
    ),
    (
        r#"{"kind":"tick","at":99,"pods":[{"pod":"a","containers":[{"name":"c","state":2,"exitCode":"#,
        "}]}]}",
    ),
    (
        r#"{"kind":"tick","at":7,"pods":[{"pod":"a","probes":"#,
        "}]}",
    ),
    (
        r#"{"kind":"tick","at":7,"pods":[{"pod":"a","probes":[{"probe":"startup","result":"success","container":"#,
        "}]}]}",
    ),
    (
        r#"{"kind":"tick","at":7,"pods":[{"pod":"a","probes":[{"container":"c","result":"failure","probe":"#,
        "}]}]}",
    ),
    (
        r#"{"kind":"tick","at":7,"pods":[{"pod":"a","probes":[{"container":"c","probe":"liveness","result":"#,
        "}]}]}",
    ),
    (
        r#"{"kind":"tick","at":7,"pods":[{"pod":"a","usage":"#,
        "}]}",
    ),
    (
        r#"{"kind":"tick","at":7,"pods":[{"pod":"a","usage":{"memory":"#,
        r#","volumes":"1Mi","logs":"2k"}}]}"#,
    ),
    (
        r#"{"kind":"tick","at":7,"pods":[{"pod":"a","usage":{"inodes":8,"pids":"#,
        "}}]}",
    ),
    (
        r#"{"kind":"tick","at":99,"pods":[{"pod":"a","unsampled":"#,
        "}]}",
    ),
    (
        r#"{"kind":"tick","at":99,"pods":[{"pod":"a","unsampled":"#,
        r#","usage":{"pids":2},"unsampled":true}]}"#,
    ),
    (
        r#"{"kind":"tick","at":99,"pods":[{"pod":"a","deleting":"#,
        "}]}",
    ),
    (r#"{"kind":"tick","at":99,"judged":"#, "}"),
    (r#"{"kind":"tick","at":99,"signals":"#, "}"),
    (
        r#"{"kind":"tick","at":7,"signals":{"memory.available":"#,
        r#","nodefs.inodesFree":"2"}}"#,
    ),
    (
        r#"{"kind":"tick","at":7,"signals":{"pid.available":1,"pid.available":"#,
        "}}",
    ),
    (
        r#"{"kind":"tick","at":99,"signals":{"stranger":"#,
        r#","pid.available":1}}"#,
    ),
    (
        r#"{"kind":"tick","at":7,"afterReclaim":{"imagefs.available":"#,
        "}}",
    ),
    (
        r#"{"kind":"tick","at":99,"afterReclaim":{"memory.available":"#,
        "}}",
    ),
    (
        r#"{"kind":"tick","at":99,"pods":[{"pod":"#,
        r#","pod":"default/a"}]}"#,
    ),
    (
        r#"{"kind":"tick","at":99,"pods":[{"pod":"a","containers":[{"name":"c","state":"#,
        r#","state":3}]}]}"#,
    ),
    (
        r#"{"kind":"tick","at":99,"pods":[{"pod":"a","usage":"#,
        r#","usage":null}]}"#,
    ),
    (
        r#"{"kind":"tick","at":99,"signals":{"pid.available":"#,
        r#","pid.available":1}}"#,
    ),
    (r#"{"kind":"pod","pod":{"metadata":"#, "}}"),
    ("", ""),
];

/// Values, and some texts that are none.
pub(crate) const VALUES: [&str; 64] = [
    "null",
    "true",
    "false",
    "nul",
    "",
    "0",
    "1",
    "2",
    "3",
    "4",
    "-0",
    "-1",
    "-2147483648",
    "-2147483649",
    "0.0",
    "1.5",
    "-0.0",
    "1e2",
    "1E+2",
    "2e-1",
    "1e400",
    "-1e400",
    "1e-400",
    "00",
    "01",
    "+1",
    ".5",
    "5.",
    "1e",
    "2147483647",
    "2147483648",
    "9223372036854775807",
    "18446744073709551615",
    "18446744073709551616",
    "340282366920938463463374607431768211456",
    r#""""#,
    r#""1""#,
    r#""default/a""#,
    r#""tick""#,
    r#""ti\u0063k""#,
    r#""CONTAINER_RUNNING""#,
    r#""CONTAINER_EXITE\u0044""#,
    r#""\u0072eadiness""#,
    r#""unknow\u006E""#,
    r#""1Gi""#,
    r#""1.5Ki""#,
    r#""1\u0030""#,
    r#""10%""#,
    r#""-1""#,
    r#""9223372036854775808""#,
    r#""\"\\\/\b\f\n\r\t""#,
    r#""\ud83d\ude00é""#,
    r#""\ud83d""#,
    r#""\ude00\ud83d""#,
    r#""\u12""#,
    r#""\x""#,
    r#""a"#,
    "[]",
    "{}",
    "[null]",
    "[{}]",
    r#"{"\u0061":1,"a":2,"a":null}"#,
    r#"{"memory.availabl\u0065":"1Gi"}"#,
    "1 1",
];
