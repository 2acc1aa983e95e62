//! What single lines say is the same to the readers that `trace` uses as to `serde_json`.

use crate::line_texts::{PLACES, PLAIN, VALUES};
use crate::windows::{READINGS, SMALLEST_WINDOW, expect_same, expect_same_by_each};
use std::alloc::{AllocError, Global};
use std::test::Fail;

/// A line for each value at this place, each behind these lines.
fn add_lines(text: &mut String, before: &str, place: (&str, &str)) -> Result<(), AllocError> {
    for value in VALUES {
        text.push_str(before)?;
        text.push_str(place.0)?;
        text.push_str(value)?;
        text.push_str(place.1)?;
        text.push_str("\n")?;
    }
    Ok(())
}

/// A line for each value at each place.
fn lines_of_values(alloc: Global, before: &str) -> Result<String, AllocError> {
    let mut text = String::new(alloc);
    for place in PLACES {
        add_lines(&mut text, before, place)?;
    }
    Ok(text)
}

#[test]
fn each_field_with_each_value_says_the_same(rt: HostRuntime) -> Result<(), Fail> {
    // behind a plain line the tape is tried
    for before in ["", PLAIN] {
        let text = lines_of_values(rt.alloc(), before)?;
        expect_same_by_each(&rt, text.as_bytes(), SMALLEST_WINDOW)?;
    }
    Ok(())
}

/// Lines with blanks around, without a value, with bytes that are no UTF-8, and the like.
const ODD: [&[u8]; 24] = [
    b" {\"kind\":\"tick\",\"at\":7} ",
    b"\t\r{\"kind\" : \"tick\" ,\t\"at\" : 7 }\r",
    b"{\"kind\":\"tick\",\"at\":7}\r",
    b"{\"kind\":\"tick\",\"at\":7}\x0b",
    b"\x0c{\"kind\":\"tick\",\"at\":7}",
    b"\xc2\xa0",
    b"\xef\xbb\xbf{\"kind\":\"tick\",\"at\":7}",
    b"{\"kind\":\"tick\",\"at\":7,\"note\":\"\xff\"}",
    b"{\"kind\":\"tick\",\"at\":7,\"\xc3\":1}",
    b"{\"kind\":\"tick\",\"at\":7,\"note\":\"\xc0\xaf\"}",
    b"{\"kind\":\"tick\",\"at\":7,\"note\":\"\xed\xa0\x80\"}",
    b"{\"kind\":\"tick\",\"at\":7,\"note\":\"\xf4\x90\x80\x80\"}",
    b"{\"kind\":\"tick\",\"at\":7,\"note\":\"\xf0\x9f\x98\x80\xc3\xa9\"}",
    b"{\"kind\":\"tick\",\"at\":7,\"note\":\"\x1f\"}",
    b"{\"kind\":\"tick\",\"at\":7,\"note\":\"\x7f\"}",
    b"{\"kind\":\"tick\",\"at\":7,\"note\":\"\x00\"}",
    b"{\"kind\":\"tick\",\"at\":7}\x00",
    b"{\"kind\":\"tick\",\"at\":7}{}",
    b"{\"kind\":\"tick\",\"at\":7},",
    b"{\"kind\":\"tick\",\"at\":7,}",
    b"{,\"kind\":\"tick\",\"at\":7}",
    b"{'kind':'tick','at':7}",
    b"// tick",
    b"\r",
];

fn add_odd_lines(text: &mut Vec<u8>, before: &str) -> Result<(), AllocError> {
    for line in ODD {
        text.extend_from_slice(before.as_bytes())?;
        text.extend_from_slice(line)?;
        text.extend_from_slice(b"\n")?;
    }
    Ok(())
}

#[test]
fn odd_lines_say_the_same(rt: HostRuntime) -> Result<(), Fail> {
    for before in ["", PLAIN] {
        for end in ODD {
            let mut text = Vec::new(rt.alloc());
            add_odd_lines(&mut text, before)?;
            text.extend_from_slice(end)?;
            expect_same_by_each(&rt, &text, SMALLEST_WINDOW)?;
        }
    }
    Ok(())
}

/// A line whose arrays and objects nest this deep: a tick line, or an array.
fn add_nested(
    alloc: Global,
    text: &mut String,
    depth: usize,
    parts: [&str; 5],
) -> Result<(), AllocError> {
    let [before, open, inner, close, behind] = parts;
    let opened = open.repeat(alloc, depth)?;
    let closed = close.repeat(alloc, depth)?;
    for part in [
        before,
        opened.as_str(),
        inner,
        closed.as_str(),
        behind,
        "\n",
    ] {
        text.push_str(part)?;
    }
    text.push_str(PLAIN)
}

#[test]
fn deep_lines_say_the_same(rt: HostRuntime) -> Result<(), Fail> {
    let mut text = String::from_str(rt.alloc(), PLAIN)?;
    for parts in [
        ["{\"kind\":\"tick\",\"at\":7,\"note\":", "[", "1", "]", "}"],
        [
            "{\"kind\":\"tick\",\"at\":7,\"note\":",
            "{\"a\":",
            "[]",
            "}",
            "}",
        ],
        ["{\"kind\":\"tick\",\"at\":7,\"pods\":", "[", "", "]", "}"],
        ["", "[", "", "]", ""],
        ["", "{\"a\":", "null", "}", ""],
        ["", "[", "", "", ""],
    ] {
        for depth in [1, 125, 126, 127, 128, 129] {
            add_nested(rt.alloc(), &mut text, depth, parts)?;
        }
    }
    expect_same_by_each(&rt, text.as_bytes(), SMALLEST_WINDOW)?;
    Ok(())
}

/// A tick line with each field, in parts.
const WHOLE: [&str; 3] = [
    r#"{"kind":"tick","at":70,"pods":[{"pod":"a/b","containers":[{"name":"c","attempt":3,"state":2,"exitCode":4}],"#,
    r#""probes":[{"container":"c","probe":"startup","result":"unknown"}],"usage":{"memory":"1Gi","pids":2}}],"#,
    r#""signals":{"memory.available":"1.5Gi","pid.available":9},"afterReclaim":{"nodefs.available":"\u0031"}}"#,
];

/// What takes the place of a byte.
const BYTES: [&[u8]; 12] = [
    b"", b"\"", b"\\", b"{", b"}", b"[", b"]", b",", b":", b" ", b"0", b"\xff",
];

/// The line, with each of these in the place of the byte at this place; and the beginning of the line up to it.
fn add_changed(text: &mut Vec<u8>, line: &[u8], place: usize) -> Result<(), AllocError> {
    let (before, behind) = line.split_at(place.min(line.len()));
    for byte in BYTES {
        for part in [
            before,
            byte,
            behind.get(1..).unwrap_or_default(),
            b"\n",
            PLAIN.as_bytes(),
        ] {
            text.extend_from_slice(part)?;
        }
    }
    text.extend_from_slice(before)?;
    text.extend_from_slice(b"\n")
}

/// The line with a byte changed at each place.
fn changed_lines(alloc: Global, line: &[u8]) -> Result<Vec<u8>, AllocError> {
    let mut text = Vec::new(alloc);
    for place in 0..line.len() {
        add_changed(&mut text, line, place)?;
    }
    Ok(text)
}

#[test]
fn lines_with_a_byte_changed_say_the_same(rt: HostRuntime) -> Result<(), Fail> {
    let mut line = String::new(rt.alloc());
    for part in WHOLE {
        line.push_str(part)?;
    }
    let text = changed_lines(rt.alloc(), line.as_bytes())?;
    for reading in [READINGS[0], READINGS[3]] {
        expect_same(&rt, &text, SMALLEST_WINDOW, reading)?;
    }
    Ok(())
}
