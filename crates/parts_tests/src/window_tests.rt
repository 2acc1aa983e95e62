//! Windows that end at each of the limits at which lines are no longer read together, or are read in another way: the
//! same is said line by line as in windows whose lines are each read by itself through `serde_json`.

use crate::line_texts::{PLAIN, add_line_of, line_of};
use crate::windows::{
    GREATEST_WINDOW, READINGS, SMALLEST_WINDOW, expect_same, expect_same_by_each,
};
use std::alloc::{AllocError, Global};
use std::test::Fail;

/// A tick line without its end: what follows stands in a text.
const TICK: &str = r#"{"kind":"tick","at":7,"pods":[{"pod":"default/a","containers":[]}],"note":""#;

/// This many tick lines of so many bytes each, and one of so many, with their newlines.
fn ticks_of(alloc: Global, lines: usize, bytes: usize, last: usize) -> Result<String, AllocError> {
    let line = line_of(alloc, TICK, bytes, "\"}\n")?;
    let mut text = line.as_str().repeat(alloc, lines)?;
    add_line_of(alloc, &mut text, TICK, last, "\"}\n")?;
    Ok(text)
}

#[test]
fn windows_end_beside_their_limits(rt: HostRuntime) -> Result<(), Fail> {
    // 64 lines of these bytes have 64 KiB, 1 MiB, 4 MiB
    for (bytes, window) in [
        (1024usize, SMALLEST_WINDOW),
        (16_384, 1_048_576),
        (65_536, GREATEST_WINDOW),
    ] {
        for (last, end) in [
            (bytes, "{\n{\"kind\":\"tick\"}\n"),
            (bytes.saturating_sub(1), "{"),
            (bytes.saturating_add(1), ""),
        ] {
            let mut text = ticks_of(rt.alloc(), 63, bytes, last)?;
            text.push_str(end)?;
            expect_same_by_each(&rt, text.as_bytes(), window)?;
        }
    }
    Ok(())
}

#[test]
fn windows_double(rt: HostRuntime) -> Result<(), Fail> {
    let text = ticks_of(rt.alloc(), 160, 65_536, 100)?;
    for reading in [READINGS[0], READINGS[3]] {
        let found = expect_same(&rt, text.as_bytes(), SMALLEST_WINDOW, reading)?;
        assert_eq!(rt; found.on_tape, 161);
    }
    Ok(())
}

#[test]
fn long_lines_say_the_same(rt: HostRuntime) -> Result<(), Fail> {
    let mut text = String::new(rt.alloc());
    for (before, behind) in [
        (TICK, "\"}\n"),
        (r#"{"kind":"tick","at":7.5,"note":""#, "\"}\n"),
        (r#"{"kind":"pod","note":""#, "\"}\n"),
        ("{", "\n"),
        ("", "\n"),
    ] {
        // 256 KiB and 1 MiB, and a byte more
        for bytes in [262_145, 262_146, 1_048_577, 1_048_578] {
            add_line_of(rt.alloc(), &mut text, before, bytes, behind)?;
            text.push_str(PLAIN)?;
        }
    }
    expect_same_by_each(&rt, text.as_bytes(), SMALLEST_WINDOW)?;
    Ok(())
}

/// This many tick lines that are not plain, then 40 that are, and so again.
fn missed_ticks(alloc: Global, missed: usize) -> Result<String, AllocError> {
    let odd = "{\"kind\":\"tick\",\"at\":6,\"note\":1.5}\n".repeat(alloc, missed)?;
    let mut text = odd.as_str().repeat(alloc, 1)?;
    for at in 0..40u64 {
        let line = format!(in alloc; "{{\"kind\":\"tick\",\"at\":{at}}}\n")?;
        text.push_str(line.as_str())?;
    }
    text.as_str().repeat(alloc, 2)
}

#[test]
fn ticks_behind_others_that_are_not_plain_say_the_same(rt: HostRuntime) -> Result<(), Fail> {
    for missed in 0..75usize {
        let text = missed_ticks(rt.alloc(), missed)?;
        for reading in READINGS {
            let found = expect_same(&rt, text.as_bytes(), SMALLEST_WINDOW, reading)?;
            // three lines that are not plain leave no other untried, however they are shared
            assert!(rt;
                missed > 3 || found.on_tape == 80,
                "{missed} missed: {found:?}"
            );
        }
    }
    Ok(())
}

#[test]
fn blank_lines_say_the_same(rt: HostRuntime) -> Result<(), Fail> {
    let long = line_of(rt.alloc(), "", 130, "\n")?;
    for blank in ["\n", " \t\r\n", long.as_str()] {
        for count in [15, 16, 17, 1023, 1024, 1025, 2049] {
            let blanks = blank.repeat(rt.alloc(), count)?;
            let mut text = String::new(rt.alloc());
            for line in [PLAIN, "{\n", PLAIN] {
                text.push_str(line)?;
                text.push_str(blanks.as_str())?;
            }
            expect_same_by_each(&rt, text.as_bytes(), SMALLEST_WINDOW)?;
        }
    }
    Ok(())
}

/// Lines that tell of pods themselves: what stands before spaces in a text, and behind them.
const OF_PODS: [(&str, &str); 6] = [
    (
        r#"{"kind":"pod","pod":{"metadata":{"name":"a"},"note":""#,
        "\"}}\n",
    ),
    (r#"{"kind":"gone","pod":"default/a","note":""#, "\"}\n"),
    (
        r#"{"kind":"pod","note":"tick","pod":{"metadata":{"name":"a"},"note":""#,
        "\"}}\n",
    ),
    (
        r#"{"kind":"pod","note":""#,
        "\",\"tick\":{\"metadata\":{\"name\":\"a\"}}}\n",
    ),
    (r#"{"note":""#, "\",\"kind\":\"pod\"}\n"),
    (r#"{"metadata":""#, "\",\"kind\":\"tick\",\"at\":7}\n"),
];

/// Lines of these together have 1 MiB, or a byte less or more, and others stand behind them.
fn lines_of_pods(
    alloc: Global,
    before: &str,
    last: usize,
    behind: &str,
) -> Result<String, AllocError> {
    let line = line_of(alloc, before, 16_384, behind)?;
    let mut text = line.as_str().repeat(alloc, 63)?;
    add_line_of(alloc, &mut text, before, last, behind)?;
    for next in [
        line.as_str(),
        PLAIN,
        PLAIN,
        line.as_str(),
        "\n",
        line.as_str(),
        "[",
    ] {
        text.push_str(next)?;
    }
    Ok(text)
}

#[test]
fn lines_of_pods_say_the_same(rt: HostRuntime) -> Result<(), Fail> {
    for (before, behind) in OF_PODS {
        for last in [16_383, 16_384, 16_385] {
            let text = lines_of_pods(rt.alloc(), before, last, behind)?;
            expect_same(&rt, text.as_bytes(), GREATEST_WINDOW, READINGS[4])?;
        }
    }
    Ok(())
}
