//! The lines of a trace.

use crate::pen::Pen;
use crate::shape::Shape;
use rand_core::{Rng, SeedableRng};
use rand_xoshiro::Xoshiro256PlusPlus;
use std::alloc::{AllocError, Global};

/// The most bytes of a trace, 64 MiB.
const ROOM: usize = 64 << 20;

/// What the node's line says behind its version: what the node has, and its thresholds.
const CAPACITY: &str = r#","capacity":{"memory.available":"32Gi","nodefs.available":"100Gi"}"#;

const HARD: &str = r#","evictionHard":{"memory.available":"100Mi","nodefs.available":"10%"}"#;

const SOFT: &str =
    r#","evictionSoft":{"memory.available":"1Gi"},"evictionSoftGracePeriod":{"memory.available":"1m"}}"#;

/// Whether this is the last tick of this many.
fn is_last_of(count: u64, tick: u64) -> bool {
    tick.wrapping_add(1).checked_rem(count) == Some(0)
}

fn node_line(pen: &mut Pen, shape: &Shape) -> Result<(), AllocError> {
    pen.text(r#"{"kind":"node","name":"n1","version":"#)?;
    pen.number(shape.version)?;
    for piece in [CAPACITY, HARD, SOFT] {
        pen.text(piece)?;
    }
    pen.text("\n")
}

/// The name of a container, in a manifest.
fn container(pen: &mut Pen, shape: &Shape, container: u64) -> Result<(), AllocError> {
    pen.text(shape.words.container)?;
    pen.number(container)?;
    pen.text(r#"","resources":{"requests":{"memory":"64Mi"}}"#)?;
    for probe in shape.probes {
        pen.text(",\"")?;
        pen.text(probe)?;
        pen.text(r#"Probe":{"failureThreshold":1}"#)?;
    }
    pen.text("}")
}

fn pod_line(pen: &mut Pen, shape: &Shape, pod: u64) -> Result<(), AllocError> {
    pen.text(r#"{"kind":"pod","pod":{"metadata":{"name":"p"#)?;
    pen.number(pod)?;
    pen.text(r#""},"spec":{"priority":"#)?;
    pen.number(pod % 7)?;
    pen.text(r#","containers":["#)?;
    for number in 0..shape.containers {
        if number > 0 {
            pen.text(",")?;
        }
        container(pen, shape, number)?;
    }
    pen.text("]}}}\n")
}

fn gone_line(pen: &mut Pen, pod: u64) -> Result<(), AllocError> {
    pen.text(r#"{"kind":"gone","pod":"default/p"#)?;
    pen.number(pod)?;
    pen.text("\"}\n")
}

/// A listing in the tick that is this one of its container's.
fn listing(pen: &mut Pen, shape: &Shape, container: u64, turn: u64) -> Result<(), AllocError> {
    let words = shape.words;
    pen.text(words.container)?;
    pen.number(container)?;
    pen.text(words.attempt)?;
    pen.number(turn.checked_div(shape.attempt).unwrap_or(0))?;
    if turn.checked_rem(shape.attempt).unwrap_or(0) < shape.running {
        return pen.text(words.running);
    }
    pen.text(words.exited)?;
    pen.number(turn % 3)?;
    pen.text("}")
}

/// What a probe found: a failure once in this many random numbers.
fn result(
    pen: &mut Pen,
    shape: &Shape,
    container: u64,
    probe: &str,
    fails: bool,
) -> Result<(), AllocError> {
    let words = shape.words;
    pen.text(words.result)?;
    pen.number(container)?;
    pen.text(words.probe)?;
    pen.text(probe)?;
    pen.text(if fails { words.failure } else { words.success })
}

/// What the probes of a pod's containers found. Readiness fails in one result of eight, the others in one of 256.
fn results(pen: &mut Pen, shape: &Shape, random: u64) -> Result<(), AllocError> {
    let words = shape.words;
    pen.text(words.probes)?;
    let mut bits = random;
    let mut is_first = true;
    for number in 0..shape.containers {
        for probe in shape.probes {
            if !is_first {
                pen.text(words.next)?;
            }
            is_first = false;
            let mask = if *probe == "readiness" { 7 } else { 255 };
            result(pen, shape, number, probe, bits & mask == 0)?;
            bits = bits.rotate_right(11);
        }
    }
    Ok(())
}

fn usage(pen: &mut Pen, shape: &Shape, random: u64) -> Result<(), AllocError> {
    let words = shape.words;
    pen.text(words.memory)?;
    pen.number(random % 1_000_003 * 1_000)?;
    for (place, amount) in words.amounts.iter().enumerate() {
        if !amount.is_empty() {
            pen.text(amount)?;
            pen.number(random.rotate_right(20) % (4096 << place))?;
        }
    }
    pen.text(words.usage_end)
}

/// What a tick shows of a pod.
fn entry(pen: &mut Pen, shape: &Shape, pod: u64, tick: u64, random: u64) -> Result<(), AllocError> {
    let words = shape.words;
    pen.text(words.pod)?;
    pen.number(pod)?;
    pen.text(words.containers)?;
    let turn = tick.wrapping_add(pod.wrapping_mul(7));
    for number in 0..shape.containers {
        if number > 0 {
            pen.text(words.next)?;
        }
        listing(
            pen,
            shape,
            number,
            turn.wrapping_add(number.wrapping_mul(3)),
        )?;
    }
    if is_last_of(shape.probed, turn) {
        results(pen, shape, random)?;
    }
    usage(pen, shape, random)
}

/// A tick of these pods. A shortage of memory is one of the soft threshold, and of the hard one in the next tick.
fn tick_line(
    pen: &mut Pen,
    shape: &Shape,
    first: u64,
    tick: u64,
    rng: &mut Xoshiro256PlusPlus,
) -> Result<(), AllocError> {
    let words = shape.words;
    pen.text(words.tick)?;
    pen.number(tick.wrapping_mul(10))?;
    pen.text(words.pods)?;
    for pod in first..first.saturating_add(shape.pods) {
        if pod > first {
            pen.text(words.next)?;
        }
        entry(pen, shape, pod, tick, rng.next_u64())?;
    }
    pen.text(words.signals)?;
    pen.number(if is_last_of(shape.shortage, tick) {
        50
    } else {
        2_000 + rng.next_u64() % 1_000
    })?;
    pen.text(words.disk)?;
    pen.number(if is_last_of(shape.shortage, tick / 3) {
        5
    } else {
        60
    })?;
    pen.text(words.signals_end)
}

/// The trace of this shape and this many ticks that comes of a seed.
pub(crate) fn trace(
    alloc: Global,
    shape: &Shape,
    ticks: u64,
    seed: u64,
) -> Result<Vec<u8>, AllocError> {
    let mut rng = Xoshiro256PlusPlus::seed_from_u64(seed);
    let mut pen = Pen::new(alloc, ROOM)?;
    node_line(&mut pen, shape)?;
    for pod in 0..shape.pods {
        pod_line(&mut pen, shape, pod)?;
    }
    let mut first = 0u64;
    for tick in 0..ticks {
        if is_last_of(shape.turnover, tick) {
            gone_line(&mut pen, first)?;
            pod_line(&mut pen, shape, first.wrapping_add(shape.pods))?;
            first = first.wrapping_add(1);
        }
        tick_line(&mut pen, shape, first, tick, &mut rng)?;
    }
    Ok(pen.into_text())
}
