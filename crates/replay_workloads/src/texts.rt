//! Texts of a file, each replayed as it stands. The gate compares what both compilers' programs answer.

use crate::job::Job;
use anyhow::{Context, Result};
use kubelet_replay::Format;
use std::fs;
use std::rt::Runtime;
use std::sync::Wait;
use std::thread::Threads;

/// The text behind its name, which stands in the first line; behind the name comes the word for the extended format.
fn named(part: &str) -> Result<(&str, Format, &str)> {
    let (name, text) = part.split_once('\n').context("a text has no name")?;
    match name.strip_suffix(" --extended") {
        Some(_) => Ok((name, Format::Extended, text)),
        None => Ok((name, Format::Standard, text)),
    }
}

/// Prints what the job answers to each text of a file, behind its name. Each name stands behind a line's end and a
/// mark, with which no line of JSON begins.
pub(crate) fn run_all(
    rt: &(impl Runtime + AllocGlobal + Threads + Wait + Sync),
    job: Job,
    path: &str,
) -> Result<()> {
    let texts = fs::read_to_string(rt, path)?;
    for part in texts.as_str().split("\n# ").skip(1) {
        let (name, format, text) = named(part)?;
        let told = job.told(rt, format, text.as_bytes())?;
        print!(rt; "# {name}\n{told}")?;
    }
    Ok(())
}
