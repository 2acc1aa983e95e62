//! Cases that no report shows: calls of the library in which an allocation may fail, and texts and manifests.
//!
//!     case_runner          makes the calls, and reads the texts and manifests of the folder that it runs in
//!     case_runner calls    makes the calls alone
//!
//! It prints a line for each call. With ample memory each call is done; `bench/refused_memory` runs `case_runner calls`
//! with each allocation failing in turn. Then it prints how many texts and manifests there are, or names the first one
//! of which it reads something else. A new case is two files or a row of a table, and its count in the file `stdout`:
//!
//! - `manifests/NAME.json` next to `NAME.read`, what it reads of the manifest.
//! - `texts/KIND.table`: a row's text is of that kind.
//!
//! The other cases in the folder are for the program: `bench/cases` passes them to it.
#![tactic(auto)]

mod alike;
mod all_calls;
mod arrivals;
mod calls;
mod compare;
mod files;
mod handing;
mod job;
mod kind;
mod manifest_text;
mod manifests;
mod nodes;
mod pieces;
mod recorded;
mod reports;
mod rounds;
mod seen;
mod several;
mod table;
mod texts;
mod ticks;

use anyhow::{Context, Result};
use job::Job;
use kind::Kind;
use std::process::ExitCode;
use std::rt::Runtime;

/// Runs each table of `texts/`, whose name says what is read.
fn run_texts(rt: &(impl Runtime + AllocGlobal)) -> Result<()> {
    for name in files::names_in(rt, "texts", ".table")? {
        let path = format!(in rt.alloc(); "texts/{name}")?;
        let kind = Kind::of_name(name.as_str()).context("a table of an unknown name")?;
        let count = table::run(rt, path.as_str(), kind)?;
        println!(rt; "{path}: {count} texts")?;
    }
    Ok(())
}

/// Reads the manifests and the texts of the folder that it runs in.
fn run_folder(rt: &(impl Runtime + AllocGlobal)) -> Result<()> {
    let count = manifests::run_all(rt, "manifests")?;
    println!(rt; "manifests: {count} manifests")?;
    run_texts(rt)
}

fn main(rt: HostRuntime) -> Result<ExitCode> {
    let job = Job::of_arguments(&rt).context("the only argument is 'calls'")?;
    if !all_calls::are_made(&rt) {
        return Ok(ExitCode::FAILURE);
    }
    match job {
        Job::Calls => {}
        Job::CallsAndFolder => run_folder(&rt)?,
    }
    Ok(ExitCode::SUCCESS)
}
