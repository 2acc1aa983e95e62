//! The files of the cases.

use anyhow::{Context, Result};
use std::alloc::Global;
use std::fs;
use std::rt::Files;

/// The names in a folder that end so, in order and without that ending.
pub(crate) fn names_in(
    rt: &(impl Files + AllocGlobal + Clone + Drop),
    folder: &str,
    ending: &str,
) -> Result<Vec<String>> {
    let mut names = Vec::new(rt.alloc());
    for entry in fs::read_dir(rt, folder)? {
        let entry = entry?;
        if let Some(name) = entry.file_name().strip_suffix(ending) {
            names.push(String::from_str(rt.alloc(), name)?)?;
        }
    }
    names.sort()?;
    Ok(names)
}

/// The text of the file of this path and ending.
pub(crate) fn text_of(rt: &(impl Files + AllocGlobal), path: &str, ending: &str) -> Result<String> {
    let file = format!(in rt.alloc(); "{path}.{ending}")?;
    let bytes = fs::read(rt, file.as_str()).context(format_args!("reading {file}"))?;
    String::from_utf8(bytes).context("the file is no text")
}
