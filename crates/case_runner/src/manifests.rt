//! Whole manifests, each beside what is read of it.

use crate::compare::expect;
use crate::files::{names_in, text_of};
use crate::manifest_text::{Telling, told};
use anyhow::Result;
use std::rt::Runtime;

/// Reads the manifests of a folder, and says how many there are.
pub(crate) fn run_all(rt: &(impl Runtime + AllocGlobal), folder: &str) -> Result<usize> {
    let names = names_in(rt, folder, ".json")?;
    for name in names.as_slice() {
        let path = format!(in rt.alloc(); "{folder}/{name}")?;
        let manifest = text_of(rt, path.as_str(), "json")?;
        let found = told(rt.alloc(), manifest.as_str(), Telling::Whole)?;
        let wanted = text_of(rt, path.as_str(), "read")?;
        expect(rt, path.as_str(), found.as_str(), wanted.as_str())?;
    }
    Ok(names.len())
}
