//! Tables of texts, a row for each: the text, a tab and its answer. A line that begins with `# ` says what the rows
//! below it show.

use crate::compare::expect;
use crate::files::text_of;
use crate::kind::Kind;
use anyhow::{Context, Result};
use std::rt::Runtime;

/// Compares the row at this place with the answer that stands in it, and says whether it is a case.
fn is_case(
    rt: &(impl Runtime + AllocGlobal),
    path: &str,
    kind: Kind,
    place: usize,
    row: &str,
) -> Result<bool> {
    if row.starts_with("# ") {
        return Ok(false);
    }
    let (text, wanted) = row.rsplit_once('\t').context("a row has no tab")?;
    let found = kind.answer_of(rt.alloc(), text)?;
    let number = place.saturating_add(1);
    let case = format!(in rt.alloc(); "{path}.table, line {number}")?;
    expect(rt, case.as_str(), found.as_str(), wanted)?;
    Ok(true)
}

/// Compares each row of the table of this path, and says how many there are.
pub(crate) fn run(rt: &(impl Runtime + AllocGlobal), path: &str, kind: Kind) -> Result<usize> {
    let table = text_of(rt, path, "table")?;
    let mut count = 0usize;
    for (place, row) in table.as_str().split_terminator('\n').enumerate() {
        if is_case(rt, path, kind, place, row)? {
            count = count.saturating_add(1);
        }
    }
    Ok(count)
}
