//! Lines that several threads share.

ghost use Rattle.std.specs.Prelude.{◌≡◌, All, IfOk, IsOk, OnOk};
ghost use Rattle.std.specs.List.{flat_map};
ghost use Rattle.json_lines.specs.state.Parts.{read_in};

use std::alloc::{AllocError, Global};

/// What the parts have read, one after the other. Returns `Err` if an allocation failed, in one of them or here.
pub fn joined<T: Drop>(
    alloc: Global,
    parts: Vec<Result<Vec<T>, AllocError>>,
) -> Result<Vec<T>, AllocError>
    ensures reads { IfOk result (λ all. all.items ≡ flat_map (read_in (λ reads. reads.items)) parts.items) }
    ensures every { OnOk result (All IsOk parts.items) }
{
    let mut all = Vec::new(alloc);
    for part in parts {
        let mut items = part?;
        all.append(&mut items)?;
    }
    Ok(all)
}
