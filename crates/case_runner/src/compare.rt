//! The one comparison.

use anyhow::{Result, bail};

/// An error that names the case where the answer isn't the one that is wanted, byte for byte; both go to standard
/// error.
pub(crate) fn expect(rt: &impl Eprint, case: &str, found: &str, wanted: &str) -> Result<()> {
    if found == wanted {
        return Ok(());
    }
    eprintln!(rt; "{case}\nis wanted:\n{wanted}\nand found:\n{found}")?;
    bail!("{case} is answered otherwise")
}
