//! Whether a moment comes after the last record.

ghost use Rattle.std.specs.Prelude.{◌↔◌, ◌<◌, IfSome, IsTrue};

/// Whether the last moment, if there is one, is before this one.
pub fn is_before(last: Option<u64>, moment: u64) -> bool
    ensures { IsTrue result ↔ IfSome last (λ at. at < moment) }
{
    match last {
        Some(at) => at < moment,
        None => true,
    }
}
