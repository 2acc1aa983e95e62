//! Writing a whole output.

ghost use Rattle.std.specs.Prelude.{◌≡◌, ℕ, ◌+◌, ◌^◌, ◌<◌, OnOk, OnErr, length, take, is_err, if◌then◌else◌};
ghost use Rattle.std.specs.Io.KnownBytes.{Appends};

use crate::fault::WriteFailed;
use crate::stream::Sink;

/// Writes all bytes, or those up to the call that failed or took none.
pub fn write_all<S: Sink>(sink: &mut S, bytes: &[u8]) -> Result<(), WriteFailed>
    requires { S.failures sink.old < 2 ^ 63 }
    ensures ok { OnOk result (Appends (S.written sink.old) (S.written sink.new) bytes.now) }

    // A part of the bytes was written, and not all.
    ensures err { OnErr result ((n : ℕ) × (n < length bytes.now)
        × Appends (S.written sink.old) (S.written sink.new) (take n bytes.now)) }

    // One call failed where the answer is `Err`, and else none.
    ensures counted { S.failures sink.new ≡ S.failures sink.old + (if is_err result then 1 else 0) }
{
    let mut done = 0;
    while done < bytes.len() {
        let n = sink.write(&bytes[done..])?;
        if n == 0 {
            return Err(WriteFailed);
        }
        done += n;
    }
    Ok(())
}
