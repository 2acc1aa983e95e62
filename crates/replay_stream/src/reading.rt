//! Reading a whole input.

ghost use Rattle.std.specs.Prelude.{◌≡◌, ℕ, List, ◌+◌, ◌^◌, ◌<◌, ◌≤◌, IfOk, OnOk, IfSome, IsErrOf, length};
ghost use Rattle.std.specs.Io.KnownBytes.{Consumes, IsAtEnd};
ghost use Rattle.replay_stream.specs.state.Reading.{failed_reads};

use crate::fault::{ReadAllFault, ReadFailed};
use crate::stream::Source;
use std::alloc::Global;

/// This many bytes are asked for in one call, 64 KiB.
const PIECE: usize = 65_536;

/// All bytes that were left, of which there may be `limit`.
///
/// `Read` comes only where the reader failed in this call, and `TooLong` only where more than
/// `limit` bytes were left; without memory for the bytes the answer is `OutOfMemory`, and no byte past
/// the limit was taken. After a refusal the reader has lost some of its bytes.
pub fn read_all<S: Source>(
    alloc: Global,
    source: &mut S,
    limit: usize,
) -> Result<Vec<u8>, ReadAllFault>
    requires few { S.failures source.old < 2 ^ 63 }
    ensures ok { IfOk result (λ v. IfSome (S.left source.old) (λ bytes. v.items ≡ bytes)) }
    ensures limited { IfOk result (λ v. length v.items ≤ limit) }
    ensures end { OnOk result (IsAtEnd (S.left source.new)) }
    ensures too_long { IsErrOf result ReadAllFault.TooLong
        → IfSome (S.left source.old) (λ bytes. limit < length bytes) }

    // Where memory lacks, the bytes that were taken are within the limit.
    ensures no_memory { IsErrOf result ReadAllFault.OutOfMemory → (front : List ℕ) × (length front ≤ limit)
        × Consumes (S.left source.old) (S.left source.new) front }

    // The reader failed once where the answer is `Read`, and else not at all.
    ensures counted { S.failures source.new ≡ S.failures source.old + failed_reads result }

    // What is left is the end of what was left.
    ensures rest { (front : List ℕ) × Consumes (S.left source.old) (S.left source.new) front }
{
    let mut all = Vec::new(alloc);
    let mut buffer = [0u8; PIECE];
    loop {
        let n = match source.read(&mut buffer) {
            Ok(n) => n,
            Err(ReadFailed) => return Err(ReadAllFault::Read),
        };
        if n == 0 {
            return Ok(all);
        }
        if n > limit - all.len() {
            return Err(ReadAllFault::TooLong);
        }
        if all.extend_from_slice(&buffer[..n]).is_err() {
            return Err(ReadAllFault::OutOfMemory);
        }
    }
}
