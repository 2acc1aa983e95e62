//! Why a replay failed.

ghost use Rattle.std.specs.Prelude.{◌≡◌, Some, IfOk, MatchResult, string_bytes};
ghost use Rattle.kubelet_replay.specs.declared.fault.RunFault.TheVariants.{Line};
ghost use Rattle.kubelet_replay.specs.state.Fault.{status, reason_of, line_text, with_reason, line_of_kind, line_of};

use std::alloc::{AllocError, Global};
use thiserror::Error;
use trace::{FaultKind, LineFault};

/// Why a replay wrote no whole report.
#[derive(Clone, Copy, Debug, PartialEq, Eq, Error)]
pub enum RunFault {
    /// The reader failed.
    #[error("read failed")]
    Read,
    /// The input has more than 64 MiB.
    #[error("input too long")]
    TooLong,
    /// The input is no trace.
    #[error("{0}")]
    Line(LineFault),
    /// An allocation failed.
    #[error("out of memory")]
    OutOfMemory,
    /// The writer failed, or took nothing.
    #[error("write failed")]
    Write,
}

/// The status with which the program ends: 1 for input, output and memory, and 2 for a text that is
/// no trace.
pub fn status_of(fault: &RunFault) -> u8
    ensures { result ≡ status fault.now }
{
    match fault {
        RunFault::Line(_) => 2,
        RunFault::Read | RunFault::TooLong | RunFault::OutOfMemory | RunFault::Write => 1,
    }
}

/// Why the manifest was rejected, if it was.
fn reason_of(kind: FaultKind) -> Option<u8>
    ensures { result ≡ reason_of kind }
{
    match kind {
        FaultKind::Manifest(fault) => Some(fault.number()),
        _ => None,
    }
}

fn line_text(alloc: Global, line: u64, number: u8, word: &str) -> Result<String, AllocError>
    ensures { IfOk result (λ text. string_bytes text ≡ line_text line number word.now) }
{
    format!(in alloc; "line {line}: {number} {word}")
}

fn with_reason(alloc: Global, text: &str, reason: u8) -> Result<String, AllocError>
    ensures { IfOk result (λ line. string_bytes line ≡ with_reason text.now (Some reason)) }
{
    format!(in alloc; "{text} {reason}")
}

fn line_of_kind(alloc: Global, line: u64, kind: FaultKind) -> Result<String, AllocError>
    ensures { IfOk result (λ text. string_bytes text ≡ line_of_kind line kind) }
{
    let text = line_text(alloc, line, kind.number(), kind.word())?;
    match reason_of(kind) {
        None => Ok(text),
        Some(reason) => with_reason(alloc, text.as_str(), reason),
    }
}

/// The fault of a line of the input; else the words of any other fault, without an allocation.
fn named_line(fault: &RunFault) -> Result<LineFault, &'static str>
    ensures { MatchResult result (λ named. fault.now ≡ Line named) (λ words. line_of fault.now ≡ words.now) }
{
    match fault {
        RunFault::Read => Err("read failed"),
        RunFault::TooLong => Err("input too long"),
        RunFault::Line(fault) => Ok(*fault),
        RunFault::OutOfMemory => Err("out of memory"),
        RunFault::Write => Err("write failed"),
    }
}

/// The line that the program writes on standard error, without its newline.
pub fn fault_line(alloc: Global, fault: &RunFault) -> Result<String, AllocError>
    ensures { IfOk result (λ text. string_bytes text ≡ line_of fault.now) }
{
    match named_line(fault) {
        Ok(fault) => line_of_kind(alloc, fault.line, fault.kind),
        Err(words) => String::from_str(alloc, words),
    }
}
