//! The lines of a text that are read together.

ghost use Rattle.std.specs.Prelude.{◌≡◌, ◌<◌, ◌≤◌, ◌+◌, ◌++◌, length, map, IfOk};
ghost use Rattle.json_lines.specs.rule.Lines.{lines_of};

use crate::lines::{first_line, is_blank};
use crate::tape::LONGEST_TAPE;
use memchr::memmem::find;
use std::alloc::{AllocError, Global};

/// Lines about a pod itself mostly have one of these words near their beginning.
const WORDS_OF_PODS: [&[u8]; 2] = [b"\"metadata\"", b"\"gone\""];

/// Tick lines have this word, mostly near their beginning.
const WORD_OF_TICKS: &[u8] = b"\"tick\"";

/// This many bytes are near the beginning of a line.
const BEGINNING: usize = 128;

/// Lines are read together up to this many blank ones in a row: the blank ones after them can be skipped unread.
const MOST_BLANKS: usize = 1024;

/// Lines of trees are read together up to this many bytes, 1 MiB, and the end of the last one.
const MOST_OF_TREES: usize = 1_048_576;

/// What a line seems to be. Nothing rests on it but how many lines are read together.
#[derive(Clone, Copy)]
enum Looks {
    /// Blank, and short: a long line is searched only where it is read.
    Blank,
    /// A line of which a tree stays until its turn has come: one about a pod itself or one between lines that are no
    /// ticks, or one that is too long for a tape.
    OfTree,
    Other,
}

/// Whether a line has the word of ticks.
pub(crate) fn names_ticks(line: &[u8]) -> bool {
    find(line, WORD_OF_TICKS).is_some()
}

/// Whether a line that is not blank looks like one about a pod itself, or like one of no kind.
fn looks_of_pod(line: &[u8]) -> bool {
    let beginning = &line[..line.len().min(BEGINNING)];
    if names_ticks(beginning) {
        return false;
    }
    for word in WORDS_OF_PODS {
        if find(beginning, word).is_some() {
            return true;
        }
    }
    !names_ticks(line)
}

fn looks_of(line: &[u8]) -> Looks {
    if line.len() <= BEGINNING && is_blank(line) {
        Looks::Blank
    } else if line.len() > LONGEST_TAPE || looks_of_pod(line) {
        Looks::OfTree
    } else {
        Looks::Other
    }
}

/// The next lines, of at least this many bytes with their newlines if there are this many, and the text after them.
/// There may be fewer: this many lines at most, and none after lines of trees, which are about pods or very long, after
/// 1 MiB of these, or after many blank ones. No clause promises how many there are, except that there are no more than
/// asked for.
pub fn next_tick_lines(
    alloc: Global,
    text: &[u8],
    bytes: usize,
    most: usize,
) -> Result<(Vec<&[u8]>, &[u8]), AllocError>
    requires bytes { 0 < bytes }
    requires most { 0 < most }
    ensures lines { IfOk result (λ p. lines_of text.now ≡ map (λ line. line.now) p.0.items ++ lines_of p.1.now) }
    ensures shorter { 0 < length text.now → IfOk result (λ p. length p.1.now < length text.now) }
    ensures few { IfOk result (λ p. length p.0.items + length p.1.now ≤ length text.now) }
    ensures most { IfOk result (λ p. length p.0.items ≤ most) }
{
    let mut found = Vec::new(alloc);
    let mut rest = text;
    let mut blanks = 0;
    let mut of_trees = 0;
    while text.len() - rest.len() < bytes
        && found.len() < most
        && blanks < MOST_BLANKS
        && of_trees < MOST_OF_TREES
    {
        let Some((line, after)) = first_line(rest) else {
            return Ok((found, rest));
        };
        match looks_of(line) {
            Looks::Blank => blanks += 1,
            Looks::OfTree => {
                blanks = 0;
                of_trees += rest.len() - after.len();
            }
            Looks::Other if of_trees > 0 => return Ok((found, rest)),
            Looks::Other => blanks = 0,
        }
        found.push(line)?;
        rest = after;
    }
    Ok((found, rest))
}
