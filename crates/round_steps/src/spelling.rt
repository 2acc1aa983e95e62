//! What a line spells.

ghost use Rattle.std.specs.Prelude.{◌≡◌, ◌≢◌, ◌<◌, ◌++◌, ℕ, List, MatchOption};
ghost use Rattle.round_steps.specs.declared.step.Step.{Step};
ghost use Rattle.round_steps.specs.state.Spelling.{digit, two_bytes, Names, NamesBoth, Spells};

use crate::lines::cut;
use crate::step::Step;

/// The greatest number of a worker.
const LAST_WORKER: usize = 63;

fn digit_of(byte: u8) -> Option<usize>
    ensures { MatchOption result ((n : ℕ) → n < 10 → byte ≢ digit n) (λ n. (n < 10) × (byte ≡ digit n)) }
{
    match byte {
        b'0'..=b'9' => Some(usize::from(byte - b'0')),
        _ => None,
    }
}

/// The two bytes of a text, or its only one with a zero before it.
fn two_bytes(text: &[u8]) -> Option<(u8, u8)>
    ensures { result ≡ two_bytes text.now }
{
    match text {
        [ones] => Some((b'0', *ones)),
        [tens, ones] => Some((*tens, *ones)),
        _ => None,
    }
}

/// The worker whose number the text is.
fn worker_of(text: &[u8]) -> Option<usize>
    ensures { MatchOption result ((worker : ℕ) → Names text.now worker → ⊥) (Names text.now) }
{
    let (tens, ones) = two_bytes(text)?;
    let worker = 10 * digit_of(tens)? + digit_of(ones)?;
    if worker > LAST_WORKER {
        return None;
    }
    Some(worker)
}

/// The workers whose numbers the text is.
fn workers_of(text: &[u8]) -> Option<(usize, usize)>
    ensures { MatchOption result ((first second : ℕ) → NamesBoth text.now first second → ⊥)
        (λ both. NamesBoth text.now both.0 both.1) }
{
    let (first, second) = cut(text, b' ');
    let first = worker_of(first)?;
    let second = worker_of(second?)?;
    Some((first, second))
}

/// The rest of the line after the word with which it begins.
fn after_word<'a>(line: &'a [u8], word: &[u8]) -> Option<&'a [u8]>
    ensures { MatchOption result ((rest : List ℕ) → line.now ≢ word.now ++ rest)
        (λ rest. line.now ≡ word.now ++ rest.now) }
{
    line.strip_prefix(word)
}

/// The step that a line spells, if it spells one.
pub(crate) fn step_of(line: &[u8]) -> Option<Step>
    ensures { MatchOption result ((step : Step) → Spells line.now step → ⊥) (Spells line.now) }
{
    if let Some(worker) = after_word(line, b"pop ") {
        return Some(Step::Pop(worker_of(worker)?));
    }
    if let Some(worker) = after_word(line, b"update ") {
        return Some(Step::Update(worker_of(worker)?));
    }
    if let Some(worker) = after_word(line, b"enter ") {
        return Some(Step::Enter(worker_of(worker)?));
    }
    let (thief, owner) = workers_of(after_word(line, b"steal ")?)?;
    Some(Step::Steal { thief, owner })
}
