//! Reading a steps file.

ghost use Rattle.std.specs.Prelude.{◌<◌, ◌≤◌, ◌↔◌, ◌∷◌, ◌++◌, [], ℕ, List, IsTrue, IfOk, IfErr, IsErrOf, OnOk, length};
ghost use Rattle.round_steps.specs.state.Steps.{lines_of, longest_steps_file, most_steps, AreSteps, SaysBehind};
ghost use Rattle.round_steps.specs.state.Steps.{IsWithin, IsFaultOf, IsFaultyBehind, IsFirstFaultBy, Refuses};
ghost use Rattle.round_steps.specs.declared.fault.StepsFault.TheVariants.{Line};

use crate::fault::StepsFault;
use crate::lines::first_line;
use crate::spelling::step_of;
use crate::step::Step;
use lists::Sequence;
use std::alloc::Global;

/// The most bytes of a steps file, 1 MiB.
pub const LONGEST_STEPS_FILE: usize = 1_048_576;

/// The most steps of a steps file.
const MOST_STEPS: usize = 100_000;

/// Whether a step may follow this many.
fn has_room(steps: usize) -> bool
    ensures { IsTrue result ↔ (steps < most_steps) }
{
    steps < MOST_STEPS
}

/// What the line of this number gives after this many steps: nothing, or a step for which there is room; or that it is
/// faulty. Doesn't allocate.
fn said_by(steps: usize, number: u64, line: &[u8]) -> Result<Option<Step>, StepsFault>
    ensures { SaysBehind steps number line.now result }
{
    if line.is_empty() {
        return Ok(None);
    }
    match step_of(line) {
        Some(step) if has_room(steps) => Ok(Some(step)),
        _ => Err(StepsFault::Line(number)),
    }
}

/// Appends what a line gives to the steps. A faulty line is named before any allocation, and an empty one needs none.
fn take_line(steps: &mut Sequence<Step>, number: u64, line: &[u8]) -> Result<(), StepsFault>
    ensures ok { OnOk result ((lines : List (List ℕ)) → AreSteps lines steps.old
        → AreSteps (lines ++ line.now ∷ []) steps.new) }
    ensures err { IfErr result (IsFaultOf number line.now steps.old) }
    ensures faulty { IsFaultyBehind (length steps.old) line.now → IsErrOf result (Line number) }
{
    let Some(step) = said_by(steps.as_slice().len(), number, line)? else {
        return Ok(());
    };
    match steps.push(step) {
        Ok(()) => Ok(()),
        Err(_) => Err(StepsFault::OutOfMemory),
    }
}

fn read_lines(alloc: Global, text: &[u8]) -> Result<Sequence<Step>, StepsFault>
    requires { length text.now ≤ longest_steps_file }
    ensures ok { IfOk result (λ steps. AreSteps (lines_of text.now) steps) }
    ensures err { IfErr result (IsFirstFaultBy (lines_of text.now)) }
{
    let mut steps = Sequence::new(alloc);
    let mut rest = text;
    let mut number = 0u64;
    loop {
        let (line, behind) = first_line(rest);
        number += 1;
        take_line(&mut steps, number, line)?;
        let Some(behind) = behind else {
            return Ok(steps);
        };
        rest = behind;
    }
}

/// Whether the text is not too long. Doesn't allocate.
fn check_length(text: &[u8]) -> Result<(), StepsFault>
    ensures { IsWithin text.now result }
{
    if text.len() > LONGEST_STEPS_FILE {
        return Err(StepsFault::TooLong);
    }
    Ok(())
}

/// The steps of a text, line by line.
///
/// Returns `TooLong` if the text has more than 1 MiB, before any line is looked at, and `Line` with the first faulty
/// line. If an allocation fails, the answer is `OutOfMemory`; only steps need memory, so there is a step then, and no
/// line before it is faulty.
pub fn read_steps(alloc: Global, text: &[u8]) -> Result<Sequence<Step>, StepsFault>
    ensures ok { IfOk result (λ steps. (length text.now ≤ longest_steps_file) × AreSteps (lines_of text.now) steps) }
    ensures err { IfErr result (Refuses text.now) }
{
    check_length(text)?;
    read_lines(alloc, text)
}
