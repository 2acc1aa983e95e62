//! A line's fault as a text, whatever it says.

ghost use Rattle.json_fields.specs.state.Reading.{GivesExactly};
ghost use Rattle.json_lines.specs.state.Lines.{data_of};
ghost use Rattle.line_faults.specs.state.Text.{said_at};

use crate::fault::FaultKind;
use json_lines::TextLine;

/// Refuses a line that is too long or no JSON. It takes no memory.
pub fn check_text(line: &TextLine) -> Result<(), FaultKind>
    ensures { GivesExactly (λ u. u) result (said_at (data_of line.now)) }
{
    match line {
        TextLine::TooLong => Err(FaultKind::TooLong),
        TextLine::NotJson => Err(FaultKind::NotJson),
        TextLine::Blank | TextLine::Tick(_) | TextLine::Json(_) => Ok(()),
    }
}
