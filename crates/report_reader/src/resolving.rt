// The lines of a log that resolve two clauses, which most lines are: read without what other lines need.

ghost use Rattle.std.specs.Prelude.{◌≡◌, Bool, Some, IfOk, IsTrue, false};
ghost use Rattle.proof_lines.specs.declared.line.Line.TheVariants.{Resolve};
ghost use Rattle.proof_report.specs.{declared.event.Event.TheVariants.{Log}, Feeding.{log_line}};
ghost use Rattle.report_lines.specs.{Formats.{read as read_as}, Words.{parts}};
ghost use Rattle.report_reader.specs.Resolving.{IsOneLess};

use crate::plain::{behind_key, last_number, number_before};
use proof_report::place::Place;
use report_lines::words::ReadError;

/// A line of a log that gives the resolvent of two clauses over the atom `pivot`.
#[derive(Clone, Copy)]
pub struct ResolveLine {
    pub left: u32,
    pub right: u32,
    pub pivot: u32,
}

/// The line that a text is, if it resolves two clauses. It may stand in each log.
#[tactic(auto, using(crate::proofs::ResolveLines::resolve_read))]
#[inline(always)]
pub fn resolve_line(text: &[u8]) -> Result<ResolveLine, ReadError>
    ensures { IfOk result (λ x. (drops : Bool)
        → read_as (log_line drops) (parts text.now) ≡ Some (Log (Resolve x.left x.right x.pivot))) }
{
    let Some(rest) = behind_key(text) else {
        return Err(ReadError::Form);
    };
    let Some((left, rest)) = number_before(rest) else {
        return Err(ReadError::Form);
    };
    let Some((right, rest)) = number_before(rest) else {
        return Err(ReadError::Form);
    };
    let Some(pivot) = last_number(rest) else {
        return Err(ReadError::Form);
    };
    Ok(ResolveLine { left, right, pivot })
}

/// Counts a line of a log, unless it is the last one, or no log is there.
pub fn count_down(place: &mut Place) -> bool
    ensures down { IsTrue result → IsOneLess place.old place.new }
    ensures same { result ≡ false → place.new ≡ place.old }
{
    if let Place::Log(_, lines) = place {
        if *lines > 1 {
            *lines -= 1;
            return true;
        }
    }
    false
}
