// Whether the lines of a log name and drop clauses that are left.
ghost use Rattle.std.specs.Prelude.{◌≡◌, Some, IfOk, IsTrue};
ghost use Rattle.lazy_logs.specs.Drops.{is_left, after_drop, after_line, DropsWell};

use proof_lines::Line;
use std::alloc::{AllocError, Global};

fn is_left(left: &[bool], number: u32) -> bool
    ensures { result ≡ is_left left.now number }
{
    match left.get(number as usize) {
        Some(is) => *is,
        None => false,
    }
}

// Drops clauses, while each is left.
fn drop_all(left: &mut Vec<bool>, numbers: &[u32]) -> bool
    ensures { IsTrue result → after_drop left.old.items numbers.now ≡ Some left.new.items }
{
    for number in numbers {
        if !is_left(left.as_slice(), *number) {
            return false;
        }
        left[*number as usize] = false;
    }
    true
}

// Notes a line, and answers whether it names and drops clauses that are left. Of a line that gives no clause but an atom it isn't said.
fn take_line(left: &mut Vec<bool>, line: &Line) -> Result<bool, AllocError>
    ensures { IfOk result
        (λ b. IsTrue b → after_line left.old.items line.now ≡ Some left.new.items) }
{
    match line {
        Line::Resolve {
            left: one,
            right: other,
            ..
        } => {
            if !is_left(left.as_slice(), *one) || !is_left(left.as_slice(), *other) {
                return Ok(false);
            }
            left.push(true)?;
            Ok(true)
        }
        Line::Farkas { .. } => {
            left.push(true)?;
            Ok(true)
        }
        Line::Split { .. } => Ok(false),
        Line::Drop { clauses } => Ok(!clauses.is_empty() && drop_all(left, clauses.as_slice())),
    }
}

/// Whether each line of a log names and drops clauses that are left by then, where the problem has so many.
pub fn drops_well(alloc: Global, many: usize, lines: &[Line]) -> Result<bool, AllocError>
    ensures { IfOk result (λ b. IsTrue b → DropsWell many lines.now) }
{
    let mut left = vec![in alloc; true; many]?;
    for line in lines {
        if !take_line(&mut left, line)? {
            return Ok(false);
        }
    }
    Ok(true)
}
