// Whether lines are those of a log that drop no clause.
ghost use Rattle.std.specs.Prelude.{◌≡◌, ◌∷◌, List, IsTrue, IfSome};
ghost use Rattle.proof_lines.specs.declared.line.Line.{Line as LogLine};
ghost use Rattle.lazy_logs.specs.Drops.{without_drops};

use proof_lines::{Line, Lit, RowStep};

fn same_lits(left: &[Lit], right: &[Lit]) -> bool
    ensures { IsTrue result → left.now ≡ right.now }
{
    left == right
}

fn same_steps(left: &[RowStep], right: &[RowStep]) -> bool
    ensures { IsTrue result → left.now ≡ right.now }
{
    left == right
}

// Whether two lines are the same. Of lines that are neither Resolve nor Farkas it isn't said.
fn same_line(one: &Line, other: &Line) -> bool
    ensures { IsTrue result → one.now ≡ other.now }
{
    match (one, other) {
        (
            Line::Resolve { left, right, pivot },
            Line::Resolve {
                left: other_left,
                right: other_right,
                pivot: other_pivot,
            },
        ) => *left == *other_left && *right == *other_right && *pivot == *other_pivot,
        (
            Line::Farkas { used, steps },
            Line::Farkas {
                used: other_used,
                steps: other_steps,
            },
        ) => {
            same_lits(used.as_slice(), other_used.as_slice())
                && same_steps(steps.as_slice(), other_steps.as_slice())
        }
        _ => false,
    }
}

// What is left of lines behind the next one of a log, where that is the first of them or drops clauses.
fn behind_line<'a>(rest: &'a [Line], line: &Line) -> Option<&'a [Line]>
    ensures { IfSome result (λ behind. (later : List LogLine) → behind.now ≡ without_drops later
        → rest.now ≡ without_drops (line.now ∷ later)) }
{
    if let Line::Drop { .. } = line {
        return Some(rest);
    }
    let (first, behind) = rest.split_first()?;
    if same_line(first, line) {
        Some(behind)
    } else {
        None
    }
}

/// Whether these are the lines of a log that drop no clause.
pub fn are_without_drops(own: &[Line], lines: &[Line]) -> bool
    ensures { IsTrue result → own.now ≡ without_drops lines.now }
{
    let mut rest = own;
    for line in lines {
        match behind_line(rest, line) {
            Some(behind) => rest = behind,
            None => return false,
        }
    }
    rest.is_empty()
}
