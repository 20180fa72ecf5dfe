// Steps over the rows `x0 - x1 <= 0`, row 0, and `-x0 + x1 <= -1`, row 1: whether the last row is a contradiction.
//
// Twice row 0 and row 1 are `x0 - x1 <= -1`, row 2, and with row 1 that is `0 <= -2`. The steps make a chain where each names no row of an
// earlier step but that before it; other lines keep the rows that are named later.
use crate::making::{FIRST, SECOND, row, rows};
use line_rows::kept::refutes_used;
use proof_lines::{LineRefused, RowStep, Why};
use std::alloc::Global;
use std::process::Abort;

macro_rules! step {
    ($left:expr, $first:expr, $right:expr, $second:expr) => {
        RowStep {
            left: $left,
            first: $first,
            right: $right,
            second: $second,
        }
    };
}

/// Steps, and what is told of them.
type Case = (&'static [RowStep], Result<bool, LineRefused>);

static CASES: [Case; 7] = [
    (&[step!(0, 2, 1, 1), step!(2, 1, 1, 1)], Ok(true)),
    // row 2 is no contradiction, nor is row 1
    (&[step!(0, 2, 1, 1)], Ok(false)),
    (&[], Ok(false)),
    // row 3 is `0 <= -1`, and row 2 is named after it
    (
        &[step!(0, 2, 1, 1), step!(0, 1, 1, 1), step!(2, 1, 1, 1)],
        Ok(true),
    ),
    (
        &[step!(0, 2, 1, 1), step!(0, 1, 1, 1), step!(2, 1, 3, 1)],
        Ok(false),
    ),
    // row 2 names itself
    (&[step!(0, 1, 2, 1)], Err(LineRefused::Bad(Why::Place))),
    (
        &[step!(0, -1, 1, 1)],
        Err(LineRefused::Bad(Why::Multiplier)),
    ),
];

fn told(rt: &impl Abort, alloc: Global, steps: &[RowStep]) -> Result<bool, LineRefused> {
    let first = row(rt, alloc, 1, -1, 0);
    let second = row(rt, alloc, -1, 1, -1);
    let problem = rows(rt, alloc, first, second);
    let told = refutes_used(alloc, problem.atoms.as_slice(), &[FIRST, SECOND], steps);
    drop(problem);
    told
}

#[test]
fn the_last_row_of_a_line_is_judged(rt: HostRuntime) {
    for (steps, want) in &CASES {
        let told = told(&rt, rt.alloc(), steps);
        assert!(rt; told == *want);
    }
}
