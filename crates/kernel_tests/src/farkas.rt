// Farkas lines over the rows `x0 <= 0` (atom 0) and `-x0 <= -1` (atom 1); atom 2 is plain.
use crate::making::{FIRST, NOT_FIRST, SECOND, answer, farkas, row, rows};
use proof_lines::{LineRefused, Lit, RowStep, Why};
use std::alloc::Global;
use std::process::Abort;

/// The used literals and the steps of a line, and the kernel's answer to it.
type Case = (&'static [Lit], &'static [RowStep], Result<(), LineRefused>);

const BOTH: &[Lit] = &[FIRST, SECOND];

/// A plain atom, and one that isn't there.
const PLAIN: &[Lit] = &[Lit {
    atom: 2,
    positive: true,
}];

const NOWHERE: &[Lit] = &[Lit {
    atom: 3,
    positive: true,
}];

macro_rules! step {
    ($left:expr, $first:expr, $right:expr, $second:expr) => {
        RowStep {
            left: $left,
            first: $first,
            right: $right,
            second: $second,
        }
    };
}

const GREATEST: i128 = 170_141_183_460_469_231_731_687_303_715_884_105_727;

static CASES: [Case; 11] = [
    // rows apart are refuted by their sum, and not by less
    (BOTH, &[step!(0, 1, 1, 1)], Ok(())),
    (BOTH, &[], Err(LineRefused::Bad(Why::Contradiction))),
    (
        BOTH,
        &[step!(0, 1, 0, 1)],
        Err(LineRefused::Bad(Why::Contradiction)),
    ),
    // places are tested first
    (&[], &[], Err(LineRefused::Bad(Why::Place))),
    (PLAIN, &[], Err(LineRefused::Bad(Why::Place))),
    (NOWHERE, &[], Err(LineRefused::Bad(Why::Place))),
    (
        BOTH,
        &[step!(0, 1, 2, 1)],
        Err(LineRefused::Bad(Why::Place)),
    ),
    // multipliers are tested before the range
    (
        BOTH,
        &[step!(0, -1, 1, 1)],
        Err(LineRefused::Bad(Why::Multiplier)),
    ),
    (
        BOTH,
        &[step!(0, 1, 1, -1)],
        Err(LineRefused::Bad(Why::Multiplier)),
    ),
    (BOTH, &[step!(0, GREATEST, 1, GREATEST)], Ok(())),
    (
        BOTH,
        &[step!(0, GREATEST, 1, GREATEST), step!(2, 1, 2, 1)],
        Err(LineRefused::Bad(Why::Range)),
    ),
];

fn told(
    rt: &impl Abort,
    alloc: Global,
    used: &[Lit],
    steps: &[RowStep],
) -> Result<(), LineRefused> {
    let apart = rows(
        rt,
        alloc,
        row(rt, alloc, 1, 0, 0),
        row(rt, alloc, -1, 0, -1),
    );
    let told = answer(rt, alloc, &apart, farkas(rt, alloc, used, steps));
    drop(apart);
    told
}

#[test]
fn farkas_lines_are_tested_in_order(rt: HostRuntime) {
    for (used, steps, want) in &CASES {
        let told = told(&rt, rt.alloc(), used, steps);
        assert!(rt; told == *want);
    }
}

/// The answer to a line that uses the negation of `x0 <= 2^127 - 1`.
fn of_greatest(rt: &impl Abort, alloc: Global) -> Result<(), LineRefused> {
    let greatest = rows(
        rt,
        alloc,
        row(rt, alloc, 1, 0, GREATEST),
        row(rt, alloc, -1, 0, -1),
    );
    let told = answer(rt, alloc, &greatest, farkas(rt, alloc, &[NOT_FIRST], &[]));
    drop(greatest);
    told
}

#[test]
fn the_opposite_of_a_row_may_leave_the_range(rt: HostRuntime) {
    let told = of_greatest(&rt, rt.alloc());
    assert!(rt; told == Err(LineRefused::Bad(Why::Range)));
}
