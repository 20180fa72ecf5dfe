// Split lines over the rows `2 x0 + 3 x1 <= 1` (atom 0) and `-2 x0 - 3 x1 <= -1` (atom 1). With 0 for `x1` they say that `x0` is
// at most and at least a half, so the atom `x0 <= 0` splits them.
use crate::making::{FIRST, SECOND, add, answer, items, row, rows};
use proof_kernel::Kernel;
use proof_lines::{Line, LineRefused, Lit, Problem, RowStep, Why};
use std::alloc::Global;
use std::process::Abort;

fn half(rt: &impl Abort, alloc: Global) -> Problem {
    rows(
        rt,
        alloc,
        row(rt, alloc, 2, 3, 1),
        row(rt, alloc, -2, -3, -1),
    )
}

/// The numbers of a Split line.
#[derive(Clone, Copy)]
struct Numbers {
    place: u32,
    at: i128,
    low: u32,
    high: u32,
    value: i128,
}

macro_rules! numbers {
    ($place:expr, $at:expr, $low:expr, $high:expr, $value:expr) => {
        Numbers {
            place: $place,
            at: $at,
            low: $low,
            high: $high,
            value: $value,
        }
    };
}

/// A line, and the kernel's answer to it.
type Case = (
    Numbers,
    &'static [Lit],
    &'static [RowStep],
    Result<(), LineRefused>,
);

const GOOD: Numbers = numbers!(0, 0, 1, 0, 0);

const BOTH: &[Lit] = &[FIRST, SECOND];

const GREATEST: i128 = 170_141_183_460_469_231_731_687_303_715_884_105_727;

static CASES: [Case; 11] = [
    (GOOD, BOTH, &[], Ok(())),
    // places of the name and of the rows
    (
        numbers!(2, 0, 1, 0, 0),
        BOTH,
        &[],
        Err(LineRefused::Bad(Why::Place)),
    ),
    (
        numbers!(0, 0, 2, 0, 0),
        BOTH,
        &[],
        Err(LineRefused::Bad(Why::Place)),
    ),
    (
        numbers!(0, 0, 1, 2, 0),
        BOTH,
        &[],
        Err(LineRefused::Bad(Why::Place)),
    ),
    (GOOD, &[], &[], Err(LineRefused::Bad(Why::Place))),
    // the rows leave no gap there: the other way round, at another number, with another value
    (
        numbers!(0, 0, 0, 1, 0),
        BOTH,
        &[],
        Err(LineRefused::Bad(Why::SplitCause)),
    ),
    (
        numbers!(0, 1, 1, 0, 0),
        BOTH,
        &[],
        Err(LineRefused::Bad(Why::SplitCause)),
    ),
    (
        numbers!(0, 0, 1, 0, 1),
        BOTH,
        &[],
        Err(LineRefused::Bad(Why::SplitCause)),
    ),
    (
        numbers!(0, -2, 1, 0, 1),
        BOTH,
        &[],
        Err(LineRefused::Bad(Why::SplitCause)),
    ),
    (
        numbers!(0, 0, 1, 0, GREATEST),
        BOTH,
        &[],
        Err(LineRefused::Bad(Why::Range)),
    ),
    // steps
    (
        GOOD,
        BOTH,
        &[RowStep {
            left: 0,
            first: -1,
            right: 1,
            second: 1,
        }],
        Err(LineRefused::Bad(Why::Multiplier)),
    ),
];

fn split(
    rt: &impl Abort,
    alloc: Global,
    numbers: &Numbers,
    used: &[Lit],
    steps: &[RowStep],
) -> Line {
    Line::Split {
        place: numbers.place,
        at: numbers.at,
        used: items(rt, alloc, used),
        steps: items(rt, alloc, steps),
        low: numbers.low,
        high: numbers.high,
        values: items(rt, alloc, &[numbers.value]),
    }
}

fn told(
    rt: &impl Abort,
    alloc: Global,
    numbers: &Numbers,
    used: &[Lit],
    steps: &[RowStep],
) -> Result<(), LineRefused> {
    let problem = half(rt, alloc);
    let told = answer(rt, alloc, &problem, split(rt, alloc, numbers, used, steps));
    drop(problem);
    told
}

#[test]
fn split_lines_are_tested_in_order(rt: HostRuntime) {
    for (numbers, used, steps, want) in &CASES {
        let told = told(&rt, rt.alloc(), numbers, used, steps);
        assert!(rt; told == *want);
    }
}

/// The answers to the good line and to the same line again, and how many atoms and clauses stand between.
fn split_twice(rt: &impl Abort, alloc: Global) -> ([Result<(), LineRefused>; 2], (u32, u32)) {
    let mut kernel = Kernel::new(alloc, half(rt, alloc)).expect(rt, "memory");
    let first = add(&mut kernel, split(rt, alloc, &GOOD, BOTH, &[]));
    let counts = (kernel.atom_count(), kernel.clause_count());
    let second = add(&mut kernel, split(rt, alloc, &GOOD, BOTH, &[]));
    drop(kernel);
    ([first, second], counts)
}

#[test]
fn a_gap_is_split_once(rt: HostRuntime) {
    let (told, counts) = split_twice(&rt, rt.alloc());
    assert!(rt; told == [Ok(()), Err(LineRefused::Bad(Why::SplitAgain))]);
    assert!(rt; counts == (4, 0));
}
