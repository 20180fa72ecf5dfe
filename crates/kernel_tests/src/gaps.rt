// The rows `-2 x0 + 3 x1 <= -4` and `3 x0 - x1 <= 10`, which leave `x0` a gap where `x1` has some values.
//
// They say that `x0` is at least (3 x1 + 4) / 2 and at most (10 + x1) / 3. Where `x1` is 1, these are 7/2 and 11/3; where it is 2, they
// are 5 and 4, and where it is -1, 1/2 and 3.
use crate::making::linear;
use lin_rows::Row;
use line_rows::splitting::{names_of_two, split_cause};
use proof_lines::Why;
use std::alloc::Global;
use std::process::Abort;

// What is told where the first of two rows is to give the lower bound of `x0`, and `x1` has this value.
fn cause(
    rt: &impl Abort,
    alloc: Global,
    low: &Row,
    high: &Row,
    value: i128,
    at: i128,
) -> Result<(), Why> {
    let names = names_of_two(alloc, 0, low, high).expect(rt, "memory");
    assert!(rt; names.as_slice() == [1].as_slice());
    let told = split_cause(0, &at, low, high, names.as_slice(), &[value]);
    drop(names);
    told
}

// The same of the two rows, and of the two rows exchanged.
fn both_ways(rt: &impl Abort, alloc: Global, value: i128, at: i128) -> [Result<(), Why>; 2] {
    let low = linear(rt, alloc, -2, 3, -4);
    let high = linear(rt, alloc, 3, -1, 10);
    let told = cause(rt, alloc, &low, &high, value, at);
    let exchanged = cause(rt, alloc, &high, &low, value, at);
    drop(low);
    drop(high);
    [told, exchanged]
}

const GREATEST: i128 = 170_141_183_460_469_231_731_687_303_715_884_105_727;

/// The value of `x1`, the number below the gap, and what is told.
static CASES: [(i128, i128, Result<(), Why>); 6] = [
    (1, 3, Ok(())),
    (1, 2, Err(Why::SplitCause)),
    (1, 4, Err(Why::SplitCause)),
    (2, 4, Err(Why::SplitCause)),
    // the lower bound lies in the gap, the upper one beyond it
    (-1, 0, Err(Why::SplitCause)),
    // three times that has no room
    (GREATEST, 0, Err(Why::Range)),
];

#[test]
fn rows_leave_a_gap_with_values_of_other_names(rt: HostRuntime) {
    for (value, at, want) in &CASES {
        let [told, exchanged] = both_ways(&rt, rt.alloc(), *value, *at);
        assert!(rt; told == *want && exchanged == Err(Why::SplitCause));
    }
}
