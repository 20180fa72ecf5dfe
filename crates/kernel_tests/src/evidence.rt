// The evidence of undecided verdicts: too many rows, and numbers beyond the range.
use crate::making::{FIRST, SECOND, items, many_rows, row, rows};
use items::Items;
use proof_kernel::{Kernel, KernelRefused, check_range, check_rows};
use proof_lines::{Lit, Problem, RangeEvidence, RangeWhat, RowsEvidence, Why};
use std::alloc::Global;
use std::process::Abort;

const BOTH: &[Lit] = &[FIRST, SECOND];

const MISSING: Result<(), KernelRefused> = Err(KernelRefused::BadLine {
    line: 0,
    why: Why::Evidence,
});

fn told_rows(
    rt: &impl Abort,
    alloc: Global,
    problem: &Problem,
    used: &[Lit],
) -> Result<(), KernelRefused> {
    let evidence = RowsEvidence {
        log: Items::new(alloc),
        used: items(rt, alloc, used),
        steps: Items::new(alloc),
    };
    let told = check_rows(alloc, problem, &evidence);
    drop(evidence);
    told
}

fn told_range(
    rt: &impl Abort,
    alloc: Global,
    problem: &Problem,
    used: &[Lit],
    what: RangeWhat,
) -> Result<(), KernelRefused> {
    let evidence = RangeEvidence {
        log: Items::new(alloc),
        used: items(rt, alloc, used),
        steps: Items::new(alloc),
        what,
    };
    let told = check_range(alloc, problem, &evidence);
    drop(evidence);
    told
}

fn product() -> RangeWhat {
    RangeWhat::Product {
        left: 0,
        right: 1,
        place: 0,
    }
}

/// The rows `x0 <= 0` and `-x0 <= 0`.
fn touching(rt: &impl Abort, alloc: Global) -> Problem {
    rows(rt, alloc, row(rt, alloc, 1, 0, 0), row(rt, alloc, -1, 0, 0))
}

fn of_small_rows(rt: &impl Abort, alloc: Global) -> [Result<(), KernelRefused>; 2] {
    let problem = touching(rt, alloc);
    let told = [
        told_rows(rt, alloc, &problem, &[]),
        told_range(rt, alloc, &problem, BOTH, product()),
    ];
    drop(problem);
    told
}

#[test]
fn small_rows_are_no_evidence(rt: HostRuntime) {
    let told = of_small_rows(&rt, rt.alloc());
    assert!(rt; told == [MISSING, MISSING]);
}

fn seen_in_small_rows(rt: &impl Abort, alloc: Global) -> [bool; 2] {
    let kernel = Kernel::new(alloc, touching(rt, alloc)).expect(rt, "memory");
    let what = product();
    let seen = [
        kernel.rows_hold(&[], &[]).expect(rt, "memory"),
        kernel.range_holds(BOTH, &[], &what).expect(rt, "memory"),
    ];
    drop(what);
    drop(kernel);
    seen
}

#[test]
fn a_kernel_sees_none_in_small_rows(rt: HostRuntime) {
    let seen = seen_in_small_rows(&rt, rt.alloc());
    assert!(rt; seen == [false, false]);
}

/// The rows `x0 + 2^126 x1 <= 0` and `-3 x0 + 2^126 x1 <= 0`, whose sum without `x0` has the coefficient 2^128.
fn great(rt: &impl Abort, alloc: Global) -> Problem {
    let much = 1 << 126;
    rows(
        rt,
        alloc,
        row(rt, alloc, 1, much, 0),
        row(rt, alloc, -3, much, 0),
    )
}

/// Putting a value for `x1` into the first row.
fn with_value(rt: &impl Abort, alloc: Global, value: i128) -> RangeWhat {
    RangeWhat::Sum {
        row: 0,
        place: 0,
        values: items(rt, alloc, &[value]),
    }
}

/// The sum of both rows, and the first row with 4 for `x1` and with 1.
fn of_great_rows(rt: &impl Abort, alloc: Global) -> [Result<(), KernelRefused>; 3] {
    let problem = great(rt, alloc);
    let told = [
        told_range(rt, alloc, &problem, BOTH, product()),
        told_range(rt, alloc, &problem, &[FIRST], with_value(rt, alloc, 4)),
        told_range(rt, alloc, &problem, &[FIRST], with_value(rt, alloc, 1)),
    ];
    drop(problem);
    told
}

// Four times 2^126 leaves the range of a row, and 2^126 doesn't.
#[test]
fn a_sum_and_a_product_beyond_the_range_are_evidence(rt: HostRuntime) {
    let told = of_great_rows(&rt, rt.alloc());
    assert!(rt; told == [Ok(()), Ok(()), MISSING]);
}

fn many_lits(rt: &impl Abort, alloc: Global, count: u32) -> Vec<Lit> {
    let mut lits = Vec::new(alloc);
    for atom in 0..count {
        lits.push(Lit {
            atom,
            positive: true,
        })
        .expect(rt, "memory");
    }
    lits
}

fn of_many_rows(rt: &impl Abort, alloc: Global, count: u32) -> Result<(), KernelRefused> {
    let problem = many_rows(rt, alloc, count);
    let used = many_lits(rt, alloc, count);
    let told = told_rows(rt, alloc, &problem, used.as_slice());
    drop(used);
    drop(problem);
    told
}

#[test]
fn ten_thousand_rows_are_evidence(rt: HostRuntime) {
    let told = of_many_rows(&rt, rt.alloc(), 10_000);
    assert!(rt; told == Ok(()));
}
