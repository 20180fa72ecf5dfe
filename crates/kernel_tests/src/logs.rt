// Logs over plain clauses: Resolve and Drop lines.
use crate::making::{FIRST, NOT_FIRST, NOT_SECOND, SECOND, Short, add, line, log_of, plain};
use proof_kernel::{Checked, Kernel, KernelRefused, check_lines, check_log};
use proof_lines::{LineRefused, Lit, Problem, Why};
use std::alloc::Global;
use std::process::Abort;

/// One plain atom and the clauses `+0` and `-0`.
fn opposites(rt: &impl Abort, alloc: Global) -> Problem {
    plain(rt, alloc, 1, &[&[FIRST], &[NOT_FIRST]])
}

/// A kernel before the first line of a log over them.
fn begun(rt: &impl Abort, alloc: Global) -> Kernel {
    Kernel::new(alloc, opposites(rt, alloc)).expect(rt, "memory")
}

/// A log, and the answer to it.
type Case = (&'static [Short], Result<Checked, KernelRefused>);

static CASES: [Case; 5] = [
    (&[Short::Resolve(0, 1, 0)], Ok(Checked { lines: 1 })),
    (&[], Err(KernelRefused::NoEmptyClause)),
    (
        &[Short::Resolve(0, 1, 1)],
        Err(KernelRefused::BadLine {
            line: 0,
            why: Why::Place,
        }),
    ),
    (
        &[Short::Resolve(0, 2, 0)],
        Err(KernelRefused::BadLine {
            line: 0,
            why: Why::Place,
        }),
    ),
    (
        &[Short::Resolve(0, 0, 0)],
        Err(KernelRefused::BadLine {
            line: 0,
            why: Why::Pivot,
        }),
    ),
];

fn judged(rt: &impl Abort, alloc: Global, lines: &[Short]) -> Result<Checked, KernelRefused> {
    let problem = opposites(rt, alloc);
    let log = log_of(rt, alloc, lines);
    let told = check_log(alloc, &problem, log.as_slice());
    drop(log);
    drop(problem);
    told
}

#[test]
fn logs_of_opposite_clauses_are_judged(rt: HostRuntime) {
    for (lines, want) in &CASES {
        let told = judged(&rt, rt.alloc(), lines);
        assert!(rt; told == *want);
    }
}

static CHAIN: &[&[Lit]] = &[&[FIRST], &[NOT_FIRST, SECOND], &[NOT_SECOND]];

/// How many lines of a log over the clauses `+0`, `-0 +1` and `-1` are accepted.
fn accepted(rt: &impl Abort, alloc: Global, lines: &[Short]) -> Option<u32> {
    let problem = plain(rt, alloc, 2, CHAIN);
    let log = log_of(rt, alloc, lines);
    let told = check_log(alloc, &problem, log.as_slice());
    drop(log);
    drop(problem);
    told.ok().map(|checked| checked.lines)
}

#[test]
fn clauses_may_be_dropped_behind_the_line_that_names_them_last(rt: HostRuntime) {
    let plain = [Short::Resolve(0, 1, 0), Short::Resolve(3, 2, 1)];
    let dropping = [
        Short::Resolve(0, 1, 0),
        Short::Drop(&[0, 1]),
        Short::Resolve(3, 2, 1),
        Short::Drop(&[2, 3]),
    ];
    assert!(rt; accepted(&rt, rt.alloc(), &plain) == Some(2));
    assert!(rt; accepted(&rt, rt.alloc(), &dropping) == Some(4));
}

/// Two plain atoms and the clauses `+0 +1` and `-0 +1`.
fn joined(rt: &impl Abort, alloc: Global) -> Problem {
    plain(rt, alloc, 2, &[&[FIRST, SECOND], &[NOT_FIRST, SECOND]])
}

/// Whether a log that resolves those clauses some times is fresh and as long as a budget.
fn spent(
    rt: &impl Abort,
    alloc: Global,
    lines: &[Short],
    budget: u32,
) -> Result<(), KernelRefused> {
    let problem = joined(rt, alloc);
    let log = log_of(rt, alloc, lines);
    let told = check_lines(alloc, &problem, log.as_slice(), budget);
    drop(log);
    drop(problem);
    told
}

/// No evidence behind so many lines.
fn missing(line: u32) -> Result<(), KernelRefused> {
    Err(KernelRefused::BadLine {
        line,
        why: Why::Evidence,
    })
}

#[test]
fn a_fresh_log_of_the_budget_is_evidence(rt: HostRuntime) {
    let once = &[Short::Resolve(0, 1, 0)];
    let twice = &[Short::Resolve(0, 1, 0), Short::Resolve(0, 1, 0)];
    let told = [
        spent(&rt, rt.alloc(), once, 1),
        spent(&rt, rt.alloc(), once, 2),
        spent(&rt, rt.alloc(), twice, 2),
    ];
    assert!(rt; told == [Ok(()), missing(1), missing(2)]);
}

/// What a kernel says behind some lines: how many clauses there are and how many live, and whether the log is fresh and has the empty
/// clause.
type Says = (u32, u32, bool, bool);

/// Lines with the answer to each, and what the kernel says behind them.
type Run = (&'static [(Short, Result<(), LineRefused>)], Says);

const GONE: Result<(), LineRefused> = Err(LineRefused::Bad(Why::Dropped));

const PLACE: Result<(), LineRefused> = Err(LineRefused::Bad(Why::Place));

static RUNS: &[Run] = &[
    // a clause is dropped, dropped again and named
    (
        &[
            (Short::Drop(&[1]), Ok(())),
            (Short::Drop(&[1]), GONE),
            (Short::Resolve(0, 1, 0), GONE),
        ],
        (2, 1, false, false),
    ),
    // a number names nothing, there is none, and one stands twice
    (
        &[
            (Short::Drop(&[0, 2]), PLACE),
            (Short::Drop(&[]), PLACE),
            (Short::Drop(&[1, 0, 1]), GONE),
        ],
        (2, 2, true, false),
    ),
    // an empty clause that is dropped counts
    (
        &[
            (Short::Resolve(0, 1, 0), Ok(())),
            (Short::Drop(&[2]), Ok(())),
        ],
        (3, 2, false, true),
    ),
];

/// What a kernel over opposite clauses says behind some lines, which it has to answer so.
fn said_behind(rt: &impl Abort, alloc: Global, lines: &[(Short, Result<(), LineRefused>)]) -> Says {
    let mut kernel = begun(rt, alloc);
    for (short, want) in lines {
        let told = add(&mut kernel, line(rt, alloc, *short));
        assert!(rt; told == *want);
    }
    let says = (
        kernel.clause_count(),
        kernel.live_count(),
        kernel.all_fresh(),
        kernel.has_empty(),
    );
    drop(kernel);
    says
}

#[test]
fn clauses_are_dropped_once(rt: HostRuntime) {
    for (lines, want) in RUNS {
        let says = said_behind(&rt, rt.alloc(), lines);
        assert!(rt; says == *want);
    }
}

/// Whether there is an empty clause before and after a kernel begins anew, and how many atoms and clauses there are then.
fn anew(rt: &impl Abort, alloc: Global) -> ([bool; 2], (u32, u32)) {
    let mut kernel = begun(rt, alloc);
    let resolvent = line(rt, alloc, Short::Resolve(0, 1, 0));
    add(&mut kernel, resolvent).expect(rt, "a resolvent");
    let before = kernel.has_empty();
    kernel.restart(joined(rt, alloc)).expect(rt, "memory");
    let after = kernel.has_empty();
    let counts = (kernel.atom_count(), kernel.clause_count());
    drop(kernel);
    ([before, after], counts)
}

#[test]
fn a_kernel_begins_anew(rt: HostRuntime) {
    let (empty, counts) = anew(&rt, rt.alloc());
    assert!(rt; empty == [true, false]);
    assert!(rt; counts == (2, 2));
}
