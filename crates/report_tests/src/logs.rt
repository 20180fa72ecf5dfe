// Upgraded logs: where the clauses of a log are dropped, and that an upgraded log is upgraded already.
use items::Items;
use proof_lines::{Line, Lit};
use report_upgrader::upgrade_log;
use std::alloc::Global;
use std::process::Abort;

/// A line of a log in short. Farkas and Split lines use one literal and have no steps.
#[derive(Clone, Copy)]
enum Short {
    Resolve(u32, u32, u32),
    Farkas,
    Split,
    Drop(&'static [u32]),
}

const USED: Lit = Lit {
    atom: 0,
    positive: true,
};

/// A line in full.
fn line(rt: &impl Abort, alloc: Global, short: Short) -> Line {
    match short {
        Short::Resolve(left, right, pivot) => Line::Resolve { left, right, pivot },
        Short::Farkas => Line::Farkas {
            used: Items::from_slice(alloc, &[USED]).expect(rt, "memory"),
            steps: Items::new(alloc),
        },
        Short::Split => Line::Split {
            place: 0,
            at: 0,
            used: Items::from_slice(alloc, &[USED]).expect(rt, "memory"),
            steps: Items::new(alloc),
            low: 0,
            high: 0,
            values: Items::new(alloc),
        },
        Short::Drop(numbers) => Line::Drop {
            clauses: Items::from_slice(alloc, numbers).expect(rt, "memory"),
        },
    }
}

/// A log in full.
fn log_of(rt: &impl Abort, alloc: Global, lines: &[Short]) -> Items<Line> {
    let mut log = Items::new(alloc);
    for short in lines {
        log.push(line(rt, alloc, *short)).expect(rt, "memory");
    }
    log
}

/// Whether a line is the one that is meant.
fn is_line(line: &Line, short: Short) -> bool {
    match (line, short) {
        (Line::Resolve { left, right, pivot }, Short::Resolve(a, b, c)) => {
            *left == a && *right == b && *pivot == c
        }
        (Line::Farkas { .. }, Short::Farkas) => true,
        (Line::Split { .. }, Short::Split) => true,
        (Line::Drop { clauses }, Short::Drop(numbers)) => clauses.as_slice() == numbers,
        _ => false,
    }
}

/// Whether a log is the one that is meant.
fn is_log(log: &[Line], lines: &[Short]) -> bool {
    if log.len() != lines.len() {
        return false;
    }
    for i in 0..log.len() {
        if !is_line(&log[i], lines[i]) {
            return false;
        }
    }
    true
}

/// Whether the upgraded log of some lines is the one that is meant.
fn becomes(rt: &impl Abort, alloc: Global, lines: &[Short], want: &[Short]) -> bool {
    let log = log_of(rt, alloc, lines);
    let upgraded = upgrade_log(alloc, log.as_slice()).expect(rt, "memory");
    let found = is_log(upgraded.as_slice(), want);
    drop(upgraded);
    drop(log);
    found
}

/// A log and the upgraded one.
type Case = (&'static [Short], &'static [Short]);

/// Clauses are dropped behind the line that names them last; the first of these logs is upgraded already.
static CASES: [Case; 7] = [
    (
        &[
            Short::Resolve(7, 3, 2),
            Short::Drop(&[3, 7]),
            Short::Resolve(6, 4, 1),
            Short::Drop(&[4, 6]),
            Short::Resolve(1, 10, 5),
            Short::Drop(&[1, 10]),
            Short::Resolve(12, 11, 6),
            Short::Drop(&[11, 12]),
        ],
        &[
            Short::Resolve(7, 3, 2),
            Short::Drop(&[3, 7]),
            Short::Resolve(6, 4, 1),
            Short::Drop(&[4, 6]),
            Short::Resolve(1, 10, 5),
            Short::Drop(&[1, 10]),
            Short::Resolve(12, 11, 6),
            Short::Drop(&[11, 12]),
        ],
    ),
    (
        &[
            Short::Resolve(7, 3, 2),
            Short::Resolve(6, 4, 1),
            Short::Resolve(1, 10, 5),
            Short::Resolve(12, 11, 6),
        ],
        &[
            Short::Resolve(7, 3, 2),
            Short::Drop(&[3, 7]),
            Short::Resolve(6, 4, 1),
            Short::Drop(&[4, 6]),
            Short::Resolve(1, 10, 5),
            Short::Drop(&[1, 10]),
            Short::Resolve(12, 11, 6),
            Short::Drop(&[11, 12]),
        ],
    ),
    (
        &[Short::Resolve(2, 1, 1), Short::Resolve(2, 3, 0)],
        &[
            Short::Resolve(2, 1, 1),
            Short::Drop(&[1]),
            Short::Resolve(2, 3, 0),
            Short::Drop(&[2, 3]),
        ],
    ),
    (
        &[Short::Resolve(0, 1, 0), Short::Resolve(3, 2, 1)],
        &[
            Short::Resolve(0, 1, 0),
            Short::Drop(&[0, 1]),
            Short::Resolve(3, 2, 1),
            Short::Drop(&[2, 3]),
        ],
    ),
    (
        &[
            Short::Drop(&[5]),
            Short::Resolve(4, 4, 0),
            Short::Drop(&[4]),
            Short::Drop(&[]),
        ],
        &[Short::Resolve(4, 4, 0), Short::Drop(&[4])],
    ),
    (
        &[
            Short::Farkas,
            Short::Split,
            Short::Drop(&[0]),
            Short::Farkas,
        ],
        &[Short::Farkas, Short::Split, Short::Farkas],
    ),
    (&[], &[]),
];

#[test]
fn clauses_are_dropped_behind_the_line_that_names_them_last(rt: HostRuntime) {
    for (lines, want) in &CASES {
        let found = becomes(&rt, rt.alloc(), lines, want);
        assert!(rt; found);
    }
}
