// The search over rows, with a solver that knows a few lists of rows.
use crate::known::Known;
use crate::solvers::asked::Line;
use crate::solvers::searches::problem_of;
use crate::summaries::{Summary, is_found, summary_of};
use sat_core::solve_plain;
use std::alloc::Global;

// What the search answers with the solver that knows a few lists, in short, where each row is to be true.
fn asked(alloc: Global, lines: &[Line], ints: u32, budget: u32) -> Summary {
    match problem_of(alloc, lines, ints) {
        Ok(Some(problem)) => {
            let found = solve_plain(alloc, &problem, &mut Known, budget);
            let summary = summary_of(alloc, &problem, &found, budget);
            drop(found);
            drop(problem);
            summary
        }
        _ => Summary::Other,
    }
}

// `0 <= -1`.
const CONTRADICTION: &[Line<'static>] = &[(&[], -1)];

#[test]
fn rows_in_conflict(rt: HostRuntime) {
    assert!(rt; asked(rt.alloc(), CONTRADICTION, 0, 2) == Summary::Unsat(2));
}

// `2x + 3y <= 4`, `-2x - 3y <= -4` and `-y <= -1`.
const GAP: &[Line<'static>] = &[(&[2, 3], 4), (&[-2, -3], -4), (&[0, -1], -1)];

fn gap() -> &'static [Line<'static>] {
    GAP
}

// Whether the search finds just these truths and numbers over two names.
fn is_answered(alloc: Global, lines: &[Line], truths: &[bool], values: &[i128]) -> bool {
    match problem_of(alloc, lines, 2) {
        Ok(Some(problem)) => {
            let found = solve_plain(alloc, &problem, &mut Known, 1);
            drop(problem);
            let is = is_found(&found, truths, values);
            drop(found);
            is
        }
        _ => false,
    }
}

#[test]
fn rows_with_a_gap(rt: HostRuntime) {
    assert!(rt; is_answered(rt.alloc(), gap(), &[true, true, true], &[-1, 2]));
    assert!(rt; asked(rt.alloc(), gap(), 2, 0) == Summary::Lines(0));
}

// `-x <= -(10^15 + 1)`.
const FAR: &[Line<'static>] = &[(&[-1], -1000000000000001)];

#[test]
fn a_number_beyond(rt: HostRuntime) {
    assert!(rt; asked(rt.alloc(), FAR, 1, 0) == Summary::Range);
}
