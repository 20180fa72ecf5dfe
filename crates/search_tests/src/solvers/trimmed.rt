// A conflict is trimmed to what its contradiction rests on, worked by hand.
//
// The rows are `x <= 2`, `-x + y <= 0`, `-x <= -3` and `2 x <= 5`, which is tightened to `x <= 2`. The line names the second, the third
// and the last. Its first step adds the second and the last, `y <= 2`; its second adds the third and the last, `0 <= -1`. The contradiction
// rests on the third and the last given row, which become rows 0 and 1, and on the second step alone.
use crate::solvers::asked::{Line, rows_of};
use elimination::{Conflict, conflict_in};
use proof_lines::RowStep;
use std::alloc::Global;

const LINES: &[Line<'static>] = &[(&[1], 2), (&[-1, 1], 0), (&[-1], -3), (&[2], 5)];

fn lines() -> &'static [Line<'static>] {
    LINES
}

fn adding(left: u32, right: u32) -> RowStep {
    RowStep {
        left,
        first: 1,
        right,
        second: 1,
    }
}

fn is_conflict(found: &Option<Conflict>, used: &[u32], steps: &[RowStep]) -> bool {
    match found {
        Some(conflict) => conflict.used.as_slice() == used && conflict.steps.as_slice() == steps,
        None => false,
    }
}

/// Whether the conflict of a line over the rows is this one; with no step, whether there is none.
fn is_trimmed(alloc: Global, line: &[RowStep], used: &[u32], steps: &[RowStep]) -> bool {
    match rows_of(alloc, lines()) {
        Ok(rows) => {
            let found = conflict_in(alloc, rows.as_slice(), &[1, 2, 3], line);
            drop(rows);
            let is_trimmed = is_conflict(&found, used, steps)
                || steps.is_empty() && found.is_none();
            drop(found);
            is_trimmed
        }
        Err(_) => false,
    }
}

#[test]
fn a_conflict_is_trimmed(rt: HostRuntime) {
    let steps = [adding(0, 2), adding(1, 2)];
    assert!(rt; is_trimmed(rt.alloc(), &steps, &[2, 3], &[adding(0, 1)]));
}

// The other way round the last row is `y <= 2`.
#[test]
fn a_line_without_a_contradiction_is_no_conflict(rt: HostRuntime) {
    let steps = [adding(1, 2), adding(0, 2)];
    assert!(rt; is_trimmed(rt.alloc(), &steps, &[], &[]));
}
