// Rows worked by hand, and the numbers at the edge of the range.
use crate::making::linear;
use lin_rows::{Row, RowRefused, RowTerm, combine, negate, row_of, sum, tighten, truth_at};
use std::alloc::Global;
use std::process::Abort;

/// The coefficients of x0 and x1 and the bound of a row that has both.
fn shown(rt: &impl Abort, row: &Row) -> [i128; 3] {
    match row.terms() {
        [first, second] => {
            assert!(rt; first.place == 0 && second.place == 1);
            [first.coef, second.coef, row.bound()]
        }
        _ => panic!(rt; "not two terms"),
    }
}

/// A row, and the same row tightened.
fn tightened(rt: &impl Abort, alloc: Global, row: &Row) -> [[i128; 3]; 2] {
    let tight = tighten(alloc, row).expect(rt, "memory");
    let found = [shown(rt, row), shown(rt, &tight)];
    drop(tight);
    found
}

fn even_row(rt: &impl Abort, alloc: Global) -> [[i128; 3]; 2] {
    let row = linear(rt, alloc, 2, -2, 1);
    let found = tightened(rt, alloc, &row);
    drop(row);
    found
}

#[test]
fn rows_are_tightened(rt: HostRuntime) {
    let found = even_row(&rt, rt.alloc());
    assert!(rt; found == [[2, -2, 1], [1, -1, 0]]);
}

fn even_row_negated(rt: &impl Abort, alloc: Global) -> [[i128; 3]; 2] {
    let row = linear(rt, alloc, 2, -2, 1);
    let Ok(opposite) = negate(alloc, &row) else {
        panic!(rt; "no opposite");
    };
    drop(row);
    let found = tightened(rt, alloc, &opposite);
    drop(opposite);
    found
}

#[test]
fn rows_are_negated(rt: HostRuntime) {
    let found = even_row_negated(&rt, rt.alloc());
    assert!(rt; found == [[-2, 2, -2], [-1, 1, -1]]);
}

/// The multipliers and the bound of the row that combines two without x0, and whether it is a contradiction.
fn combined(rt: &impl Abort, alloc: Global, upper: &Row, lower: &Row) -> ([i128; 3], bool) {
    assert!(rt; upper.coefficient(0) > 0 && lower.coefficient(0) < 0);
    let Ok(combined) = combine(alloc, upper, lower, 0) else {
        panic!(rt; "no row");
    };
    let found = [combined.first, combined.second, combined.row.bound()];
    let never = combined.row.is_contradiction();
    drop(combined);
    (found, never)
}

/// The bound of the sum of two rows, and whether it is a contradiction.
fn added(rt: &impl Abort, alloc: Global, upper: &Row, lower: &Row) -> (i128, bool) {
    let Ok(added) = sum(alloc, upper, 1, lower, 1) else {
        panic!(rt; "no row");
    };
    let found = (added.bound(), added.is_contradiction());
    drop(added);
    found
}

/// Both of `x0 - x1 <= 0` and `-x0 + x1 <= -1`.
fn opposites(rt: &impl Abort, alloc: Global) -> (([i128; 3], bool), (i128, bool)) {
    let upper = linear(rt, alloc, 1, -1, 0);
    let lower = linear(rt, alloc, -1, 1, -1);
    let found = (
        combined(rt, alloc, &upper, &lower),
        added(rt, alloc, &upper, &lower),
    );
    drop(upper);
    drop(lower);
    found
}

#[test]
fn opposite_rows_give_a_contradiction(rt: HostRuntime) {
    let (combined, added) = opposites(&rt, rt.alloc());
    assert!(rt; combined.0 == [1, 1, -1] && combined.1);
    assert!(rt; added.0 == -1 && added.1);
}

const GREATEST: i128 = 170_141_183_460_469_231_731_687_303_715_884_105_727;

/// Whether the opposite of `3 x2 <= 2^127 - 1` leaves the range.
fn greatest_negated(rt: &impl Abort, alloc: Global) -> bool {
    let Ok(row) = row_of(alloc, &[RowTerm { place: 2, coef: 3 }], GREATEST) else {
        panic!(rt; "no row");
    };
    let beyond = matches!(negate(alloc, &row), Err(RowRefused::Range));
    drop(row);
    beyond
}

#[test]
fn the_greatest_bound_has_no_opposite(rt: HostRuntime) {
    assert!(rt; greatest_negated(&rt, rt.alloc()));
}

#[test]
fn partial_sums_leave_the_range(rt: HostRuntime) {
    let terms = [
        RowTerm {
            place: 0,
            coef: GREATEST,
        },
        RowTerm { place: 0, coef: 1 },
        RowTerm { place: 0, coef: -1 },
    ];
    assert!(rt; matches!(row_of(rt.alloc(), &terms, 0), Err(RowRefused::Range)));
}

/// The truth of `2 x0 - x1 <= 3`, which is over two names, at three points.
fn at_points(rt: &impl Abort, alloc: Global) -> [Option<bool>; 3] {
    let row = linear(rt, alloc, 2, -1, 3);
    assert!(rt; row.is_within(2));
    let found = [
        truth_at(&row, &[2, 1]),
        truth_at(&row, &[2, 0]),
        truth_at(&row, &[GREATEST, 0]),
    ];
    drop(row);
    found
}

#[test]
fn points_are_tested(rt: HostRuntime) {
    let found = at_points(&rt, rt.alloc());
    assert!(rt; found == [Some(true), Some(false), None]);
}
