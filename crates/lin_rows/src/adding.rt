// Sums of rows, and the combination of two rows in which a place cancels.
ghost use Rattle.std.specs.{Prelude.{◌≡◌, true, ◌≤ℤ◌, ℕ, ℤ, pos, IfOk}, Option.{option_and_then}};
ghost use Rattle.lin_rows.specs.{Answers.{Gives}, Rows.{is_row, Satisfies}};
ghost use Rattle.lin_rows.specs.Sums.{times_row, plus_row, row_sum};

use crate::number::{is_one, plus, times};
use crate::refused::RowRefused;
use crate::row::Row;
use crate::term::RowTerm;
use crate::terms::{merge_in, scale};
use crate::tightening::tighten_own;
use std::alloc::Global;

fn times_row(alloc: Global, by: &i128, row: &Row) -> Result<Row, RowRefused>
    ensures multiple { Gives result (times_row by.now row.now) }
    ensures row { is_row row.now ≡ true }
{
    let terms = scale(alloc, by, row.terms())?;
    let bound = times(by, &row.bound()).ok_or(RowRefused::Range)?;
    Ok(Row::new(terms, bound))
}

// The sum of two rows, as all sums below written over terms that nothing needs any more.
#[inline(always)]
fn plus_row(room: Vec<RowTerm>, left: &Row, right: &Row) -> Result<Row, RowRefused>
    ensures { Gives result (plus_row left.now right.now) }
{
    let terms = merge_in(room, left.terms(), right.terms())?;
    let bound = plus(&left.bound(), &right.bound()).ok_or(RowRefused::Range)?;
    Ok(Row::new(terms, bound))
}

// The left row plus a multiple of the right one, which isn't copied where it counts once.
#[inline(always)]
fn plus_multiple(
    alloc: Global,
    room: Vec<RowTerm>,
    left: &Row,
    right: &Row,
    second: &i128,
) -> Result<Row, RowRefused>
    ensures sum { Gives result (option_and_then (λ q. plus_row left.now q)
        (times_row second.now right.now)) }
    ensures left { is_row left.now ≡ true }
    ensures right { is_row right.now ≡ true }
{
    left.law_row();
    right.law_row();
    if is_one(second) {
        return plus_row(room, left, right);
    }
    let right = times_row(alloc, second, right)?;
    plus_row(room, left, &right)
}

// The sum of multiples of two rows, of which those aren't copied that count once.
fn multiples(
    alloc: Global,
    room: Vec<RowTerm>,
    left: &Row,
    first: &i128,
    right: &Row,
    second: &i128,
) -> Result<Row, RowRefused>
    ensures sum { Gives result (option_and_then
        (λ p. option_and_then (λ q. plus_row p q) (times_row second.now right.now))
        (times_row first.now left.now)) }
    ensures left { is_row left.now ≡ true }
    ensures right { is_row right.now ≡ true }
{
    left.law_row();
    right.law_row();
    if is_one(first) {
        return plus_multiple(alloc, room, left, right, second);
    }
    let left = times_row(alloc, first, left)?;
    plus_multiple(alloc, room, &left, right, second)
}

/// `first` times the left row plus `second` times the right row, tightened. Range comes exactly where a product or a sum,
/// of terms or of bounds, leaves the range of a row.
pub fn sum(
    alloc: Global,
    left: &Row,
    first: i128,
    right: &Row,
    second: i128,
) -> Result<Row, RowRefused>
    requires first { pos 0 ≤ℤ first }
    requires second { pos 0 ≤ℤ second }
    ensures sum { Gives result (row_sum left.now first right.now second) }
    ensures points { IfOk result (λ out. (x : ℕ → ℤ) → Satisfies x left.now → Satisfies x right.now
        → Satisfies x out) }
{
    sum_in(alloc, Vec::new(alloc), left, first, right, second)
}

/// The same sum, written over terms that nothing needs any more, so that it seldom takes memory.
pub fn sum_in(
    alloc: Global,
    room: Vec<RowTerm>,
    left: &Row,
    first: i128,
    right: &Row,
    second: i128,
) -> Result<Row, RowRefused>
    requires first { pos 0 ≤ℤ first }
    requires second { pos 0 ≤ℤ second }
    ensures sum { Gives result (row_sum left.now first right.now second) }
    ensures points { IfOk result (λ out. (x : ℕ → ℤ) → Satisfies x left.now → Satisfies x right.now
        → Satisfies x out) }
{
    let sum = multiples(alloc, room, left, &first, right, &second)?;
    Ok(tighten_own(alloc, sum)?)
}
