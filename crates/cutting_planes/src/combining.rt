// Sums of multiples of rows, made by the steps of a Farkas line.
//
// The rows of a line are the given ones, tightened, and after them those of its steps, each the tightened sum of multiples of two earlier
// ones. A sum of multiples of many rows is made row by row. Tightening divides a partial sum, so what was added so far is a multiple of
// it, the scale: to add m times a row, the partial sum is taken scale / g times and the row m / g times, where g is their greatest
// common divisor, and the new scale is g times what tightening divided by.
use crate::listing::{RowList, key_of};
use crate::narrow::NarrowRows;
use items::Items;
use lin_rows::{Row, sum_of_multiples, tighten};
use proof_lines::RowStep;
use simplex::Number;
use simplex::number::sum_of_products;
use std::alloc::Global;

/// The rows of a line. Those of the steps stand behind the given ones.
#[derive(Drop)]
pub struct Derivation<'r> {
    pub rows: RowList<'r>,
    /// The given rows in narrow numbers.
    pub narrow: NarrowRows,
    pub steps: Items<RowStep>,
}

/// A row with its multiplier, which is positive.
#[derive(Clone, Copy)]
pub struct Multiple {
    pub row: u32,
    pub by: i128,
}

// A partial sum: the number of its row, and how often that row is taken.
#[derive(Clone, Copy)]
struct Partial {
    row: u32,
    scale: i128,
}

// How many terms rows have.
fn count_terms(rows: &[Row]) -> usize {
    let mut count = 0usize;
    for row in rows {
        count = count.saturating_add(row.terms().len());
    }
    count
}

/// The line of no rows, with room for the given ones.
pub fn no_rows(alloc: Global, given: &[Row]) -> Option<Derivation<'_>> {
    let rows = RowList::new(alloc, given)?;
    let Some(narrow) = NarrowRows::new(alloc, given.len(), count_terms(given)) else {
        drop(rows);
        return None;
    };
    Some(Derivation {
        rows,
        narrow,
        steps: Items::new(alloc),
    })
}

// Whether tightening surely leaves a row as it is.
fn is_tight(row: &Row) -> bool {
    row.terms().is_empty()
        || row
            .terms()
            .iter()
            .any(|term| term.coef == 1 || term.coef == -1)
}

// Takes a given row that stays as it is.
fn take_given(derivation: &mut Derivation<'_>, number: u32, given: &Row) -> Option<bool> {
    let key = key_of(given);
    if derivation.rows.has(key, given) {
        return Some(false);
    }
    derivation.narrow.push(given);
    derivation.rows.push_given(number, key)?;
    Some(given.is_contradiction())
}

// Takes a given row, tightened.
fn take_tightened(derivation: &mut Derivation<'_>, number: u32, row: Row) -> Option<bool> {
    let key = key_of(&row);
    if derivation.rows.has(key, &row) {
        drop(row);
        return Some(false);
    }
    let refuted = row.is_contradiction();
    derivation.narrow.push(&row);
    derivation.rows.push_changed(number, key, row)?;
    Some(refuted)
}

/// Takes a given row, unless an equal one is there; whether it is a contradiction.
pub fn take(
    derivation: &mut Derivation<'_>,
    alloc: Global,
    number: u32,
    given: &Row,
) -> Option<bool> {
    if is_tight(given) {
        return take_given(derivation, number, given);
    }
    let row = tighten(alloc, given).ok()?;
    take_tightened(derivation, number, row)
}

/// The row with a number.
pub fn row_at<'d>(derivation: &'d Derivation<'_>, number: u32) -> Option<&'d Row> {
    derivation.rows.get(number as usize)
}

/// Whether the row with a number is a contradiction.
pub fn is_contradiction(derivation: &Derivation<'_>, number: u32) -> bool {
    match row_at(derivation, number) {
        Some(row) => row.is_contradiction(),
        None => false,
    }
}

// What tightening divided a sum of multiples of two rows by.
fn divided_by(left: &Row, first: i128, right: &Row, second: i128, sum: &Row) -> Option<i128> {
    match sum.terms() {
        [] => Some(1),
        [term, ..] => {
            let before = sum_of_products(
                left.coefficient(term.place),
                first,
                right.coefficient(term.place),
                second,
            )?;
            before.over(term.coef)
        }
    }
}

/// Adds a step and its row; what tightening divided by.
pub fn push_step(derivation: &mut Derivation<'_>, alloc: Global, step: RowStep) -> Option<i128> {
    let left = row_at(derivation, step.left)?;
    let right = row_at(derivation, step.right)?;
    let sum = sum_of_multiples(alloc, left, step.first, right, step.second).ok()?;
    let by = divided_by(left, step.first, right, step.second, &sum);
    derivation.rows.push(sum)?;
    derivation.steps.push(step).ok()?;
    by
}

// Adds a multiple of a row to a partial sum.
fn add(
    derivation: &mut Derivation<'_>,
    alloc: Global,
    so_far: Partial,
    more: Multiple,
) -> Option<Partial> {
    let common = so_far.scale.divisor(more.by);
    let number = derivation.rows.len();
    let by = push_step(
        derivation,
        alloc,
        RowStep {
            left: so_far.row,
            first: so_far.scale.over(common)?,
            right: more.row,
            second: more.by.over(common)?,
        },
    )?;
    Some(Partial {
        row: u32::try_from(number).ok()?,
        scale: common.checked_mul(by)?,
    })
}

/// The number of the row that is the sum of multiples, or of a partial sum that is a contradiction.
pub fn combine(
    derivation: &mut Derivation<'_>,
    alloc: Global,
    multiples: &[Multiple],
) -> Option<u32> {
    let first = multiples.first().copied()?;
    let mut so_far = Partial {
        row: first.row,
        scale: first.by,
    };
    for (i, multiple) in multiples.iter().enumerate() {
        if i == 0 {
            continue;
        }
        so_far = add(derivation, alloc, so_far, *multiple)?;
        if is_contradiction(derivation, so_far.row) {
            return Some(so_far.row);
        }
    }
    Some(so_far.row)
}
