// The evidence of undecided verdicts, as far as a reader of a report can check it: too many rows, and numbers beyond the range.
ghost use Rattle.std.specs.Prelude.{◌≡◌, List, length, ◌<◌, ◌^◌, ◌*ℤ◌, ◌-ℤ◌, pos, int_lt, nat_le, Bool, true, false, IfOk, MatchOption, MatchResult, ◌&&◌, Some, is_none, [], ◌∷◌};
ghost use Rattle.std.specs.List.{list_all, list_any};
ghost use Rattle.lin_rows.specs.{Numbers.{is_zero}, Rows.{Row as RowView, coefficient_at}};
ghost use Rattle.line_rows.specs.Kept.{kept_at, StepsEnd, KeptUntil, HasKept, step_cancels, all_cancel_in, AreCancelling, first_named, second_named, beyond_in};
ghost use Rattle.line_rows.specs.{Refusals.{IsTold}, Steps.{with_steps, line_rows}};
ghost use Rattle.line_rows.specs.Splits.{other_names, size_at};
ghost use Rattle.line_rows.specs.Evidence.{cancels_at, cancels_some, cancels, all_cancel, same_row, all_different, in_state, values_fit, rest_with, product_leaves, leaves_state, range_shown};

use crate::kept::{ends_of, keep_used, kept_at, push_step, step_sum};
use crate::kept_row::KeptRow;
use crate::splitting::{distance, is_above, is_negative, is_positive, names_of_one, rest_at};
use lin_rows::{Row, RowRefused, combine, least_factors};
use proof_lines::clause::Lit;
use proof_lines::line::{LineRefused, RangeWhat, RowStep};
use proof_lines::problem::AtomKind;
use std::alloc::{AllocError, Global};

// Whether a step cancels a place by the least multipliers.
fn cancels_at(left: &Row, right: &Row, step: &RowStep, place: u32) -> bool
    ensures { result ≡ cancels_at left.now right.now step.now place }
{
    if !is_positive(&left.coefficient(place)) || !is_negative(&right.coefficient(place)) {
        return false;
    }
    let (first, second) = least_factors(left, right, place);
    step.first == first && step.second == second
}

fn cancels_some(left: &Row, right: &Row, step: &RowStep) -> bool
    ensures { result ≡ cancels_some left.now right.now step.now }
{
    left.terms()
        .iter()
        .any(|term| cancels_at(left, right, step, term.place))
}

fn cancels(rows: &[Row], step: &RowStep) -> bool
    ensures { result ≡ cancels rows.now step.now }
{
    let (left, right) = (step.left as usize, step.right as usize);
    left < rows.len() && right < rows.len() && cancels_some(&rows[left], &rows[right], step)
}

/// Whether each step cancels a place of its two rows by the least multipliers.
pub fn all_cancel(rows: &[Row], steps: &[RowStep]) -> bool
    ensures { result ≡ all_cancel rows.now steps.now }
{
    steps.iter().all(|step| cancels(rows, step))
}

/// Whether two rows are equal, as a test.
pub fn same_row(a: &Row, b: &Row) -> bool
    ensures { result ≡ same_row a.now b.now }
{
    lin_rows::same_row(a, b)
}

fn holds_row(rows: &[Row], row: &Row) -> bool
    ensures { result ≡ list_any (same_row row.now) rows.now }
{
    rows.iter().any(|other| same_row(row, other))
}

/// Whether no two of the rows are equal.
pub fn all_different(rows: &[Row]) -> bool
    ensures { result ≡ all_different rows.now }
{
    for i in 0..rows.len() {
        if holds_row(&rows[i + 1..], &rows[i]) {
            return false;
        }
    }
    true
}

fn all_in_state(values: &[i128]) -> bool
    ensures { result ≡ list_all in_state values.now }
{
    values
        .iter()
        .all(|value| value.unsigned_abs() <= 1_000_000_000_000_000)
}

// The names of a row other than a place, where the row names the place and the values are one for each of those names, in the
// range of a state.
fn fitting_names(
    alloc: Global,
    row: &Row,
    place: u32,
    values: &[i128],
) -> Result<Option<Vec<u32>>, AllocError>
    ensures { IfOk result
        (λ found. MatchOption found (values_fit (row.now ∷ []) 0 place values.now ≡ false)
        (λ names. (values_fit (row.now ∷ []) 0 place values.now ≡ true)
        × (names.items ≡ other_names place (row.now ∷ [])))) }
{
    if row.coefficient(place) == 0 {
        return Ok(None);
    }
    let names = names_of_one(alloc, place, row)?;
    if values.len() != names.len() || !all_in_state(values) {
        return Ok(None);
    }
    Ok(Some(names))
}

// Whether (more - less) / by is above 10^15.
fn is_beyond_state(more: &i128, less: &i128, by: u128) -> bool
    requires { 0 < by }
    ensures { result ≡ int_lt (pos (10 ^ 15) *ℤ pos by) (more.now -ℤ less.now) }
{
    is_above(more, less) && (distance(more, less) - 1) / by >= 1_000_000_000_000_000
}

fn leaves_state(row: &Row, place: u32, rest: &i128) -> bool
    requires { is_zero (coefficient_at row.now.terms place) ≡ false }
    ensures { result ≡ leaves_state row.now place (Some rest.now) }
{
    is_beyond_state(rest, &row.bound(), row.coefficient(place).unsigned_abs())
}

// Whether the row, with values for its other names, allows the place no number in the range of a state.
fn allows_none(alloc: Global, row: &Row, place: u32, values: &[i128]) -> Result<bool, AllocError>
    ensures { IfOk result
        (λ b. b
        ≡ (values_fit (row.now ∷ []) 0 place values.now
        && leaves_state row.now place (rest_with row.now place values.now))) }
{
    let Some(names) = fitting_names(alloc, row, place, values)? else {
        return Ok(false);
    };
    match rest_at(row, names.as_slice(), values) {
        Some(rest) => Ok(leaves_state(row, place, &rest)),
        None => Ok(false),
    }
}

// Whether putting the values into the row leaves the range of a row.
fn leaves_range(alloc: Global, row: &Row, place: u32, values: &[i128]) -> Result<bool, AllocError>
    ensures { IfOk result
        (λ b. b
        ≡ (values_fit (row.now ∷ []) 0 place values.now
        && is_none (rest_with row.now place values.now))) }
{
    let Some(names) = fitting_names(alloc, row, place, values)? else {
        return Ok(false);
    };
    Ok(rest_at(row, names.as_slice(), values).is_none())
}

// Whether the least sum of two rows that cancels a place leaves the range of a row.
fn product_leaves(alloc: Global, left: &Row, right: &Row, place: u32) -> Result<bool, AllocError>
    ensures { IfOk result (λ b. b ≡ product_leaves left.now right.now place) }
{
    if !is_positive(&left.coefficient(place)) || !is_negative(&right.coefficient(place)) {
        return Ok(false);
    }
    match combine(alloc, left, right, place) {
        Ok(_) => Ok(false),
        Err(RowRefused::Range) => Ok(true),
        Err(RowRefused::Memory) => Err(AllocError),
    }
}

// Whether a step cancels a place of the two rows that are kept for it.
fn cancels_kept(rows: &[KeptRow<'_>], step: &RowStep) -> bool
    ensures { result ≡ step_cancels (kept_at rows.now step.now.left)
        (kept_at rows.now step.now.right) step.now }
{
    let (Some(left), Some(right)) = (
        kept_at(rows, step.left as usize),
        kept_at(rows, step.right as usize),
    ) else {
        return false;
    };
    cancels_some(left, right, step)
}

// The rows of steps, after those that are kept, up to the first step that cancels no place.
fn take_cancelling(
    alloc: Global,
    rows: &mut Vec<KeptRow<'_>>,
    ends: &[usize],
    steps: &[RowStep],
) -> Result<bool, LineRefused>
    requires { StepsEnd steps.now (length steps.now) ends.now }
    ensures { (all : List RowView) → KeptUntil all ends.now 0 rows.old.items
        → MatchResult result
        (λ b. AreCancelling b (with_steps all steps.now) steps.now ends.now rows.new.items)
        (λ e. IsTold e (with_steps all steps.now)) }
{
    for (i, step) in steps.iter().enumerate() {
        if !cancels_kept(rows.as_slice(), step) {
            return Ok(false);
        }
        let row = match step_sum(alloc, rows.as_slice(), step) {
            Ok(row) => row,
            Err(refused) => return Err(refused),
        };
        let Ok(()) = push_step(rows, ends, i + 1, step, row) else {
            return Err(LineRefused::Memory);
        };
    }
    Ok(true)
}

// The rows of a line each of whose steps cancels a place, of which those with some numbers are kept; nothing where a step cancels
// none. Or else the first rule that the used literals or the steps break.
fn cancelling_rows<'a>(
    alloc: Global,
    atoms: &'a [AtomKind],
    used: &[Lit],
    steps: &[RowStep],
    named: &[usize],
) -> Result<Option<Vec<KeptRow<'a>>>, LineRefused>
    ensures { MatchResult result
        (λ o. MatchOption o
        (all_cancel_in (line_rows atoms.now used.now steps.now) steps.now ≡ false)
        (λ kept. HasKept (line_rows atoms.now used.now steps.now) named.now kept.items
        × (all_cancel_in (line_rows atoms.now used.now steps.now) steps.now ≡ true)))
        (λ e. IsTold e (line_rows atoms.now used.now steps.now)) }
{
    let Ok(ends) = ends_of(alloc, used.len() + steps.len(), steps, named) else {
        return Err(LineRefused::Memory);
    };
    let mut rows = match keep_used(alloc, atoms, used, ends.as_slice()) {
        Ok(rows) => rows,
        Err(refused) => return Err(refused),
    };
    match take_cancelling(alloc, &mut rows, ends.as_slice(), steps) {
        Ok(true) => Ok(Some(rows)),
        Ok(false) => Ok(None),
        Err(refused) => Err(refused),
    }
}

// The row that a number beyond the range names first.
fn first_named(what: &RangeWhat) -> usize
    ensures { result ≡ first_named what.now }
{
    match what {
        RangeWhat::Product { left, .. } => *left as usize,
        RangeWhat::Value { row, .. } => *row as usize,
        RangeWhat::Sum { row, .. } => *row as usize,
    }
}

// The row that it names second.
fn second_named(what: &RangeWhat) -> usize
    ensures { result ≡ second_named what.now }
{
    match what {
        RangeWhat::Product { right, .. } => *right as usize,
        RangeWhat::Value { row, .. } => *row as usize,
        RangeWhat::Sum { row, .. } => *row as usize,
    }
}

// Whether a number beyond the range stands in the rows that it names.
fn is_beyond(
    alloc: Global,
    rows: &[KeptRow<'_>],
    first: usize,
    second: usize,
    what: &RangeWhat,
) -> Result<bool, AllocError>
    ensures { IfOk result (λ b. b ≡ beyond_in (kept_at rows.now first)
        (kept_at rows.now second) what.now) }
{
    let Some(row) = kept_at(rows, first) else {
        return Ok(false);
    };
    match what {
        RangeWhat::Product { place, .. } => match kept_at(rows, second) {
            Some(right) => product_leaves(alloc, row, right, *place),
            None => Ok(false),
        },
        RangeWhat::Value { place, values, .. } => allows_none(
            alloc,
            row,
            *place,
            values.as_slice(),
        ),
        RangeWhat::Sum { place, values, .. } => leaves_range(alloc, row, *place, values.as_slice()),
    }
}

/// Whether used literals and steps, each of which cancels a place, give a number beyond the range where it is said to be.
pub fn shows_range(
    alloc: Global,
    atoms: &[AtomKind],
    used: &[Lit],
    steps: &[RowStep],
    what: &RangeWhat,
) -> Result<bool, AllocError>
    ensures { IfOk result (λ b. b ≡ range_shown steps.now what.now
        (line_rows atoms.now used.now steps.now)) }
{
    let (first, second) = (first_named(what), second_named(what));
    match cancelling_rows(alloc, atoms, used, steps, &[first, second]) {
        Ok(Some(rows)) => is_beyond(alloc, rows.as_slice(), first, second, what),
        Ok(None) => Ok(false),
        Err(LineRefused::Bad(_)) => Ok(false),
        Err(LineRefused::Memory) => Err(AllocError),
    }
}
