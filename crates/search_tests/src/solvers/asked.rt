// Rows from plain numbers, and what a solver says of them.
ghost use Rattle.std.specs.Prelude.{◌≡◌, true};
ghost use Rattle.lin_rows.specs.{Numbers.{in_range}, Rows.{all_in_range}};
ghost use Rattle.theory_api.specs.Laws.{all_below};

use lin_rows::{Row, RowTerm, row_of};
use linear_ints::{CuttingPlanes, Eliminator};
use proof_lines::{RangeWhat, RowStep};
use std::alloc::{AllocError, Global};
use std::process::Abort;
use theory_api::{Theory, TheoryAnswer};

/// The coefficients of a row by place, and its bound.
pub type Line<'a> = (&'a [i128], i128);

/// The rows of a system, how many names they have, and what a solver says of them.
pub type Case = (&'static [Line<'static>], u32, Told);

/// What a solver said, with the first value where there are values.
#[derive(Clone, Copy, PartialEq)]
pub enum Told {
    Model { first: i128 },
    Conflict,
    Split { place: u32, at: i128, first: i128 },
    Rows,
    Product,
    Sum,
    Value,
    /// Want of memory, or rows that the solver isn't asked about.
    Nothing,
}

fn fits(number: &i128) -> bool
    ensures { result ≡ in_range number.now }
{
    *number != i128::MIN
}

fn all_fit(terms: &[RowTerm]) -> bool
    ensures { result ≡ all_in_range terms.now }
{
    terms.iter().all(|term| fits(&term.coef))
}

/// Whether the rows name only the first integer names.
pub fn all_within(rows: &[Row], ints: u32) -> bool
    ensures { result ≡ all_below ints rows.now }
{
    rows.iter().all(|row| row.is_within(ints))
}

fn terms_of(alloc: Global, coefs: &[i128]) -> Result<Vec<RowTerm>, AllocError> {
    let mut terms = Vec::new(alloc);
    let mut place = 0u32;
    for coef in coefs {
        terms.push(RowTerm { place, coef: *coef })?;
        place = place.saturating_add(1);
    }
    Ok(terms)
}

/// The row of terms and a bound.
pub fn row_with(alloc: Global, terms: &[RowTerm], bound: i128) -> Result<Row, AllocError> {
    if !all_fit(terms) || !fits(&bound) {
        return Err(AllocError);
    }
    match row_of(alloc, terms, bound) {
        Ok(row) => Ok(row),
        Err(_) => Err(AllocError),
    }
}

/// The row of a line.
pub fn row(alloc: Global, line: &Line) -> Result<Row, AllocError> {
    let terms = terms_of(alloc, line.0)?;
    let row = row_with(alloc, terms.as_slice(), line.1);
    drop(terms);
    row
}

/// The rows of lines.
pub fn rows_of(alloc: Global, lines: &[Line]) -> Result<Vec<Row>, AllocError> {
    let mut rows = Vec::new(alloc);
    for line in lines {
        rows.push(row(alloc, line)?)?;
    }
    Ok(rows)
}

/// The first value, 0 where there is none.
pub fn first_of(values: &[i128]) -> i128 {
    values.first().copied().unwrap_or(0)
}

fn beyond(what: &RangeWhat) -> Told {
    match what {
        RangeWhat::Product { .. } => Told::Product,
        RangeWhat::Sum { .. } => Told::Sum,
        RangeWhat::Value { .. } => Told::Value,
    }
}

fn in_short(answer: &TheoryAnswer) -> Told {
    match answer {
        TheoryAnswer::Model(values) => Told::Model {
            first: first_of(values.as_slice()),
        },
        TheoryAnswer::Conflict { .. } => Told::Conflict,
        TheoryAnswer::Split {
            place,
            at,
            values,
            ..
        } => Told::Split {
            place: *place,
            at: *at,
            first: first_of(values.as_slice()),
        },
        TheoryAnswer::Rows { .. } => Told::Rows,
        TheoryAnswer::Range { what, .. } => beyond(what),
        TheoryAnswer::Memory => Told::Nothing,
    }
}

// Whether the elimination solver refutes rows by these used rows and these steps.
fn refutes_rows(alloc: Global, rows: &[Row], ints: u32, used: &[u32], steps: &[RowStep]) -> bool {
    if !all_within(rows, ints) {
        return false;
    }
    let answer = Eliminator::new().check(alloc, rows, ints);
    let refuted = is_conflict_by(&answer, used, steps);
    drop(answer);
    refuted
}

/// The same of the rows of lines.
pub fn refutes_by(
    alloc: Global,
    lines: &[Line],
    ints: u32,
    used: &[u32],
    steps: &[RowStep],
) -> bool {
    match rows_of(alloc, lines) {
        Ok(rows) => {
            let refuted = refutes_rows(alloc, rows.as_slice(), ints, used, steps);
            drop(rows);
            refuted
        }
        Err(_) => false,
    }
}

fn is_conflict_by(answer: &TheoryAnswer, used: &[u32], steps: &[RowStep]) -> bool {
    match answer {
        TheoryAnswer::Conflict {
            used: given,
            steps: taken,
        } => given.as_slice() == used && taken.as_slice() == steps,
        _ => false,
    }
}

/// What a solver that may split says of rows.
pub fn ask<T: Theory>(theory: &mut T, alloc: Global, rows: &[Row], ints: u32) -> Told
    requires { T.MAY_SPLIT ≡ true }
{
    if !all_within(rows, ints) {
        return Told::Nothing;
    }
    let answer = theory.check(alloc, rows, ints);
    let told = in_short(&answer);
    drop(answer);
    told
}

/// What the elimination solver says of the rows of lines.
pub fn tell(alloc: Global, lines: &[Line], ints: u32) -> Told {
    match rows_of(alloc, lines) {
        Ok(rows) => {
            let told = ask(&mut Eliminator::new(), alloc, rows.as_slice(), ints);
            drop(rows);
            told
        }
        Err(_) => Told::Nothing,
    }
}

/// What the solver that cutting planes guide says of the rows of lines.
pub fn tell_planes(alloc: Global, lines: &[Line], ints: u32) -> Told {
    match rows_of(alloc, lines) {
        Ok(rows) => {
            let told = ask(&mut CuttingPlanes::new(), alloc, rows.as_slice(), ints);
            drop(rows);
            told
        }
        Err(_) => Told::Nothing,
    }
}

/// Checks what the elimination solver says of each system.
pub fn check_all(rt: &impl Abort, alloc: Global, cases: &[Case]) {
    for (lines, ints, want) in cases {
        assert!(rt; tell(alloc, lines, *ints) == *want, "at {lines:?}");
    }
}

/// Checks what the solver that cutting planes guide says of each system.
pub fn check_planes(rt: &impl Abort, alloc: Global, cases: &[Case]) {
    for (lines, ints, want) in cases {
        assert!(rt; tell_planes(alloc, lines, *ints) == *want, "at {lines:?}");
    }
}
