// A solver of the tests, which answers in every way that a solver may.
ghost use Rattle.std.specs.Prelude.{◌≡◌, ◌↔◌, ◌∷◌, [], true, pos, IfOk, IsTrue};
ghost use Rattle.theory_api.specs.declared.answer.TheoryAnswer.TheVariants.{Split};
ghost use Rattle.theory_api.specs.Laws.{IsAnswer};

use items::{Items, or_drop};
use lin_rows::number::same_number;
use lin_rows::{Row, RowTerm};
use proof_lines::RangeWhat;
use std::alloc::{AllocError, Global};
use theory_api::{Theory, TheoryAnswer};

/// A solver that knows four lists of rows, and says Memory of all others.
#[derive(Drop)]
pub struct Known;

impl Theory for Known {
    ghost MAY_SPLIT = { true };

    ghost MAY_STOP = { true };

    ghost takes = { λ rows ints. Unit {0} };

    const MAY_SPLIT: bool = true;

    const MAY_STOP: bool = true;

    fn check(&mut self, alloc: Global, rows: &[Row], ints: u32) -> TheoryAnswer {
        match of_rows(alloc, rows, ints) {
            Ok(answer) => answer,
            Err(_) => TheoryAnswer::Memory,
        }
    }

    ghost takes_all = { λ h rows ints p. tt };
}

fn of_rows(alloc: Global, rows: &[Row], ints: u32) -> Result<TheoryAnswer, AllocError>
    ensures { IfOk result (λ answer. IsAnswer true true ints rows.now answer) }
{
    match rows.len() {
        1 => of_one(alloc, rows, ints),
        3 => of_three(alloc, rows, ints),
        4 => of_four(alloc, rows, ints),
        _ => Ok(TheoryAnswer::Memory),
    }
}

/// A term of a row.
pub fn term(place: u32, coef: i128) -> RowTerm
    ensures { result ≡ record { place = place; coef = coef } }
{
    RowTerm { place, coef }
}

fn same_terms(left: &[RowTerm], right: &[RowTerm]) -> bool
    ensures { IsTrue result ↔ (left.now ≡ right.now) }
{
    left == right
}

fn is(row: &Row, terms: &[RowTerm], bound: i128) -> bool
    ensures { IsTrue result → row.now ≡ record { terms = terms.now; bound = bound } }
{
    same_number(&row.bound(), &bound) && same_terms(row.terms(), terms)
}

// `0 <= -1` is refuted, and `-x <= -(10^15 + 1)` leaves no number in the range of a state.
fn of_one(alloc: Global, rows: &[Row], ints: u32) -> Result<TheoryAnswer, AllocError>
    ensures { IfOk result (λ answer. IsAnswer true true ints rows.now answer) }
{
    let [row] = rows else {
        return Ok(TheoryAnswer::Memory);
    };
    let mut used = Items::new(alloc);
    used.push(0)?;
    let steps = Items::new(alloc);
    if is(row, &[], -1) {
        return Ok(TheoryAnswer::Conflict { used, steps });
    }
    if is(row, &[term(0, -1)], -1000000000000001) {
        let values = Items::new(alloc);
        let what = RangeWhat::Value {
            row: 0,
            place: 0,
            values,
        };
        return Ok(TheoryAnswer::Range { used, steps, what });
    }
    Ok(TheoryAnswer::Memory)
}

// With 1 for `y`, `2x + 3y <= 4` and `-2x - 3y <= -4` say that `x` is a half.
fn of_three(alloc: Global, rows: &[Row], ints: u32) -> Result<TheoryAnswer, AllocError>
    ensures { IfOk result (λ answer. IsAnswer true true ints rows.now answer) }
{
    let [upper, lower, least] = rows else {
        return Ok(TheoryAnswer::Memory);
    };
    if !is(upper, &[term(0, 2), term(1, 3)], 4) {
        return Ok(TheoryAnswer::Memory);
    }
    if !is(lower, &[term(0, -2), term(1, -3)], -4) {
        return Ok(TheoryAnswer::Memory);
    }
    if !is(least, &[term(1, -1)], -1) || ints == 0 {
        return Ok(TheoryAnswer::Memory);
    }
    gap(alloc)
}

fn gap(alloc: Global) -> Result<TheoryAnswer, AllocError>
    ensures { IfOk result (λ answer. answer ≡ Split 0 (pos 0) (0 ∷ 1 ∷ 2 ∷ []) [] 1 0
        (pos 1 ∷ [])) }
{
    let used = Items::from_slice(alloc, &[0, 1, 2])?;
    let values = or_drop!(Items::from_slice(alloc, &[1]); used);
    Ok(TheoryAnswer::Split {
        place: 0,
        at: 0,
        used,
        steps: Items::new(alloc),
        low: 1,
        high: 0,
        values,
    })
}

// With `x <= 0`, the numbers -1 and 2 satisfy those rows.
fn of_four(alloc: Global, rows: &[Row], ints: u32) -> Result<TheoryAnswer, AllocError>
    ensures { IfOk result (λ answer. IsAnswer true true ints rows.now answer) }
{
    let [upper, lower, least, half] = rows else {
        return Ok(TheoryAnswer::Memory);
    };
    if !is(upper, &[term(0, 2), term(1, 3)], 4) {
        return Ok(TheoryAnswer::Memory);
    }
    if !is(lower, &[term(0, -2), term(1, -3)], -4) {
        return Ok(TheoryAnswer::Memory);
    }
    if !is(least, &[term(1, -1)], -1) {
        return Ok(TheoryAnswer::Memory);
    }
    if !is(half, &[term(0, 1)], 0) || ints != 2 {
        return Ok(TheoryAnswer::Memory);
    }
    let mut values = Items::new(alloc);
    values.push(-1)?;
    values.push(2)?;
    Ok(TheoryAnswer::Model(values))
}
