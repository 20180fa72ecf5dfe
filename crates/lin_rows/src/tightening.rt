// Tightening: over whole numbers a row says the same when it is divided by the greatest common divisor of its coefficients
// and the bound is rounded down.
ghost use Rattle.std.specs.Prelude.{◌≡◌, ◌<ℤ◌, ℕ, ℤ, pos, IfOk, IsTrue, map, ◌↔◌, false};
ghost use Rattle.std.specs.Int.{IsGcd, int_div_euclid};
ghost use Rattle.lin_rows.specs.Rows.{has_no_terms, Satisfies};
ghost use Rattle.lin_rows.specs.Divisors.{divisor_of, divided_term, tightened};

use crate::row::Row;
use crate::term::RowTerm;
use items::Items;
use std::alloc::{AllocError, Global};

/// The greatest common divisor of two numbers, by Euclid's algorithm; 0 where both are 0.
pub fn gcd(a: u128, b: u128) -> u128
    ensures { IsGcd a b result }
{
    let mut x = a;
    let mut y = b;
    while y != 0 {
        let rest = x % y;
        x = y;
        y = rest;
    }
    x
}

// The greatest common divisor of one so far and of a further number. Most are equal, so a division is seldom needed.
fn next_divisor(so_far: u128, size: u128) -> u128
    ensures { IsGcd so_far size result }
{
    if so_far == 0 || so_far == size {
        return size;
    }
    gcd(so_far, size)
}

// The greatest common divisor of the coefficients, or 0 where there are none.
fn common(terms: &[RowTerm]) -> u128
    ensures { result ≡ divisor_of terms.now }
{
    let mut g = 0;
    for term in terms {
        if g == 1 {
            return 1;
        }
        g = next_divisor(g, term.coef.unsigned_abs());
    }
    g
}

fn divide(alloc: Global, terms: &[RowTerm], by: &i128) -> Result<Items<RowTerm>, AllocError>
    requires { pos 0 <ℤ by.now }
    ensures { IfOk result (λ out. out ≡ map (divided_term by.now) terms.now) }
{
    let mut out = Vec::with_capacity(alloc, terms.len())?;
    for term in terms {
        out.push(RowTerm {
            place: term.place,
            coef: term.coef.div_euclid(*by),
        })?;
    }
    Ok(Items::from_vec(out))
}

// The greatest common divisor of the coefficients of a row that has terms.
fn divisor(row: &Row) -> i128
    requires { has_no_terms row.now.terms ≡ false }
    ensures value { result ≡ pos (divisor_of row.now.terms) }
    ensures positive { pos 0 <ℤ result }
{
    common(row.terms()) as i128
}

// A bound divided by a positive number and rounded down.
fn rounded_down(bound: &i128, by: &i128) -> i128
    requires { pos 0 <ℤ by.now }
    ensures { result ≡ int_div_euclid bound.now by.now }
{
    bound.div_euclid(*by)
}

// Whether the coefficients have no divisor in common but 1.
fn has_no_divisor(row: &Row) -> bool
    ensures { IsTrue result → divisor_of row.now.terms ≡ 1 }
{
    common(row.terms()) == 1
}

// Whether tightening surely leaves a row as it is.
fn is_tight(row: &Row) -> bool
    ensures { IsTrue result → tightened row.now ≡ row.now }
{
    row.terms().is_empty() || has_no_divisor(row)
}

/// Divides by the greatest common divisor of the coefficients and rounds the bound down. A row without terms stays.
pub fn tighten(alloc: Global, row: &Row) -> Result<Row, AllocError>
    ensures tightened { IfOk result (λ out. out ≡ tightened row.now) }
    ensures same_points { IfOk result (λ out. (x : ℕ → ℤ) → Satisfies x row.now ↔ Satisfies x out) }
{
    if is_tight(row) || row.terms().is_empty() {
        return row.copy(alloc);
    }
    let by = divisor(row);
    let terms = divide(alloc, row.terms(), &by)?;
    Ok(Row::new(terms, rounded_down(&row.bound(), &by)))
}

/// Tightens a row that nothing else needs, so that most are kept as they are.
pub fn tighten_own(alloc: Global, row: Row) -> Result<Row, AllocError>
    ensures { IfOk result (λ out. out ≡ tightened row) }
{
    if is_tight(&row) {
        return Ok(row);
    }
    tighten(alloc, &row)
}
