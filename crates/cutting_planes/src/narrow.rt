// The given rows once more, in numbers of a machine's word, for the look at all rows that follows each vertex.
//
// Most rows have small coefficients and bounds, and most vertices small numerators over a small denominator. Then a sum has room in 128
// bits, whatever it is: a product of 32 and 64 bits has less than 96, and there are fewer than 2^31 terms. Where a row or a vertex has a
// greater number, nothing is answered, and the rows themselves are looked at.
use crate::worst::{Worst, excess_of};
use lin_rows::{Row, RowTerm};
use simplex::Number;
use simplex::number::at;
use std::alloc::Global;

#[derive(Clone, Copy)]
struct NarrowTerm {
    place: u32,
    coef: i32,
}

/// Where the terms of a row end, its bound, and its length, rounded down.
#[derive(Clone, Copy)]
struct NarrowRow {
    end: usize,
    bound: i64,
    length: u64,
}

/// The terms of all rows, one row behind the other, and the rows; whether each row that was added is among them.
#[derive(Drop)]
pub struct NarrowRows {
    terms: Vec<NarrowTerm>,
    rows: Vec<NarrowRow>,
    all: bool,
}

fn narrow_term(term: &RowTerm) -> Option<NarrowTerm> {
    let coef = i32::try_from(term.coef).ok()?;
    Some(NarrowTerm {
        place: term.place,
        coef,
    })
}

fn square(coef: i32) -> u64 {
    let size = u64::from(coef.unsigned_abs());
    size.wrapping_mul(size)
}

// The whole root of a number. Most rows have small coefficients.
fn root(square: u64) -> u64 {
    match square {
        0 => 0,
        1..4 => 1,
        4..9 => 2,
        square => square.isqrt(),
    }
}

fn is_narrow<N: Number>(number: N) -> bool {
    i64::try_from(number.wide()).is_ok()
}

// Whether all values, and their denominator, are narrow.
fn are_narrow<N: Number>(values: &[N], denominator: N) -> bool {
    is_narrow(denominator) && values.iter().all(|value| is_narrow(*value))
}

fn wide_product(a: i128, b: i128) -> i128 {
    a.wrapping_mul(b)
}

// The sum of terms.
fn sum_of<N: Number>(terms: &[NarrowTerm], values: &[N]) -> i128 {
    let mut sum = 0i128;
    for term in terms {
        let value = at(values, term.place as usize).wide();
        sum = sum.wrapping_add(wide_product(i128::from(term.coef), value));
    }
    sum
}

impl NarrowRows {
    /// No rows, with room for so many.
    pub fn new(alloc: Global, rows: usize, terms: usize) -> Option<NarrowRows> {
        let terms = Vec::with_capacity(alloc, terms).ok()?;
        let rows = Vec::with_capacity(alloc, rows).ok()?;
        Some(NarrowRows {
            terms,
            rows,
            all: true,
        })
    }

    // Adds a row, unless a number of it has no room.
    fn try_push(&mut self, row: &Row) -> Option<()> {
        let bound = i64::try_from(row.bound()).ok()?;
        let mut squares = 0u64;
        for term in row.terms() {
            let term = narrow_term(term)?;
            squares = squares.saturating_add(square(term.coef));
            self.terms.push(term).ok()?;
        }
        self.rows
            .push(NarrowRow {
                end: self.terms.len(),
                bound,
                length: root(squares),
            })
            .ok()
    }

    /// Adds a row.
    pub fn push(&mut self, row: &Row) {
        if self.all && self.try_push(row).is_none() {
            self.all = false;
        }
    }

    /// Whether each row that was added is among them, and values over a denominator are narrow too.
    pub fn are_for<N: Number>(&self, values: &[N], denominator: N) -> bool {
        self.all && are_narrow(values, denominator)
    }

    /// The rows that values, over a denominator, break, unless they are left out.
    pub fn broken<N: Number>(
        &self,
        left_out: &[bool],
        values: &[N],
        denominator: N,
        worst: &mut Worst,
    ) -> Option<()> {
        let denominator = denominator.wide();
        let mut start = 0;
        for (number, row) in self.rows.iter().enumerate() {
            if !left_out.get(number).copied().unwrap_or(true) {
                let terms = self.terms.get(start..row.end).unwrap_or(&[]);
                let most = wide_product(i128::from(row.bound), denominator);
                let beyond = sum_of(terms, values).wrapping_sub(most);
                if beyond > 0 {
                    worst.enter(number, excess_of(beyond, row.length))?;
                }
            }
            start = row.end;
        }
        Some(())
    }
}
