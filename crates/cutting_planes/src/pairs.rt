// Rows that stand against each other: equations, and sums between two bounds.
//
// An equation comes as two rows, one with the opposite coefficients and the opposite bound of the other. Two rows with opposite
// coefficients whose bounds leave room between them are a slab. Of all rows with the opposite coefficients the tightest counts. They are
// found by keys: the key of the opposite coefficients is the opposite of a key.
use crate::combining::{Derivation, row_at};
use lin_rows::{Row, RowTerm};
use std::alloc::Global;

/// Two rows with opposite coefficients, and how far apart their bounds are.
#[derive(Clone, Copy)]
pub struct Pair {
    pub upper: u32,
    pub lower: u32,
    pub width: i128,
}

// A number of 64 bits for a coefficient, the opposite one for its opposite.
fn bits_of(coef: i128) -> u64 {
    let size = u64::try_from(coef.unsigned_abs()).unwrap_or(0);
    if coef < 0 { size.wrapping_neg() } else { size }
}

// A number that equal terms share, and different ones seldom.
fn key_of(terms: &[RowTerm]) -> u64 {
    let mut key = 0u64;
    for term in terms {
        let place = u64::from(term.place)
            .wrapping_add(1)
            .wrapping_mul(0x9e37_79b9_7f4a_7c15);
        key = key.wrapping_add((place ^ (place >> 31)).wrapping_mul(bits_of(term.coef)));
    }
    key
}

/// The keys of the given rows.
pub fn keys_of(derivation: &Derivation<'_>, alloc: Global) -> Option<Vec<u64>> {
    let count = derivation.rows.given_len();
    let mut keys = Vec::with_capacity(alloc, count).ok()?;
    for number in 0..count {
        keys.push(key_of(derivation.rows.get(number)?.terms()))
            .ok()?;
    }
    Some(keys)
}

fn is_opposite(term: &RowTerm, other: Option<&RowTerm>) -> bool {
    match other {
        Some(other) => { term.place == other.place && term.coef.checked_add(other.coef) == Some(0) }
        None => false,
    }
}

fn are_opposite(terms: &[RowTerm], others: &[RowTerm]) -> bool {
    terms.len() == others.len()
        && terms
            .iter()
            .enumerate()
            .all(|(i, term)| is_opposite(term, others.get(i)))
}

// How far the bounds of two rows with opposite coefficients are apart.
fn width_of(row: &Row, derivation: &Derivation<'_>, other: u32) -> Option<i128> {
    let other = row_at(derivation, other)?;
    if are_opposite(row.terms(), other.terms()) {
        return row.bound().checked_add(other.bound());
    }
    None
}

// The pair of a given row and another one, where their keys are opposite and it is closer than what was found.
fn closer(
    derivation: &Derivation<'_>,
    upper: u32,
    row: &Row,
    number: usize,
    found: Option<Pair>,
) -> Option<Pair> {
    let lower = u32::try_from(number).ok()?;
    let width = width_of(row, derivation, lower)?;
    match found {
        Some(pair) if pair.width <= width => None,
        _ => Some(Pair {
            upper,
            lower,
            width,
        }),
    }
}

/// The row against which a given row stands most closely.
pub fn pair_of(derivation: &Derivation<'_>, keys: &[u64], upper: u32) -> Option<Pair> {
    let row = row_at(derivation, upper)?;
    let key = keys.get(upper as usize).copied()?.wrapping_neg();
    let mut found = None;
    for (number, other) in keys.iter().enumerate() {
        if *other == key {
            found = closer(derivation, upper, row, number, found).or(found);
        }
    }
    found
}
