// Whole numbers near a vertex.
use simplex::number::at;
use simplex::{Number, Vertex};
use std::alloc::Global;

/// The ways in which a fraction becomes whole.
#[derive(Clone, Copy)]
pub enum Rounding {
    Nearest,
    Down,
    Up,
}

// A fraction made whole.
fn rounded(numerator: i128, denominator: i128, way: Rounding) -> Option<i128> {
    if denominator == 1 {
        return Some(numerator);
    }
    match way {
        Rounding::Down => numerator.checked_div_euclid(denominator),
        Rounding::Up => numerator
            .checked_neg()?
            .checked_div_euclid(denominator)?
            .checked_neg(),
        Rounding::Nearest => numerator
            .checked_mul(2)?
            .checked_add(denominator)?
            .checked_div_euclid(denominator.checked_mul(2)?),
    }
}

/// Whole numbers near a vertex.
pub fn round<N: Number>(vertex: &Vertex<N>, alloc: Global, way: Rounding) -> Option<Vec<i128>> {
    let mut values = Vec::with_capacity(alloc, vertex.numerators.len()).ok()?;
    for (name, numerator) in vertex.numerators.as_slice().iter().enumerate() {
        let denominator = at(vertex.denominators.as_slice(), name).wide();
        values
            .push(rounded(numerator.wide(), denominator, way)?)
            .ok()?;
    }
    Some(values)
}
