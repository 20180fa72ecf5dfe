// Which multiples of equations bring the coefficients of a row to 0 along all settled vectors.
//
// Along the vector that an equation settled, the equations that were taken before it have the value 0. So the multiples follow one after
// the other, from the equation that was taken last back to the first: each is what the row and the later equations leave, divided by the
// equation's own value along its vector. They are fractions over a common denominator, by which the row is then taken.
use crate::lattice::Lattice;
use crate::vectors::{Vectors, dot};
use simplex::Number;
use simplex::number::{put, scale};
use std::alloc::Global;

/// So many times a row, and so many times each equation that settled a vector.
#[derive(Drop)]
pub struct Multiples {
    pub common: i128,
    pub by: Vec<i128>,
}

// What the row and the later equations have along a settled vector.
fn left_along(
    lattice: &Lattice,
    equations: &Vectors,
    coefs: &[i128],
    multiples: &Multiples,
    index: usize,
) -> Option<i128> {
    let vector = lattice.settled.get(index);
    let mut sum = dot(coefs, vector)?.times(multiples.common)?;
    for (later, by) in multiples.by.iter().enumerate() {
        if later > index && *by != 0 {
            let equation = equations.get(lattice.numbers.get(later).copied()?);
            sum = sum.checked_add(dot(equation, vector)?.times(*by)?)?;
        }
    }
    Some(sum)
}

// Gives the equation that settled a vector its multiple.
fn cancel_along(
    lattice: &Lattice,
    equations: &Vectors,
    coefs: &[i128],
    multiples: &mut Multiples,
    index: usize,
) -> Option<()> {
    let left = left_along(lattice, equations, coefs, multiples, index)?;
    if left == 0 {
        return Some(());
    }
    let equation = equations.get(lattice.numbers.get(index).copied()?);
    let own = dot(equation, lattice.settled.get(index))?;
    let common = left.divisor(own);
    let times = own.over(common)?.checked_abs()?;
    scale(multiples.by.as_mut_slice(), times)?;
    multiples.common = multiples.common.times(times)?;
    let by = left.times(times)?.over(own)?.checked_neg()?;
    put(multiples.by.as_mut_slice(), index, by);
    Some(())
}

/// The multiples of a row with some coefficients and of the equations that settled vectors.
pub fn multiples_for(
    alloc: Global,
    lattice: &Lattice,
    equations: &Vectors,
    coefs: &[i128],
) -> Option<Multiples> {
    let count = lattice.numbers.len();
    let by = vec![in alloc; 0i128; count].ok()?;
    let mut multiples = Multiples { common: 1, by };
    for i in 0..count {
        let index = count.saturating_sub(i).saturating_sub(1);
        if cancel_along(lattice, equations, coefs, &mut multiples, index).is_none() {
            drop(multiples);
            return None;
        }
    }
    Some(multiples)
}
