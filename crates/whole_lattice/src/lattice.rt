// The whole points that satisfy equations.
use crate::reducing::{Shape, shape_of};
use crate::vectors::{Vectors, dot};
use simplex::number::{at, put};
use std::alloc::Global;

/// The most rounds of Euclid's steps for one equation: each halves a number of 128 bits.
const ROUNDS: u32 = 256;

/// The whole points that satisfy the equations that were taken: a point, and the sums of whole multiples of vectors added to it.
#[derive(Drop)]
pub struct Lattice {
    /// The vectors, and behind them the point.
    pub vectors: Vectors,
    /// The vectors that are settled, each with the number of the equation that settled it. Equations that were taken before have the
    /// value 0 at it.
    pub settled: Vectors,
    pub numbers: Vec<usize>,
    /// The values of the equation that is taken at the vectors.
    values: Vec<i128>,
    shape: Shape,
}

/// What an equation says of the points.
#[derive(Clone, Copy)]
pub enum Taken {
    /// It holds at all that are left.
    Holds,
    /// It holds at none.
    Nowhere,
    /// Its greatest common divisor isn't 1, and it wasn't taken.
    Later,
}

impl Lattice {
    /// The lattice of some vectors, the last of them a point. So many numbers may be looked at.
    pub fn new(alloc: Global, vectors: Vectors, work: usize) -> Option<Lattice> {
        let Some(shape) = shape_of(alloc, vectors.len(), work) else {
            drop(vectors);
            return None;
        };
        let settled = Vectors::new(alloc, vectors.width);
        Some(Lattice {
            vectors,
            settled,
            numbers: Vec::new(alloc),
            values: Vec::new(alloc),
            shape,
        })
    }

    /// How many vectors there are.
    pub fn free(&self) -> usize {
        self.vectors.len().saturating_sub(1)
    }

    /// The point.
    pub fn point(&self) -> &[i128] {
        self.vectors.get(self.free())
    }

    // Lists the values of an equation at the vectors.
    fn list_values(&mut self, coefs: &[i128]) -> Option<()> {
        self.values.clear();
        for number in 0..self.free() {
            let value = dot(coefs, self.vectors.get(number))?;
            self.values.push(value).ok()?;
        }
        Some(())
    }

    // The vector with the least value that isn't 0.
    fn least(&self) -> Option<usize> {
        let mut most = u128::MAX;
        let mut found = None;
        for (number, value) in self.values.iter().enumerate() {
            let size = value.unsigned_abs();
            if size > 0 && size < most {
                most = size;
                found = Some(number);
            }
        }
        found
    }

    // Takes multiples of a vector from another one, so that its value is at most half as great; whether it is 0 then.
    fn divide(&mut self, number: usize, by: usize) -> Option<bool> {
        let value = at(self.values.as_slice(), number);
        let divisor = at(self.values.as_slice(), by);
        let times = nearest_quotient(value, divisor)?;
        self.vectors.add_multiple(number, by, times.checked_neg()?)?;
        let rest = value.checked_sub(divisor.checked_mul(times)?)?;
        put(self.values.as_mut_slice(), number, rest);
        Some(rest == 0)
    }

    // Takes multiples of a vector from all others; whether all others have the value 0 then.
    fn divide_all(&mut self, by: usize) -> Option<bool> {
        let mut all = true;
        for number in 0..self.values.len() {
            if number != by && at(self.values.as_slice(), number) != 0 {
                all = self.divide(number, by)? && all;
            }
        }
        Some(all)
    }

    // Leaves one vector with a value that isn't 0; its number, where there is one.
    fn single_out(&mut self) -> Option<Option<usize>> {
        for _round in 0..ROUNDS {
            let Some(by) = self.least() else {
                return Some(None);
            };
            if self.divide_all(by)? {
                return Some(Some(by));
            }
        }
        None
    }

    // Makes the other vectors short, and then the last one by them. Its value stays, as the others have the value 0.
    fn shorten_last(&mut self) -> Option<()> {
        let last = self.free().checked_sub(1)?;
        self.shape.reduce(&mut self.vectors, last)?;
        self.shape.shorten(&mut self.vectors, last)
    }

    // Settles the last vector: the point moves along it, and it counts no longer.
    fn settle(&mut self, times: i128, equation: usize) -> Option<()> {
        let point = self.free();
        let last = point.checked_sub(1)?;
        self.vectors.add_multiple(point, last, times)?;
        self.settled.push(self.vectors.get(last))?;
        self.numbers.push(equation).ok()?;
        self.vectors.swap(last, point);
        self.vectors.pop();
        Some(())
    }

    // Settles a vector, made short unless that takes too long for what it gains, and moves the point near to 0.
    fn settle_short(&mut self, times: i128, equation: usize, only_simple: bool) -> Option<()> {
        if only_simple {
            return self.settle(times, equation);
        }
        self.shorten_last()?;
        self.settle(times, equation)?;
        let point = self.free();
        self.shape.shorten(&mut self.vectors, point)
    }

    /// Takes an equation with a number: the sum of coefficients times names is a value. Where it is said so, only if its greatest common
    /// divisor is 1.
    pub fn take(
        &mut self,
        equation: usize,
        coefs: &[i128],
        value: i128,
        only_simple: bool,
    ) -> Option<Taken> {
        let lacks = value.checked_sub(dot(coefs, self.point())?)?;
        self.list_values(coefs)?;
        if only_simple && !self.values.iter().any(|value| value.unsigned_abs() == 1) {
            return Some(Taken::Later);
        }
        let Some(number) = self.single_out()? else {
            return Some(if lacks == 0 {
                Taken::Holds
            } else {
                Taken::Nowhere
            });
        };
        let by = at(self.values.as_slice(), number);
        if lacks.checked_rem(by)? != 0 {
            return Some(Taken::Nowhere);
        }
        let last = self.free().saturating_sub(1);
        self.vectors.swap(number, last);
        self.settle_short(lacks.checked_div(by)?, equation, only_simple)?;
        Some(Taken::Holds)
    }

    /// Makes the vectors short.
    pub fn reduce(&mut self) -> Option<()> {
        let count = self.free();
        self.shape.reduce(&mut self.vectors, count)
    }

    // Adds a vector to the point.
    fn move_point(&mut self, by: &[i128], sign: i128) -> Option<()> {
        let point = self.free();
        for (place, number) in by.iter().enumerate() {
            let more = number.checked_mul(sign)?;
            let sum = at(self.vectors.get(point), place).checked_add(more)?;
            self.vectors.put(point, place, sum);
        }
        Some(())
    }

    /// Moves the point near to another one, once the vectors are short.
    pub fn approach(&mut self, wanted: &[i128]) -> Option<()> {
        let point = self.free();
        self.move_point(wanted, -1)?;
        self.shape.shorten(&mut self.vectors, point)?;
        self.move_point(wanted, 1)
    }
}

// The whole number nearest to a quotient.
fn nearest_quotient(value: i128, by: i128) -> Option<i128> {
    let rest = value.checked_rem_euclid(by)?;
    let low = value.checked_sub(rest)?.checked_div(by)?;
    if rest.unsigned_abs() > by.unsigned_abs().saturating_sub(rest.unsigned_abs()) {
        return low.checked_add(if by > 0 { 1 } else { -1 });
    }
    Some(low)
}
