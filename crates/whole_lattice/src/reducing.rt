// Short vectors of a lattice (Lenstra, Lenstra and Lovász), and the point of it near another one (Babai).
//
// A vector is a sum of multiples of what is new in those before it, and of what is new in itself. Where such a multiple is more than a half,
// whole multiples of the vector before are taken away; and where what is new in a vector is much shorter than in the one before, the
// two change places. Both make vectors shorter. The multiples are fractions in floating point, which only say what to take away. What is
// taken away are whole multiples, exactly, so the lattice stays the same whatever they are.
use crate::vectors::Vectors;
use simplex::number::at as whole_at;
use std::alloc::Global;
use std::num::{nearest_i64_to_f64, saturating_f64_to_i64};

/// How often a vector is made shorter at a time.
const ROUNDS: u32 = 8;

/// Of the square of what is new in a vector, so much must be left in the next one.
const SHARE: f64 = 0.98;

/// What is new in each vector, in fractions.
#[derive(Drop)]
pub struct Shape {
    width: usize,
    /// For each two vectors the product of the first with what is new in the second, and that divided by the square of the latter.
    products: Vec<f64>,
    multiples: Vec<f64>,
    /// The square of what is new in each vector.
    squares: Vec<f64>,
    /// How many numbers may still be looked at.
    pub work: usize,
}

// A number as a fraction, to 53 bits or so.
fn fraction(number: i128) -> f64 {
    match i64::try_from(number) {
        Ok(small) => nearest_i64_to_f64(small),
        Err(_) => {
            let high = number.checked_div(18_446_744_073_709_551_616).unwrap_or(0);
            let rest = number.checked_rem(18_446_744_073_709_551_616).unwrap_or(0);
            let low = rest.checked_div(2_048).unwrap_or(0);
            let high = i64::try_from(high).unwrap_or(0);
            let low = i64::try_from(low).unwrap_or(0);
            nearest_i64_to_f64(high) * 18_446_744_073_709_551_616.0
                + nearest_i64_to_f64(low) * 2_048.0
        }
    }
}

// The sum of the products of two vectors.
fn product(left: &[i128], right: &[i128]) -> f64 {
    let mut sum = 0.0;
    for (place, a) in left.iter().enumerate() {
        if *a != 0 {
            sum += fraction(*a) * fraction(whole_at(right, place));
        }
    }
    sum
}

// The whole number nearest to a fraction.
fn nearest(fraction: f64) -> i128 {
    if fraction < 0.0 {
        i128::from(saturating_f64_to_i64(fraction - 0.5))
    } else {
        i128::from(saturating_f64_to_i64(fraction + 0.5))
    }
}

fn at(numbers: &[f64], index: usize) -> f64 {
    match numbers.get(index) {
        Some(number) => *number,
        None => 0.0,
    }
}

fn put(numbers: &mut [f64], index: usize, number: f64) {
    if index < numbers.len() {
        numbers[index] = number;
    }
}

/// The shape of no vectors, with room for so many.
pub fn shape_of(alloc: Global, width: usize, work: usize) -> Option<Shape> {
    let cells = width.checked_mul(width)?;
    let products = vec![in alloc; 0.0; cells].ok()?;
    let multiples = vec![in alloc; 0.0; cells].ok()?;
    let squares = vec![in alloc; 0.0; width].ok()?;
    Some(Shape {
        width,
        products,
        multiples,
        squares,
        work,
    })
}

impl Shape {
    // The place of what is noted of two vectors.
    fn cell(&self, of: usize, by: usize) -> usize {
        of.saturating_mul(self.width).saturating_add(by)
    }

    fn multiple(&self, of: usize, by: usize) -> f64 {
        at(self.multiples.as_slice(), self.cell(of, by))
    }

    fn square(&self, of: usize) -> f64 {
        at(self.squares.as_slice(), of)
    }

    // Counts the numbers of two vectors as looked at.
    fn count(&mut self, numbers: usize) -> Option<()> {
        self.work = self.work.checked_sub(numbers)?;
        Some(())
    }

    // The sum of what a vector has of the vectors before another one, times what that one has of them.
    fn shared(&self, of: usize, by: usize) -> f64 {
        let mut sum = 0.0;
        for i in 0..by {
            let product = at(self.products.as_slice(), self.cell(of, i));
            sum += self.multiple(by, i) * product;
        }
        sum
    }

    // Notes what a vector has of what is new in one before it.
    fn note(&mut self, vectors: &Vectors, of: usize, by: usize) -> Option<()> {
        self.count(vectors.width)?;
        let product = product(vectors.get(of), vectors.get(by)) - self.shared(of, by);
        let cell = self.cell(of, by);
        let square = self.square(by);
        put(self.products.as_mut_slice(), cell, product);
        put(self.multiples.as_mut_slice(), cell, product / square);
        Some(())
    }

    // Notes what a vector has of what is new in each before it, and what is new in it.
    fn note_all(&mut self, vectors: &Vectors, of: usize) -> Option<()> {
        for by in 0..of {
            self.note(vectors, of, by)?;
        }
        self.count(vectors.width)?;
        let square = product(vectors.get(of), vectors.get(of));
        let mut rest = square;
        for by in 0..of {
            let product = at(self.products.as_slice(), self.cell(of, by));
            rest -= self.multiple(of, by) * product;
        }
        let least = square * 0.000_000_000_000_1;
        let new = if rest < least { least } else { rest };
        put(self.squares.as_mut_slice(), of, new);
        Some(())
    }

    // Takes whole multiples of a vector before it from a vector; whether there was one to take.
    fn take_from(&mut self, vectors: &mut Vectors, of: usize, by: usize) -> Option<bool> {
        let times = nearest(self.multiple(of, by));
        if times == 0 {
            return Some(false);
        }
        vectors.add_multiple(of, by, times.checked_neg()?)?;
        self.count(vectors.width)?;
        let taken = fraction(times);
        for i in 0..by {
            let left = self.multiple(of, i) - taken * self.multiple(by, i);
            let cell = self.cell(of, i);
            put(self.multiples.as_mut_slice(), cell, left);
        }
        Some(true)
    }

    // Takes whole multiples of all vectors before it from a vector; whether there was one to take.
    fn take_once(&mut self, vectors: &mut Vectors, of: usize) -> Option<bool> {
        self.note_all(vectors, of)?;
        let mut any = false;
        for i in 0..of {
            let by = of.saturating_sub(i).saturating_sub(1);
            if self.take_from(vectors, of, by)? {
                any = true;
            }
        }
        Some(any)
    }

    /// Takes whole multiples of the vectors before it from a vector, until what is left is near to 0.
    pub fn shorten(&mut self, vectors: &mut Vectors, of: usize) -> Option<()> {
        for _round in 0..ROUNDS {
            if !self.take_once(vectors, of)? {
                return Some(());
            }
        }
        self.note_all(vectors, of)
    }

    // Whether what is new in a vector is long enough to stand behind the one before it.
    fn stands(&self, of: usize, before: usize) -> bool {
        let multiple = self.multiple(of, before);
        self.square(of) >= (SHARE - multiple * multiple) * self.square(before)
    }

    // Makes a vector shorter, and lets it change places with the one before where that is much longer; the number of the next one.
    fn step(&mut self, vectors: &mut Vectors, of: usize) -> Option<usize> {
        let before = of.checked_sub(1)?;
        if before == 0 {
            self.note_all(vectors, 0)?;
        }
        self.shorten(vectors, of)?;
        if self.stands(of, before) {
            return Some(of.saturating_add(1));
        }
        vectors.swap(before, of);
        Some(if before > 1 { before } else { 1 })
    }

    /// Makes the first vectors short.
    pub fn reduce(&mut self, vectors: &mut Vectors, count: usize) -> Option<()> {
        if count > 0 {
            self.note_all(vectors, 0)?;
        }
        let mut of = 1;
        for _step in 0..self.work {
            if of >= count {
                return Some(());
            }
            of = self.step(vectors, of)?;
        }
        None
    }
}
