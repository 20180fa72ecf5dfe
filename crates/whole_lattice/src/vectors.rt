// Vectors of whole numbers in a list, one behind the other.
use simplex::Number;
use simplex::number::{at, put};
use std::alloc::Global;

/// Vectors of one length.
#[derive(Drop)]
pub struct Vectors {
    pub width: usize,
    pub cells: Vec<i128>,
}

/// The sum of the products of two vectors, as far as both go.
pub fn dot(left: &[i128], right: &[i128]) -> Option<i128> {
    let mut sum = 0i128;
    for (place, a) in left.iter().enumerate() {
        if *a != 0 {
            let more = (*a).times(at(right, place))?;
            sum = sum.checked_add(more)?;
        }
    }
    Some(sum)
}

impl Vectors {
    /// No vectors.
    pub fn new(alloc: Global, width: usize) -> Vectors {
        Vectors {
            width,
            cells: Vec::new(alloc),
        }
    }

    /// How many there are.
    pub fn len(&self) -> usize {
        self.cells.len().checked_div(self.width).unwrap_or(0)
    }

    // The place of a vector's first number.
    fn start_of(&self, number: usize) -> usize {
        number.saturating_mul(self.width)
    }

    /// The vector with a number.
    pub fn get(&self, number: usize) -> &[i128] {
        let start = self.start_of(number);
        let end = start.saturating_add(self.width);
        self.cells.get(start..end).unwrap_or(&[])
    }

    /// Adds a vector, as long as the others.
    pub fn push(&mut self, vector: &[i128]) -> Option<()> {
        if vector.len() != self.width {
            return None;
        }
        for number in vector {
            self.cells.push(*number).ok()?;
        }
        Some(())
    }

    /// Adds a vector that is 0 but for one place.
    pub fn push_unit(&mut self, place: usize) -> Option<()> {
        for i in 0..self.width {
            let number = if i == place { 1 } else { 0 };
            self.cells.push(number).ok()?;
        }
        Some(())
    }

    /// Writes a number of a vector.
    pub fn put(&mut self, number: usize, place: usize, value: i128) {
        let index = self.start_of(number).saturating_add(place);
        put(self.cells.as_mut_slice(), index, value);
    }

    /// Adds a multiple of one vector to another.
    pub fn add_multiple(&mut self, into: usize, of: usize, by: i128) -> Option<()> {
        let to = self.start_of(into);
        let from = self.start_of(of);
        for place in 0..self.width {
            let more = at(self.cells.as_slice(), from.saturating_add(place));
            if more != 0 {
                let index = to.saturating_add(place);
                let sum = at(self.cells.as_slice(), index).checked_add(more.times(by)?)?;
                put(self.cells.as_mut_slice(), index, sum);
            }
        }
        Some(())
    }

    /// Two vectors change places.
    pub fn swap(&mut self, left: usize, right: usize) {
        let first = self.start_of(left);
        let second = self.start_of(right);
        for place in 0..self.width {
            let a = first.saturating_add(place);
            let b = second.saturating_add(place);
            if a < self.cells.len() && b < self.cells.len() {
                self.cells.swap(a, b);
            }
        }
    }

    /// Leaves the last vector out.
    pub fn pop(&mut self) {
        for _place in 0..self.width {
            let _ = self.cells.pop();
        }
    }
}
