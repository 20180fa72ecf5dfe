// Lesser numbers: a value or an argument comes nearer to 0, alone or with another one.

use crate::changes::{Change, Left, number_at};
use crate::draft::{Number, Place};
use crate::refutation::Refutation;
use items::Items;
use std::alloc::AllocError;

// The most parameters that a call has, and the most arguments that both calls have.
const MOST_PARAMETERS: usize = 6;

const MOST_ARGUMENTS: usize = 12;

// How often a number can be halved.
const MOST_HALVES: usize = 50;

// The places of all numbers, the arguments first.
fn place_at(n: usize) -> Place {
    if n < MOST_ARGUMENTS {
        Place::Argument(n / MOST_PARAMETERS, n % MOST_PARAMETERS)
    } else {
        Place::Value(n - MOST_ARGUMENTS)
    }
}

// A number that came nearer to 0 by this much, or went away from it.
fn nearer(number: Number, sign: i64, by: i64) -> Number {
    Number {
        place: number.place,
        value: number.value.wrapping_sub(sign.wrapping_mul(by)),
    }
}

// A number without its sign.
fn size_of(number: Number) -> i64 {
    number.value.wrapping_mul(number.value.signum())
}

impl Refutation<'_> {
    fn sets(&mut self, numbers: &[Number]) -> Result<bool, AllocError> {
        let left = Left::None;
        self.changes(Change { left, numbers })
    }

    fn sets_one(&mut self, place: Place, value: i64) -> Result<bool, AllocError> {
        self.sets(&[Number { place, value }])
    }

    fn number(&self, place: Place) -> Option<Number> {
        number_at(self.spec, &self.draft, place)
    }

    // Makes a number below 0 one above it.
    fn turns(&mut self, number: Number) -> Result<bool, AllocError> {
        if number.value > 0 {
            return Ok(false);
        }
        for value in &[1, 2, number.value.wrapping_neg()] {
            if self.sets_one(number.place, *value)? {
                return Ok(true);
            }
        }
        Ok(false)
    }

    // Makes a number 0, or else brings it nearer.
    fn lessens(&mut self, place: Place) -> Result<bool, AllocError> {
        let Some(number) = self.number(place) else {
            return Ok(false);
        };
        if self.sets_one(place, 0)? {
            return Ok(true);
        }
        let is_turned = self.turns(number)?;
        let Some(number) = self.number(place) else {
            return Ok(is_turned);
        };
        let is_halved = self.halves(&[number], size_of(number))?;
        Ok(is_turned || is_halved)
    }

    // Brings a number nearer to 0 and another one along by as much, or against it.
    fn moves_by(
        &mut self,
        one: Number,
        other: Number,
        by: i64,
        along: i64,
    ) -> Result<bool, AllocError> {
        let sign = one.value.signum();
        let first = nearer(one, sign, by);
        let second = nearer(other, sign.wrapping_mul(along), by);
        self.sets(&[first, second])
    }

    // The same by its whole size, by half of it, and so on.
    fn moves(&mut self, one: Place, other: Place, along: i64) -> Result<bool, AllocError> {
        let (Some(first), Some(second)) = (self.number(one), self.number(other)) else {
            return Ok(false);
        };
        let mut by = size_of(first);
        for _ in 0..MOST_HALVES {
            if by < 1 {
                return Ok(false);
            }
            if self.moves_by(first, second, by, along)? {
                return Ok(true);
            }
            by /= 2;
        }
        Ok(false)
    }

    fn moves_with(&mut self, one: Place, other: Place) -> Result<bool, AllocError> {
        if one == other {
            return Ok(false);
        }
        Ok(self.moves(one, other, 1)? || self.moves(one, other, -1)?)
    }

    // Moves a number with each other one.
    fn moves_any(&mut self, one: Place) -> Result<bool, AllocError> {
        if self.number(one).is_none() {
            return Ok(false);
        }
        for n in 0..MOST_ARGUMENTS.saturating_add(self.draft.facts.len()) {
            if self.moves_with(one, place_at(n))? {
                return Ok(true);
            }
        }
        Ok(false)
    }

    // The numbers of this size.
    fn of_size(&self, size: i64) -> Result<Items<Number>, AllocError> {
        let mut found = Items::new(self.alloc);
        for n in 0..MOST_ARGUMENTS.saturating_add(self.draft.facts.len()) {
            let Some(number) = self.number(place_at(n)) else {
                continue;
            };
            if size == size_of(number) {
                found.push(number)?;
            }
        }
        Ok(found)
    }

    // Gives numbers another size.
    fn resizes(&mut self, numbers: &[Number], size: i64) -> Result<bool, AllocError> {
        let mut changes = Items::new(self.alloc);
        for number in numbers {
            let value = number.value.signum().wrapping_mul(size);
            changes.push(Number {
                place: number.place,
                value,
            })?;
        }
        let is_changed = self.sets(changes.as_slice());
        drop(changes);
        is_changed
    }

    // Brings numbers of one size nearer to 0 together, as near as halving the distance shows.
    fn halves(&mut self, numbers: &[Number], size: i64) -> Result<bool, AllocError> {
        let mut low = 0i64;
        let mut high = size;
        let mut changed = false;
        for n in 0..MOST_HALVES {
            let gap = high.wrapping_sub(low);
            if gap < 2 {
                return Ok(changed);
            }
            let middle = low.wrapping_add(if n == 0 { 1 } else { gap / 2 });
            if self.resizes(numbers, middle)? {
                high = middle;
                changed = true;
            } else {
                low = middle;
            }
        }
        Ok(changed)
    }

    // Brings a number and the others of its size nearer to 0 together, where they are three or more.
    fn moves_equal(&mut self, place: Place) -> Result<bool, AllocError> {
        let Some(number) = self.number(place) else {
            return Ok(false);
        };
        let size = size_of(number);
        let numbers = self.of_size(size)?;
        let is_changed = if numbers.len() > 2 {
            self.halves(numbers.as_slice(), size)
        } else {
            Ok(false)
        };
        drop(numbers);
        is_changed
    }

    // Makes a value 0, and another number less by this much.
    fn trades_by(&mut self, value: Number, other: Number, by: i64) -> Result<bool, AllocError> {
        let none = nearer(value, 1, value.value);
        self.sets(&[none, nearer(other, 1, by)])
    }

    // Makes a value 0 where another number is 0 too, or grows or falls a little for it.
    fn trades(&mut self, value: Place, other: Place) -> Result<bool, AllocError> {
        let (Some(first), Some(second)) = (self.number(value), self.number(other)) else {
            return Ok(false);
        };
        if value == other {
            return Ok(false);
        }
        for by in &[second.value, -1, -2, 1, 2] {
            if self.trades_by(first, second, *by)? {
                return Ok(true);
            }
        }
        Ok(false)
    }

    fn trades_any(&mut self, value: Place) -> Result<bool, AllocError> {
        for n in 0..MOST_ARGUMENTS.saturating_add(self.draft.facts.len()) {
            if self.trades(value, place_at(n))? {
                return Ok(true);
            }
        }
        Ok(false)
    }

    fn trades_values(&mut self) -> Result<bool, AllocError> {
        for n in 0..self.draft.facts.len() {
            if self.trades_any(Place::Value(n))? {
                return Ok(true);
            }
        }
        Ok(false)
    }

    fn alone(&mut self, place: Place, value: i64) -> Result<bool, AllocError> {
        let numbers = &[Number { place, value }];
        self.changes(Change {
            left: Left::All,
            numbers,
        })
    }

    // Leaves out all facts where an argument is 0 or 1.
    fn leaves_arguments(&mut self) -> Result<bool, AllocError> {
        for n in 0..MOST_ARGUMENTS {
            let place = place_at(n);
            if self.number(place).is_some() && (self.alone(place, 0)? || self.alone(place, 1)?) {
                return Ok(true);
            }
        }
        Ok(false)
    }

    // Brings numbers nearer to 0 that are of one size, as a sum or an equation may tie them.
    fn moves_groups(&mut self) -> Result<bool, AllocError> {
        for n in 0..MOST_ARGUMENTS.saturating_add(self.draft.facts.len()) {
            if self.moves_equal(place_at(n))? {
                return Ok(true);
            }
        }
        Ok(false)
    }

    fn moves_pairs(&mut self) -> Result<bool, AllocError> {
        for n in 0..MOST_ARGUMENTS.saturating_add(self.draft.facts.len()) {
            if self.moves_any(place_at(n))? {
                return Ok(true);
            }
        }
        Ok(false)
    }

    // Brings numbers nearer to 0 one by one.
    fn lessens_each(&mut self) -> Result<bool, AllocError> {
        let count = MOST_ARGUMENTS.saturating_add(self.draft.facts.len());
        let mut changed = false;
        for n in 0..count {
            if self.lessens(place_at(count - 1 - n))? {
                changed = true;
            }
        }
        Ok(changed)
    }

    /// Brings numbers nearer to 0 as long as what is left refutes the obligation. Says whether there was a change.
    pub fn with_lesser_numbers(&mut self) -> Result<bool, AllocError> {
        Ok(
            self.lessens_each()?
                || self.moves_groups()?
                || self.trades_values()?
                || self.leaves_arguments()?
                || self.moves_pairs()?,
        )
    }
}
