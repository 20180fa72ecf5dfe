// Whole numbers of a width, where nothing is answered in place of a number that is too large.
use lin_rows::tightening::gcd;

/// Whole numbers of one width. Where a result has no room, there is none.
pub trait Number: Copy {
    /// 0.
    fn zero() -> Self;

    /// 1.
    fn one() -> Self;

    /// The same number in this width.
    fn of(number: i128) -> Option<Self>;

    /// The same number in 128 bits.
    fn wide(self) -> i128;

    /// Whether it is 0.
    fn is_zero(self) -> bool;

    /// Whether it is 1.
    fn is_one(self) -> bool;

    /// Whether it is above 0.
    fn is_positive(self) -> bool;

    /// Whether it is above another one.
    fn is_above(self, other: Self) -> bool;

    /// The number with the other sign.
    fn opposite(self) -> Option<Self>;

    /// The sum.
    fn plus(self, more: Self) -> Option<Self>;

    /// The product.
    fn times(self, by: Self) -> Option<Self>;

    /// The quotient, rounded to 0.
    fn over(self, by: Self) -> Option<Self>;

    /// The greatest common divisor, by which both numbers may be divided; 1 where it has none or no room.
    fn divisor(self, other: Self) -> Self;
}

// The greatest common divisor of two small numbers, by Euclid's algorithm, which takes less than a hundred rounds.
fn small_gcd(a: u64, b: u64) -> u64 {
    let mut x = a;
    let mut y = b;
    for _round in 0..100 {
        if y == 0 {
            return x;
        }
        let rest = x % y;
        x = y;
        y = rest;
    }
    1
}

// The greatest common divisor. Numbers are mostly small, and then it takes a fifth of the time.
fn any_gcd(a: u128, b: u128) -> u128 {
    match (u64::try_from(a), u64::try_from(b)) {
        (Ok(x), Ok(y)) => u128::from(small_gcd(x, y)),
        _ => gcd(a, b),
    }
}

impl Number for i64 {
    fn zero() -> i64 {
        0
    }

    fn one() -> i64 {
        1
    }

    fn of(number: i128) -> Option<i64> {
        i64::try_from(number).ok()
    }

    fn wide(self) -> i128 {
        i128::from(self)
    }

    fn is_zero(self) -> bool {
        self == 0
    }

    fn is_one(self) -> bool {
        self == 1
    }

    fn is_positive(self) -> bool {
        self > 0
    }

    fn is_above(self, other: i64) -> bool {
        self > other
    }

    fn opposite(self) -> Option<i64> {
        self.checked_neg()
    }

    fn plus(self, more: i64) -> Option<i64> {
        self.checked_add(more)
    }

    fn times(self, by: i64) -> Option<i64> {
        self.checked_mul(by)
    }

    fn over(self, by: i64) -> Option<i64> {
        self.checked_div(by)
    }

    fn divisor(self, other: i64) -> i64 {
        if self == 1 || other == 1 {
            return 1;
        }
        match i64::try_from(small_gcd(self.unsigned_abs(), other.unsigned_abs())) {
            Ok(0) => 1,
            Ok(common) => common,
            Err(_) => 1,
        }
    }
}

impl Number for i128 {
    fn zero() -> i128 {
        0
    }

    fn one() -> i128 {
        1
    }

    fn of(number: i128) -> Option<i128> {
        Some(number)
    }

    fn wide(self) -> i128 {
        self
    }

    fn is_zero(self) -> bool {
        self == 0
    }

    fn is_one(self) -> bool {
        self == 1
    }

    fn is_positive(self) -> bool {
        self > 0
    }

    fn is_above(self, other: i128) -> bool {
        self > other
    }

    fn opposite(self) -> Option<i128> {
        self.checked_neg()
    }

    fn plus(self, more: i128) -> Option<i128> {
        self.checked_add(more)
    }

    // Numbers are mostly small, and then it takes one multiplication: two numbers of 64 bits have a product of 128.
    fn times(self, by: i128) -> Option<i128> {
        match (i64::try_from(self), i64::try_from(by)) {
            (Ok(x), Ok(y)) => Some(i128::from(x).wrapping_mul(i128::from(y))),
            _ => self.checked_mul(by),
        }
    }

    fn over(self, by: i128) -> Option<i128> {
        self.checked_div(by)
    }

    fn divisor(self, other: i128) -> i128 {
        if self == 1 || other == 1 {
            return 1;
        }
        match i128::try_from(any_gcd(self.unsigned_abs(), other.unsigned_abs())) {
            Ok(0) => 1,
            Ok(common) => common,
            Err(_) => 1,
        }
    }
}

/// `a * first + b * second`.
pub fn sum_of_products<N: Number>(a: N, first: N, b: N, second: N) -> Option<N> {
    a.times(first)?.plus(b.times(second)?)
}

/// The number of a list, 0 where there is none.
pub fn at<N: Number>(numbers: &[N], index: usize) -> N {
    match numbers.get(index) {
        Some(number) => *number,
        None => N::zero(),
    }
}

/// Writes a number into a list, where it has room.
pub fn put<N: Number>(numbers: &mut [N], index: usize, number: N) {
    if index < numbers.len() {
        numbers[index] = number;
    }
}

// The greatest common divisor of a number and all of a list.
fn common_divisor<N: Number>(numbers: &[N], with: N) -> N {
    let mut common = with;
    for number in numbers {
        if common.is_one() {
            return common;
        }
        if !number.is_zero() {
            common = common.divisor(*number);
        }
    }
    common
}

fn divide_all<N: Number>(numbers: &mut [N], by: N) -> Option<()> {
    for i in 0..numbers.len() {
        let number = at(numbers, i);
        if !number.is_zero() {
            put(numbers, i, number.over(by)?);
        }
    }
    Some(())
}

/// Divides all numbers of a list by what divides them and one more number; answers that divisor.
pub fn reduce<N: Number>(numbers: &mut [N], with: N) -> Option<N> {
    if with.is_one() {
        return Some(with);
    }
    let common = common_divisor(numbers, with);
    if !common.is_one() {
        divide_all(numbers, common)?;
    }
    Some(common)
}

/// Multiplies all numbers of a list.
pub fn scale<N: Number>(numbers: &mut [N], by: N) -> Option<()> {
    for i in 0..numbers.len() {
        let number = at(numbers, i);
        if !number.is_zero() {
            put(numbers, i, number.times(by)?);
        }
    }
    Some(())
}

/// Adds a multiple of the numbers of another list to those in the same places.
pub fn add_multiples<N: Number>(
    numbers: &mut [N],
    other: &[N],
    places: &[usize],
    by: N,
) -> Option<()> {
    for place in places {
        let more = at(other, *place).times(by)?;
        let sum = at(numbers, *place).plus(more)?;
        put(numbers, *place, sum);
    }
    Some(())
}
