// The sum of multiples of two rows, where the multipliers are tested.
ghost use Rattle.lin_rows.specs.Multiples.{IsSumOfMultiples};

use crate::adding::sum_in;
use crate::refused::RowRefused;
use crate::row::Row;
use crate::term::RowTerm;
use std::alloc::Global;

/// Why multiples of two rows have no sum.
#[derive(Clone, Copy, PartialEq, Eq, Debug)]
pub enum MultiplesRefused {
    /// A multiplier is negative.
    Negative,
    /// A needed product or sum leaves the range of a row.
    Range,
    /// There was no memory for the result.
    Memory,
}

/// `first` times the left row plus `second` times the right row, tightened. A negative multiplier is refused before anything is added.
pub fn sum_of_multiples(
    alloc: Global,
    left: &Row,
    first: i128,
    right: &Row,
    second: i128,
) -> Result<Row, MultiplesRefused>
    ensures { IsSumOfMultiples result left.now first right.now second }
{
    sum_of_multiples_in(alloc, Vec::new(alloc), left, first, right, second)
}

/// The same sum, written over terms that nothing needs any more, so that it seldom takes memory.
pub fn sum_of_multiples_in(
    alloc: Global,
    room: Vec<RowTerm>,
    left: &Row,
    first: i128,
    right: &Row,
    second: i128,
) -> Result<Row, MultiplesRefused>
    ensures { IsSumOfMultiples result left.now first right.now second }
{
    if first < 0 || second < 0 {
        return Err(MultiplesRefused::Negative);
    }
    match sum_in(alloc, room, left, first, right, second) {
        Ok(row) => Ok(row),
        Err(RowRefused::Range) => Err(MultiplesRefused::Range),
        Err(RowRefused::Memory) => Err(MultiplesRefused::Memory),
    }
}
