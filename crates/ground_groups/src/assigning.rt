// The constants of a sort, and how many assignments of constants to variables there are.
ghost use Rattle.std.specs.Prelude.{◌≡◌, ◌≤◌, map, length, IfOk};
ghost use Rattle.ground_problem.specs.Constants.{of_sort, choices};

use items::Items;
use std::alloc::{AllocError, Global};

/// The constants of a sort, in rising order.
pub fn of_sort(alloc: Global, sorts: &[u8], sort: u8) -> Result<Items<u32>, AllocError>
    ensures { IfOk result (λ ns. ns ≡ of_sort 0 sorts.now sort) }
{
    let mut constants = Items::new(alloc);
    for place in 0..sorts.len() {
        if sorts[place] == sort {
            constants.push(as_number(place)?)?;
        }
    }
    Ok(constants)
}

/// A place as a number.
pub fn as_number(place: usize) -> Result<u32, AllocError>
    ensures { IfOk result (λ n. n ≡ place) }
{
    match u32::try_from(place) {
        Ok(number) => Ok(number),
        Err(_) => Err(AllocError),
    }
}

/// The constants that each of these variables may have.
pub fn options_of(alloc: Global, sorts: &[u8], vars: &[u8]) -> Result<Items<Items<u32>>, AllocError>
    ensures { IfOk result (λ lists. lists ≡ map (of_sort 0 sorts.now) vars.now) }
{
    let mut options = Items::new(alloc);
    for sort in vars {
        options.push(of_sort(alloc, sorts, *sort)?)?;
    }
    Ok(options)
}

/// How many choices of one from each list there are, or the greatest number of a machine where there are more.
pub fn count_choices(options: &[Items<u32>]) -> usize
    ensures { result ≤ length (choices options.now) }
{
    match options {
        [] => 1,
        [first, rest @ ..] => first.len().saturating_mul(count_choices(rest)),
    }
}
