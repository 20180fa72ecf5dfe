// The elements of each sort: the classes of its equal constants.
ghost use Rattle.std.specs.Prelude.{◌≡◌, IfOk, OnOk, []};
ghost use Rattle.ground_problem.specs.{Classes.{any_like, firsts, place_like}, Constants.{of_sort}};
ghost use Rattle.model_back.specs.Equals.{alike_by, with_class};

use crate::equals::{Equal, alike};
use items::Items;
use std::alloc::{AllocError, Global};

fn any_alike(equals: &[Equal], constant: u32, others: &[u32]) -> bool
    ensures { result ≡ any_like (alike_by equals.now) constant others.now }
{
    match others {
        [] => false,
        [first, rest @ ..] => alike(equals, *first, constant) || any_alike(equals, constant, rest),
    }
}

// Lists a constant of the sort, unless it is equal to one that is listed.
fn list_class(
    equals: &[Equal],
    is_own: bool,
    constant: u32,
    firsts: &mut Items<u32>,
) -> Result<(), AllocError>
    ensures { OnOk result (firsts.new ≡ with_class
        (alike_by equals.now) is_own constant firsts.old) }
{
    if !is_own || any_alike(equals, constant, firsts.as_slice()) {
        return Ok(());
    }
    firsts.push(constant)?;
    Ok(())
}

/// The least constant of each class of a sort, in rising order.
pub fn classes_of_sort(
    alloc: Global,
    equals: &[Equal],
    sorts: &[u8],
    sort: u8,
) -> Result<Items<u32>, AllocError>
    ensures { IfOk result (λ cs. cs ≡ firsts (alike_by equals.now) [] (of_sort 0 sorts.now sort)) }
{
    let mut firsts = Items::new(alloc);
    let mut constant: u32 = 0;
    for own in sorts {
        list_class(equals, *own == sort, constant, &mut firsts)?;
        constant = constant.checked_add(1).ok_or(AllocError)?;
    }
    Ok(firsts)
}

/// The element of a constant: the place of its class.
pub fn element(equals: &[Equal], classes: &[u32], constant: u32) -> Result<u32, AllocError>
    ensures { IfOk result (λ e. e ≡ place_like (alike_by equals.now) constant classes.now) }
{
    match classes {
        [] => Ok(0),
        [first, rest @ ..] => {
            if alike(equals, *first, constant) {
                Ok(0)
            } else {
                element(equals, rest, constant)?
                    .checked_add(1)
                    .ok_or(AllocError)
            }
        }
    }
}
