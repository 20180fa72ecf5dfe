// The elements that constants stand for.
ghost use Rattle.std.specs.Prelude.{◌≡◌, ◌<◌, IfOk, true, nat_lt, length, map, slice_index};
ghost use Rattle.std.specs.List.{list_all, range_with_len};
ghost use Rattle.model_back.specs.Equals.{alike_by, classes_by, element_by};

use crate::classes::{classes_of_sort, element};
use crate::equals::Equal;
use items::Items;
use std::alloc::{AllocError, Global};

/// The classes of each of so many sorts.
pub fn all_classes(
    alloc: Global,
    equals: &[Equal],
    sorts: &[u8],
    count: u8,
) -> Result<Vec<Items<u32>>, AllocError>
    ensures { IfOk result (λ all. all.items ≡ map (classes_by (alike_by equals.now) sorts.now)
        (range_with_len 0 count)) }
{
    let mut all = Vec::new(alloc);
    for sort in 0..count {
        all.push(classes_of_sort(alloc, equals, sorts, sort)?)?;
    }
    Ok(all)
}

/// The element of each constant, from the classes of each sort.
pub fn all_elements(
    alloc: Global,
    equals: &[Equal],
    sorts: &[u8],
    classes: &[Items<u32>],
) -> Result<Vec<u32>, AllocError>
    requires exist { list_all (λ s. nat_lt s (length classes.now)) sorts.now ≡ true }
    requires classes { classes.now ≡ map (classes_by (alike_by equals.now) sorts.now)
        (range_with_len 0 (length classes.now)) }
    ensures { IfOk result
        (λ es. es.items
        ≡ map (element_by (alike_by equals.now) sorts.now) (range_with_len 0 (length sorts.now))) }
{
    let mut elements = Vec::new(alloc);
    let mut constant: u32 = 0;
    for sort in sorts {
        let own = &classes[*sort as usize];
        elements.push(element(equals, own.as_slice(), constant)?)?;
        constant = constant.checked_add(1).ok_or(AllocError)?;
    }
    Ok(elements)
}
