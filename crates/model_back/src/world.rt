// The world that an interpretation gives.
ghost use Rattle.std.specs.{Prelude.{◌≡◌, IfOk, length, map, slice_index}, List.{range_with_len}};

use crate::state::element_of;
use items::Items;
use spec_core::World;
use std::alloc::{AllocError, Global};

fn sizes_of(alloc: Global, classes: &[Items<u32>]) -> Result<Items<u32>, AllocError>
    ensures { IfOk result (λ sizes. sizes ≡ map length classes.now) }
{
    let mut sizes = Items::new(alloc);
    for own in classes {
        let Ok(size) = u32::try_from(own.len()) else {
            return Err(AllocError);
        };
        sizes.push(size)?;
    }
    Ok(sizes)
}

fn consts_of(alloc: Global, elements: &[u32], count: u32) -> Result<Items<u32>, AllocError>
    ensures { IfOk result (λ consts. consts ≡ map (slice_index elements.now)
        (range_with_len 0 count)) }
{
    let mut consts = Items::new(alloc);
    for c in 0..count {
        consts.push(element_of(elements, c))?;
    }
    Ok(consts)
}

/// The world of these classes, in which the first so many constants are declared.
pub fn world_with(
    alloc: Global,
    classes: &[Items<u32>],
    elements: &[u32],
    count: u32,
) -> Result<World, AllocError>
    ensures { IfOk result
        (λ w. w
        ≡ record { sizes = map length classes.now; consts = map (slice_index elements.now) (range_with_len 0 count) }) }
{
    let sizes = sizes_of(alloc, classes)?;
    let consts = consts_of(alloc, elements, count)?;
    Ok(World { sizes, consts })
}
