// All lists of elements of given sorts, in rising order.
//
// There are as many as the product of the sizes of the sorts, so this serves where each of them is needed.

ghost use Rattle.std.specs.Prelude.{◌≡◌, ◌∷◌, ◌++◌, IfOk, OnOk, map};
ghost use Rattle.spec_core.specs.World.{below, each_before, tuples};

use crate::world::World;
use items::Items;
use std::alloc::{AllocError, Global};

fn with_first(alloc: Global, first: u32, rest: &[u32]) -> Result<Items<u32>, AllocError>
    ensures { IfOk result (λ t. t ≡ first ∷ rest.now) }
{
    let mut tuple = Vec::new(alloc);
    tuple.push(first)?;
    tuple.extend_from_slice(rest)?;
    Ok(Items::from_vec(tuple))
}

// Appends each tuple with an element before it.
fn append_with(
    alloc: Global,
    first: u32,
    rests: &[Items<u32>],
    out: &mut Items<Items<u32>>,
) -> Result<(), AllocError>
    ensures { OnOk result (out.new ≡ out.old ++ map (λ t. first ∷ t) rests.now) }
{
    for rest in rests {
        out.push(with_first(alloc, first, rest.as_slice())?)?;
    }
    Ok(())
}

// Each element below a size before each tuple.
fn all_with(alloc: Global, size: u32, rests: &[Items<u32>]) -> Result<Items<Items<u32>>, AllocError>
    ensures { IfOk result (λ ts. ts ≡ each_before (below size) rests.now) }
{
    let mut out = Items::new(alloc);
    for e in 0..size {
        append_with(alloc, e, rests, &mut out)?;
    }
    Ok(out)
}

impl World {
    /// Every list of elements of these sorts, rising, the last place fastest.
    pub fn tuples(&self, alloc: Global, sorts: &[u8]) -> Result<Items<Items<u32>>, AllocError>
        ensures { IfOk result (λ ts. ts ≡ tuples self.now sorts.now) }
    {
        let mut all = Items::new(alloc);
        all.push(Items::new(alloc))?;
        for i in 0..sorts.len() {
            let sort = sorts[sorts.len() - 1 - i];
            all = all_with(alloc, self.size(sort), all.as_slice())?;
        }
        Ok(all)
    }
}
