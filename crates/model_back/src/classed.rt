// The world that truth values give, and the element of each constant in it.
ghost use Rattle.std.specs.{Prelude.{◌≡◌, IfOk, true, nat_lt, length}, List.{list_all}};
ghost use Rattle.model_back.specs.Classed.{IsClassed};

use crate::equals::equals_of;
use crate::values::{all_classes, all_elements};
use crate::world::world_with;
use ground_atoms::Atoms;
use spec_core::{Spec, World};
use std::alloc::{AllocError, Global};

/// A world, and the element of each constant in it.
#[derive(Drop)]
pub struct Classed {
    pub world: World,
    pub elements: Vec<u32>,
}

/// The world whose elements are the classes of the constants that are equal by these truth values. The constants have these sorts.
pub fn world_of(
    alloc: Global,
    spec: &Spec,
    atoms: &Atoms,
    sorts: &[u8],
    truths: &[bool],
) -> Result<Classed, AllocError>
    requires { list_all (λ s. nat_lt s (length spec.now.sorts)) sorts.now ≡ true }
    ensures { IfOk result (λ c. IsClassed spec.now atoms.now.table sorts.now truths.now c) }
{
    let (Ok(count), Ok(declared)) = (
        u8::try_from(spec.sorts.len()),
        u32::try_from(spec.consts.len()),
    ) else {
        return Err(AllocError);
    };
    let equals = equals_of(alloc, atoms, truths)?;
    let classes = all_classes(alloc, &equals, sorts, count)?;
    let elements = all_elements(alloc, &equals, sorts, &classes)?;
    let world = world_with(alloc, &classes, &elements, declared)?;
    Ok(Classed { world, elements })
}
