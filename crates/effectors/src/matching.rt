// The tuples or keys that the spots of an update match, in rising order. Only a `*` goes over a whole sort.

ghost use Rattle.std.specs.Prelude.{◌≡◌, ◌++◌, ◌∷◌, [], true, map, nat_le, IfOk, OnOk};
ghost use Rattle.std.specs.List.{list_all};
ghost use Rattle.spec_core.specs.{World.{below, each_before}, Specification.{places_of}};
ghost use Rattle.spec_core.specs.Fits.{fits_places, world_fits, spots_fit, update_fits};
ghost use Rattle.effectors.specs.Reaching.{matching, reached};

use items::Items;
use spec_core::{Call, Spec, Spot, Update, World, elem_at};
use std::alloc::{AllocError, Global};

// An element before a tuple.
fn before(alloc: Global, element: u32, tuple: &[u32]) -> Result<Items<u32>, AllocError>
    ensures { IfOk result (λ t. t ≡ element ∷ tuple.now) }
{
    let mut longer = Items::new(alloc);
    longer.push(element)?;
    for next in tuple {
        longer.push(*next)?;
    }
    Ok(longer)
}

// Adds each tuple with an element before it.
fn add_before(
    alloc: Global,
    list: &mut Items<Items<u32>>,
    element: u32,
    tuples: &[Items<u32>],
) -> Result<(), AllocError>
    ensures { OnOk result (list.new ≡ list.old ++ map (λ t. element ∷ t) tuples.now) }
{
    for tuple in tuples {
        list.push(before(alloc, element, tuple.as_slice())?)?;
    }
    Ok(())
}

/// Each element below a size before each tuple.
pub fn all_before(
    alloc: Global,
    size: u32,
    tuples: &[Items<u32>],
) -> Result<Items<Items<u32>>, AllocError>
    ensures { IfOk result (λ list. list ≡ each_before (below size) tuples.now) }
{
    let mut list = Items::new(alloc);
    for element in 0..size {
        add_before(alloc, &mut list, element, tuples)?;
    }
    Ok(list)
}

// One element before each tuple.
fn one_before(
    alloc: Global,
    element: u32,
    tuples: &[Items<u32>],
) -> Result<Items<Items<u32>>, AllocError>
    ensures { IfOk result (λ list. list ≡ each_before (element ∷ []) tuples.now) }
{
    let mut list = Items::new(alloc);
    add_before(alloc, &mut list, element, tuples)?;
    Ok(list)
}

/// The lists of elements of these sorts that the spots of an update match.
pub fn matching(
    alloc: Global,
    world: &World,
    args: &[i64],
    sorts: &[u8],
    spots: &[Spot],
) -> Result<Items<Items<u32>>, AllocError>
    requires sizes { list_all (λ n. nat_le n 100) world.now.sizes ≡ true }
    requires fits { spots_fit world.now args.now sorts.now spots.now ≡ true }
    ensures { IfOk result (λ list. list ≡ matching world.now args.now sorts.now spots.now) }
{
    match sorts {
        [] => {
            let mut list = Items::new(alloc);
            list.push(Items::new(alloc))?;
            Ok(list)
        }
        [sort, sorts @ ..] => match spots {
            [] => Ok(Items::new(alloc)),
            [spot, spots @ ..] => {
                let rest = matching(alloc, world, args, sorts, spots)?;
                match spot {
                    Spot::Every => all_before(alloc, world.size(*sort), rest.as_slice()),
                    Spot::One(elem) => one_before(
                        alloc,
                        elem_at(world, args, &[], *elem) as u32,
                        rest.as_slice(),
                    ),
                }
            }
        },
    }
}

/// The tuples or keys that an update of a call reaches.
pub fn reached(
    alloc: Global,
    spec: &Spec,
    world: &World,
    call: &Call,
    update: &Update,
) -> Result<Items<Items<u32>>, AllocError>
    requires world { world_fits spec.now world.now ≡ true }
    requires update { update_fits spec.now world.now call.now.args update.now ≡ true }
    ensures reached { IfOk result (λ list. list
        ≡ reached spec.now world.now call.now.args update.now) }
    ensures fits { IfOk result (λ list. list_all
        (fits_places world.now (places_of spec.now update.now.thing)) list ≡ true) }
{
    let places = spec.places_of(update.thing);
    let list = matching(
        alloc,
        world,
        call.args.as_slice(),
        places,
        update.at.as_slice(),
    )?;
    Ok(list)
}
