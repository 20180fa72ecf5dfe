// The relations and the counters of a specification.
ghost use Rattle.std.specs.Prelude.{◌≡◌, ◌++◌, map, IfOk, OnOk};
ghost use Rattle.spec_core.specs.World.{below};
ghost use Rattle.spec_core.specs.declared.update.Thing.TheVariants as thing;
ghost use Rattle.obligation_list.specs.Obligations.{things};

use crate::numbering::as_small;
use items::Items;
use spec_core::{Spec, Thing};
use std::alloc::{AllocError, Global};

#[tactic(auto, using(crate::proofs::MoreThings::below_more))]
fn add_relations(out: &mut Items<Thing>, count: usize) -> Result<(), AllocError>
    ensures { OnOk result (out.new ≡ out.old ++ map (λ k. thing.Relation k) (below count)) }
{
    for place in 0..count {
        let relation = as_small(place)?;
        out.push(Thing::Relation(relation))?;
    }
    Ok(())
}

#[tactic(auto, using(crate::proofs::MoreThings::below_more))]
fn add_counters(out: &mut Items<Thing>, count: usize) -> Result<(), AllocError>
    ensures { OnOk result (out.new ≡ out.old ++ map (λ k. thing.Counter k) (below count)) }
{
    for place in 0..count {
        let counter = as_small(place)?;
        out.push(Thing::Counter(counter))?;
    }
    Ok(())
}

/// The relations and then the counters.
pub fn things_of(alloc: Global, spec: &Spec) -> Result<Items<Thing>, AllocError>
    ensures { IfOk result (λ xs. xs ≡ things spec.now) }
{
    let mut out = Items::new(alloc);
    add_relations(&mut out, spec.relations.len())?;
    add_counters(&mut out, spec.counters.len())?;
    Ok(out)
}
