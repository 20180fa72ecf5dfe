// The initial state, and the state in which nothing is listed.
//
// A relation that begins false and a counter that begins at 0 list nothing, which reads the same.

ghost use Rattle.std.specs.Prelude.{◌≡◌, ℕ, ℤ, pos, List, true, false, cond, IfOk};
ghost use Rattle.std.specs.List.{AllZip, list_all};
ghost use Rattle.spec_core.specs.State.{reads, is_in, count_in, listed_keys, is_rising};
ghost use Rattle.spec_core.specs.Meaning.{initial};
ghost use Rattle.spec_core.specs.Fits.{in_state_range, is_counts, is_state, world_fits};
ghost use Rattle.spec_states.specs.Starting.{StartsAs, CountsAs};

use crate::listed::{Counts, Tuples};
use items::Items;
use spec_core::{Counter, Relation, World};
use std::alloc::{AllocError, Global};

// The set of these tuples.
fn tuples_from(alloc: Global, all: &[Items<u32>]) -> Result<Tuples, AllocError>
    ensures has { IfOk result (λ ts. (q : List ℕ) → is_in q ts ≡ is_in q all.now) }
    ensures rising { IfOk result (λ ts. is_rising ts ≡ true) }
{
    let mut set = Tuples::new(alloc);
    for tuple in all {
        set.set(tuple.as_slice(), true)?;
    }
    Ok(set)
}

// These keys, each with the value.
fn counts_from(alloc: Global, all: &[Items<u32>], value: i64) -> Result<Counts, AllocError>
    requires { in_state_range value ≡ true }
    ensures count { IfOk result (λ es. (q : List ℕ)
        → count_in es q ≡ cond (is_in q all.now) value (pos 0)) }
    ensures listed { IfOk result (λ es. (q : List ℕ) → is_in q (listed_keys es) ≡ is_in q all.now) }
    ensures counts { IfOk result (λ es. is_counts es ≡ true) }
{
    let mut counts = Counts::new(alloc);
    for key in all {
        counts.set(key.as_slice(), value)?;
    }
    Ok(counts)
}

fn first_tuples(alloc: Global, world: &World, relation: &Relation) -> Result<Tuples, AllocError>
    ensures { IfOk result (StartsAs world.now relation.now) }
{
    if relation.initial {
        let all = world.tuples(alloc, relation.places.as_slice())?;
        tuples_from(alloc, all.as_slice())
    } else {
        Ok(Tuples::new(alloc))
    }
}

fn first_counts(alloc: Global, world: &World, counter: &Counter) -> Result<Counts, AllocError>
    requires { in_state_range counter.now.initial ≡ true }
    ensures { IfOk result (CountsAs world.now counter.now) }
{
    if counter.initial == 0 {
        Ok(Counts::new(alloc))
    } else {
        let all = world.tuples(alloc, counter.keys.as_slice())?;
        let counts = counts_from(alloc, all.as_slice(), counter.initial)?;
        Ok(counts)
    }
}

/// The tuples of each relation in the initial state of a world.
pub fn first_relations(
    alloc: Global,
    world: &World,
    relations: &[Relation],
) -> Result<Vec<Tuples>, AllocError>
    ensures { IfOk result (λ v. AllZip (StartsAs world.now) relations.now v.items) }
{
    let mut lists = Vec::new(alloc);
    for relation in relations {
        lists.push(first_tuples(alloc, world, relation)?)?;
    }
    Ok(lists)
}

/// The values of each counter in the initial state of a world.
pub fn first_counters(
    alloc: Global,
    world: &World,
    counters: &[Counter],
) -> Result<Vec<Counts>, AllocError>
    requires { list_all (λ c. in_state_range c.initial) counters.now ≡ true }
    ensures { IfOk result (λ v. AllZip (CountsAs world.now) counters.now v.items) }
{
    let mut lists = Vec::new(alloc);
    for counter in counters {
        lists.push(first_counts(alloc, world, counter)?)?;
    }
    Ok(lists)
}
