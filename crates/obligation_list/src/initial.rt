// Whether a state reads as the initial one, without memory: the elements of a tuple stand in an array on the stack.

ghost use Rattle.std.specs.{Prelude.{◌≡◌, ◌+◌, ◌≤◌, length, take}, List.{list_all}};
ghost use Rattle.spec_core.specs.{State.{reads}, Choices.{all_below, all_choices}};
ghost use Rattle.spec_core.specs.Specification.{relation_places, counter_keys};
ghost use Rattle.obligation_list.specs.Starting.{starts_at, starts_everywhere, starts};

use crate::listing::sizes_of;
use spec_core::{Spec, Thing, World};
use spec_states::State;

// The thing has its stated value at a tuple or key.
fn starts_at(spec: &Spec, state: &State, thing: Thing, tuple: &[u32]) -> bool
    ensures { result ≡ starts_at spec.now thing tuple.now (reads state.now) }
{
    match thing {
        Thing::Relation(k) => match spec.relations.as_slice().get(k as usize) {
            Some(it) => state.has(k, tuple) == it.initial,
            None => !state.has(k, tuple),
        },
        Thing::Counter(k) => match spec.counters.as_slice().get(k as usize) {
            Some(it) => state.count(k, tuple) == it.initial as i128,
            None => state.count(k, tuple) == 0,
        },
    }
}

// The thing has its stated value wherever the first elements are those chosen, and the others are of these sorts.
fn starts_behind(
    spec: &Spec,
    world: &World,
    state: &State,
    thing: Thing,
    chosen: [u32; 3],
    count: usize,
    sorts: &[u8],
) -> bool
    requires { count + length sorts.now ≤ 3 }
    ensures { result ≡ all_choices world.now (take count chosen) sorts.now
        (λ t. starts_at spec.now thing t (reads state.now)) }
{
    match sorts {
        [] => starts_at(spec, state, thing, &chosen[..count]),
        [sort, sorts @ ..] => {
            for element in 0..world.size(*sort) {
                let mut longer = chosen;
                longer[count] = element;
                if !starts_behind(spec, world, state, thing, longer, count + 1, sorts) {
                    return false;
                }
            }
            true
        }
    }
}

// The relations have their stated values at all tuples.
fn relations_start(spec: &Spec, world: &World, state: &State) -> bool
    ensures { result ≡ all_below (length spec.now.relations)
        (λ k. starts_everywhere spec.now world.now (Thing.Relation k) (relation_places spec.now k)
        (reads state.now)) }
{
    spec.well_formed();
    for k in 0..sizes_of(spec).relations {
        let thing = Thing::Relation(k);
        if !starts_behind(spec, world, state, thing, [0; 3], 0, spec.places_of(thing)) {
            return false;
        }
    }
    true
}

// The counters have their stated values at all keys.
fn counters_start(spec: &Spec, world: &World, state: &State) -> bool
    ensures { result ≡ all_below (length spec.now.counters)
        (λ k. starts_everywhere spec.now world.now (Thing.Counter k) (counter_keys spec.now k)
        (reads state.now)) }
{
    spec.well_formed();
    for k in 0..sizes_of(spec).counters {
        let thing = Thing::Counter(k);
        if !starts_behind(spec, world, state, thing, [0; 3], 0, spec.places_of(thing)) {
            return false;
        }
    }
    true
}

/// Whether a state has the stated value of each relation and each counter everywhere.
pub fn is_initial(spec: &Spec, world: &World, state: &State) -> bool
    ensures { result ≡ starts spec.now world.now (reads state.now) }
{
    relations_start(spec, world, state) && counters_start(spec, world, state)
}
