// What some updates do to one tuple or key, read from the old state and stored nowhere.
//
// A value stays below 2^127: an amount is at most 4.8 * 10^36 in size, and an operation has at most 16 updates.

ghost use Rattle.std.specs.Prelude.{◌≡◌, ◌≤◌, ◌+◌, ◌*◌, ◌^◌, unsigned_abs, true, cond, length, []};
ghost use Rattle.std.specs.List.{list_all};
ghost use Rattle.spec_core.specs.Limits.{most_updates};
ghost use Rattle.spec_core.specs.Fits.{in_state_range, world_fits, change_fits, update_fits};
ghost use Rattle.effectors.specs.Effect.{spots_match, is_thing, acts, has_changed, count_changed};
ghost use Rattle.effectors.specs.Effect.{has_after, count_after};

use spec_core::{Change, Readings, Spec, Spot, Thing, Update, World, elem_at, holds, term_value};

/// Whether two things are the same relation or the same counter.
pub fn is_thing(one: Thing, other: Thing) -> bool
    ensures { result ≡ is_thing one other }
{
    match one {
        Thing::Relation(k) => match other {
            Thing::Relation(j) => k == j,
            Thing::Counter(_) => false,
        },
        Thing::Counter(k) => match other {
            Thing::Relation(_) => false,
            Thing::Counter(j) => k == j,
        },
    }
}

/// Whether each spot is every element, or names the element at its place.
pub fn spots_match(world: &World, args: &[i64], spots: &[Spot], key: &[u32]) -> bool
    ensures { result ≡ spots_match world.now args.now spots.now key.now }
{
    match spots {
        [] => key.is_empty(),
        [spot, spots @ ..] => match key {
            [] => false,
            [element, key @ ..] => match spot {
                Spot::Every => spots_match(world, args, spots, key),
                Spot::One(elem) => elem_at(world, args, &[], *elem) == *element as u64
                    && spots_match(world, args, spots, key),
            },
        },
    }
}

// The update acts on the tuple or key of the thing.
fn acts<R: Readings>(
    spec: &Spec,
    world: &World,
    at: &R,
    args: &[i64],
    thing: Thing,
    key: &[u32],
    update: &Update,
) -> bool
    requires world { world_fits spec.now world.now ≡ true }
    requires args { list_all in_state_range args.now ≡ true }
    requires fits { update_fits spec.now world.now args.now update.now ≡ true }
    ensures { result ≡ acts world.now (R.reads at.now) args.now thing key.now update.now }
{
    is_thing(update.thing, thing)
        && spots_match(world, args, update.at.as_slice(), key)
        && holds(spec, world, at, args, &[], &update.guard)
}

fn has_changed(change: &Change, old: bool) -> bool
    ensures { result ≡ has_changed change.now old }
{
    match change {
        Change::Insert => true,
        Change::Remove => false,
        Change::Add(_) => old,
        Change::Set(_) => old,
    }
}

fn count_changed<R: Readings>(
    spec: &Spec,
    world: &World,
    at: &R,
    args: &[i64],
    thing: Thing,
    change: &Change,
    old: i128,
) -> i128
    requires world { world_fits spec.now world.now ≡ true }
    requires args { list_all in_state_range args.now ≡ true }
    requires fits { change_fits spec.now world.now args.now thing change.now ≡ true }
    requires room { unsigned_abs old ≤ 10 ^ 38 }
    ensures value { result ≡ count_changed world.now (R.reads at.now) args.now change.now old }
    ensures small { unsigned_abs result ≤ unsigned_abs old + 16 * (3 * 10 ^ 35) }
{
    match change {
        Change::Insert => old,
        Change::Remove => old,
        Change::Add(term) => old + term_value(spec, world, at, args, &[], term),
        Change::Set(term) => term_value(spec, world, at, args, &[], term),
    }
}

// What a tuple of a relation reads after one update, from what it reads before it.
fn has_step<R: Readings>(
    spec: &Spec,
    world: &World,
    at: &R,
    args: &[i64],
    relation: u8,
    tuple: &[u32],
    update: &Update,
    old: bool,
) -> bool
    requires world { world_fits spec.now world.now ≡ true }
    requires args { list_all in_state_range args.now ≡ true }
    requires fits { update_fits spec.now world.now args.now update.now ≡ true }
    ensures { result ≡ cond (acts world.now (R.reads at.now) args.now
        (Thing.Relation relation) tuple.now update.now) (has_changed update.now.change old) old }
{
    if acts(
        spec,
        world,
        at,
        args,
        Thing::Relation(relation),
        tuple,
        update,
    ) {
        has_changed(&update.change, old)
    } else {
        old
    }
}

// What a key of a counter reads after one update, from what it reads before it.
fn count_step<R: Readings>(
    spec: &Spec,
    world: &World,
    at: &R,
    args: &[i64],
    counter: u8,
    key: &[u32],
    update: &Update,
    old: i128,
) -> i128
    requires world { world_fits spec.now world.now ≡ true }
    requires args { list_all in_state_range args.now ≡ true }
    requires fits { update_fits spec.now world.now args.now update.now ≡ true }
    requires room { unsigned_abs old ≤ 10 ^ 38 }
    ensures value { result ≡ cond (acts world.now (R.reads at.now) args.now
        (Thing.Counter counter) key.now update.now)
        (count_changed world.now (R.reads at.now) args.now update.now.change old) old }
    ensures small { unsigned_abs result ≤ unsigned_abs old + 16 * (3 * 10 ^ 35) }
{
    if acts(spec, world, at, args, Thing::Counter(counter), key, update) {
        count_changed(spec, world, at, args, update.thing, &update.change, old)
    } else {
        old
    }
}

/// What a tuple of a relation reads after updates that fit.
pub fn has_after<R: Readings>(
    spec: &Spec,
    world: &World,
    at: &R,
    args: &[i64],
    updates: &[Update],
    relation: u8,
    tuple: &[u32],
) -> bool
    requires world { world_fits spec.now world.now ≡ true }
    requires args { list_all in_state_range args.now ≡ true }
    requires fits { list_all (update_fits spec.now world.now args.now) updates.now ≡ true }
    ensures { result ≡ has_after world.now (R.reads at.now) args.now relation tuple.now updates.now
        ((R.reads at.now).has relation tuple.now) }
{
    let mut reading = at.has(relation, tuple);
    for update in updates {
        reading = has_step(spec, world, at, args, relation, tuple, update, reading);
    }
    reading
}

/// What a key of a counter reads after at most 16 updates that fit, at most 8 * 10^37 in size.
pub fn count_after<R: Readings>(
    spec: &Spec,
    world: &World,
    at: &R,
    args: &[i64],
    updates: &[Update],
    counter: u8,
    key: &[u32],
) -> i128
    requires world { world_fits spec.now world.now ≡ true }
    requires args { list_all in_state_range args.now ≡ true }
    requires few { length updates.now ≤ most_updates }
    requires fits { list_all (update_fits spec.now world.now args.now) updates.now ≡ true }
    ensures { result ≡ count_after world.now (R.reads at.now) args.now counter key.now updates.now
        ((R.reads at.now).count counter key.now) }
{
    let mut value = at.count(counter, key);
    for update in updates {
        value = count_step(spec, world, at, args, counter, key, update, value);
    }
    value
}
