// The readings of what a call's updates reach, copied into a state from whatever reads like one.
//
// What is read is never what is written, so the order of writing doesn't matter, and what two updates reach is written twice
// alike.

ghost use Rattle.std.specs.Prelude.{◌≡◌, ◌<◌, true, length, nat_le, IfOk, OnOk, Ok};
ghost use Rattle.std.specs.List.{list_all};
ghost use Rattle.spec_core.specs.Specification.{relation_places, counter_keys};
ghost use Rattle.spec_core.specs.State.{reads, with_has, with_count};
ghost use Rattle.spec_core.specs.Fits.{in_state_range, fits_places, world_fits, is_state};
ghost use Rattle.spec_core.specs.Fits.{update_fits};
ghost use Rattle.effectors.specs.Reaching.{reached, with_tuples, with_keys, with_thing};
ghost use Rattle.effectors.specs.Reaching.{with_updates, thing_in_range, updates_in_range};

use crate::matching::reached;
use items::Items;
use spec_core::limits::GREATEST_VALUE;
use spec_core::{Call, Readings, Spec, Thing, Update, World};
use spec_states::State;
use std::alloc::{AllocError, Global};

/// Whether a value is in the range of a state.
pub fn in_range(value: i128) -> bool
    ensures { result ≡ in_state_range value }
{
    value.unsigned_abs() <= GREATEST_VALUE as u128
}

fn write_tuple<R: Readings>(
    spec: &Spec,
    world: &World,
    from: &R,
    new: &mut State,
    relation: u8,
    tuple: &[u32],
) -> Result<(), AllocError>
    requires new { is_state spec.now world.now new.old ≡ true }
    requires relation { relation < length spec.now.relations }
    requires tuple { fits_places world.now (relation_places spec.now relation) tuple.now ≡ true }
    ensures reads { OnOk result (reads new.new
        ≡ with_has (reads new.old) relation tuple.now ((R.reads from.now).has relation tuple.now)) }
    ensures fits { OnOk result (is_state spec.now world.now new.new ≡ true) }
{
    let value = from.has(relation, tuple);
    new.set_has(relation, tuple, value)
}

// Whether the new value is in range; it is written if so.
fn write_key<R: Readings>(
    spec: &Spec,
    world: &World,
    from: &R,
    new: &mut State,
    counter: u8,
    key: &[u32],
) -> Result<bool, AllocError>
    requires new { is_state spec.now world.now new.old ≡ true }
    requires counter { counter < length spec.now.counters }
    requires key { fits_places world.now (counter_keys spec.now counter) key.now ≡ true }
    ensures range { IfOk result (λ b. b ≡ in_state_range
        ((R.reads from.now).count counter key.now)) }
    ensures reads { IfOk result (λ b. b ≡ true
        → reads new.new ≡ with_count (reads new.old) counter key.now
        ((R.reads from.now).count counter key.now)) }
    ensures fits { IfOk result (λ b. b ≡ true → is_state spec.now world.now new.new ≡ true) }
{
    let value = from.count(counter, key);
    if !in_range(value) {
        return Ok(false);
    }
    new.set_count(counter, key, value as i64)?;
    Ok(true)
}

fn write_tuples<R: Readings>(
    spec: &Spec,
    world: &World,
    from: &R,
    new: &mut State,
    relation: u8,
    tuples: &[Items<u32>],
) -> Result<(), AllocError>
    requires new { is_state spec.now world.now new.old ≡ true }
    requires relation { relation < length spec.now.relations }
    requires tuples { list_all (fits_places world.now
        (relation_places spec.now relation)) tuples.now ≡ true }
    ensures reads { OnOk result (reads new.new
        ≡ with_tuples relation tuples.now (R.reads from.now) (reads new.old)) }
    ensures fits { OnOk result (is_state spec.now world.now new.new ≡ true) }
{
    for tuple in tuples {
        write_tuple(spec, world, from, new, relation, tuple.as_slice())?;
    }
    Ok(())
}

// Whether all new values are in range; they are written if so.
fn write_keys<R: Readings>(
    spec: &Spec,
    world: &World,
    from: &R,
    new: &mut State,
    counter: u8,
    keys: &[Items<u32>],
) -> Result<bool, AllocError>
    requires new { is_state spec.now world.now new.old ≡ true }
    requires counter { counter < length spec.now.counters }
    requires keys { list_all (fits_places world.now (counter_keys spec.now counter)) keys.now
        ≡ true }
    ensures range { IfOk result (λ b. b ≡ list_all
        (λ t. in_state_range ((R.reads from.now).count counter t)) keys.now) }
    ensures reads { IfOk result (λ b. b ≡ true
        → reads new.new ≡ with_keys counter keys.now (R.reads from.now) (reads new.old)) }
    ensures fits { IfOk result (λ b. b ≡ true → is_state spec.now world.now new.new ≡ true) }
{
    for key in keys {
        if !write_key(spec, world, from, new, counter, key.as_slice())? {
            return Ok(false);
        }
    }
    Ok(true)
}

// Whether all new values that an update reaches are in range; the readings that it reaches are written if so.
fn write_update<R: Readings>(
    alloc: Global,
    spec: &Spec,
    world: &World,
    call: &Call,
    from: &R,
    new: &mut State,
    update: &Update,
) -> Result<bool, AllocError>
    requires world { world_fits spec.now world.now ≡ true }
    requires new { is_state spec.now world.now new.old ≡ true }
    requires update { update_fits spec.now world.now call.now.args update.now ≡ true }
    ensures range { IfOk result (λ b. b ≡ thing_in_range update.now.thing
        (reached spec.now world.now call.now.args update.now) (R.reads from.now)) }
    ensures reads { IfOk result (λ b. b ≡ true
        → reads new.new ≡ with_thing update.now.thing
        (reached spec.now world.now call.now.args update.now) (R.reads from.now) (reads new.old)) }
    ensures fits { IfOk result (λ b. b ≡ true → is_state spec.now world.now new.new ≡ true) }
{
    let reached = reached(alloc, spec, world, call, update)?;
    match update.thing {
        Thing::Relation(k) => {
            write_tuples(spec, world, from, new, k, reached.as_slice())?;
            Ok(true)
        }
        Thing::Counter(k) => write_keys(spec, world, from, new, k, reached.as_slice()),
    }
}

/// Whether all new values that the updates reach are in range; the readings that they reach are written if so.
pub fn write_updates<R: Readings>(
    alloc: Global,
    spec: &Spec,
    world: &World,
    call: &Call,
    from: &R,
    new: &mut State,
    updates: &[Update],
) -> Result<bool, AllocError>
    requires world { world_fits spec.now world.now ≡ true }
    requires new { is_state spec.now world.now new.old ≡ true }
    requires updates { list_all (update_fits spec.now world.now call.now.args) updates.now ≡ true }
    ensures range { IfOk result
        (λ b. b ≡ updates_in_range spec.now world.now call.now.args updates.now
        (R.reads from.now)) }
    ensures reads { IfOk result (λ b. b ≡ true
        → reads new.new ≡ with_updates spec.now world.now call.now.args updates.now
        (R.reads from.now) (reads new.old)) }
    ensures fits { IfOk result (λ b. b ≡ true → is_state spec.now world.now new.new ≡ true) }
{
    for update in updates {
        if !write_update(alloc, spec, world, call, from, new, update)? {
            return Ok(false);
        }
    }
    Ok(true)
}
