// Equal constants have equal readings at the entry.
ghost use Rattle.std.specs.Prelude.{◌≡◌, ◌+◌, ◌-◌, ◌<◌, ◌≤◌, ◌++◌, ◌∷◌, [], cond, length, map};
ghost use Rattle.std.specs.{Prelude.{drop, take, IfOk}, Ordering.{nat_cmp, is_lt}};
ghost use Rattle.std.specs.{Cmp.Lexicographic.{slice_cmp}, List.{filter, flat_map}};
ghost use Rattle.effectors.specs.Effect as effect;
ghost use Rattle.ground_problem.specs.Equality as equality;
ghost use Rattle.ground_atoms.specs.Symbols.{reading_of};
ghost use Rattle.ground_problem.specs.Problem.{most_formulas};
ghost use Rattle.ground_groups.specs.Limited.{Appends, HasRoomFor};
ghost use Rattle.instances.specs.Pairs.{pair_count};

use crate::congruence::congruent;
use effectors::is_thing;
use ground_atoms::NamedReading;
use ground_groups::adding::{MOST_FORMULAS, has_room};
use ground_groups::{GroundRefused, Grounding};
use items::Items;
use spec_core::Thing;
use std::alloc::{AllocError, Global};

// Appends this for a tuple and each of these.
fn add_with_each(
    grounding: &mut Grounding,
    thing: Thing,
    tuple: &Items<u32>,
    later: &[Items<u32>],
) -> Result<(), GroundRefused>
    ensures { Appends result grounding.old
        (map (equality.congruent thing tuple.now) later.now) grounding.new }
{
    for other in later {
        has_room(grounding)?;
        let (left, right) = (tuple.as_slice(), other.as_slice());
        let made = congruent(&mut grounding.atoms, grounding.alloc, thing, left, right)?;
        grounding.formulas.push(made)?;
    }
    Ok(())
}

// The same for a tuple and each after a place.
fn add_from(
    grounding: &mut Grounding,
    thing: Thing,
    tuple: &Items<u32>,
    tuples: &[Items<u32>],
    place: usize,
) -> Result<(), GroundRefused>
    requires { place < length tuples.now }
    ensures { Appends result grounding.old
        (map (equality.congruent thing tuple.now) (drop (place + 1) tuples.now)) grounding.new }
{
    let next = place + 1;
    add_with_each(grounding, thing, tuple, &tuples[next..])
}

// The same for every two of these tuples.
fn add_pairs(
    grounding: &mut Grounding,
    thing: Thing,
    tuples: &[Items<u32>],
) -> Result<(), GroundRefused>
    ensures { Appends result grounding.old
        (equality.congruent_pairs thing tuples.now) grounding.new }
{
    for place in 0..tuples.len() {
        match add_from(grounding, thing, &tuples[place], tuples, place) {
            Ok(()) => {}
            Err(refused) => return Err(refused),
        }
    }
    Ok(())
}

// Whether the first tuple is before the second one.
fn is_before(at: &[u32], there: &[u32]) -> bool
    ensures { result ≡ is_lt (slice_cmp nat_cmp at.now there.now) }
{
    at.cmp(there).is_lt()
}

#[tactic(auto, using(crate::proofs::Tuples::rising_here, crate::proofs::Tuples::rising_next))]
// The place of the first tuple that this one is before.
fn place_of(tuple: &[u32], tuples: &[Items<u32>]) -> usize
    ensures few { result ≤ length tuples.now }
    ensures place { equality.insert_rising tuple.now tuples.now
        ≡ take result tuples.now ++ tuple.now ∷ drop result tuples.now }
{
    let mut place = 0;
    while place < tuples.len() {
        if is_before(tuple, tuples[place].as_slice()) {
            return place;
        }
        place += 1;
    }
    place
}

// Rising tuples with one more.
fn inserted(
    alloc: Global,
    tuple: &[u32],
    tuples: Items<Items<u32>>,
) -> Result<Items<Items<u32>>, AllocError>
    ensures { IfOk result (λ us. us ≡ equality.insert_rising tuple.now tuples) }
{
    let place = place_of(tuple, tuples.as_slice());
    let copy = Items::from_slice(alloc, tuple)?;
    let mut more = tuples.into_vec();
    more.insert(place, copy)?;
    Ok(Items::from_vec(more))
}

// Rising tuples, with that of a reading where it is one of this thing.
fn with_reading(
    alloc: Global,
    reading: &NamedReading,
    thing: Thing,
    tuples: Items<Items<u32>>,
) -> Result<Items<Items<u32>>, AllocError>
    ensures { IfOk result
        (λ us. us
        ≡ cond (effect.is_thing reading.now.thing thing)
        (equality.insert_rising reading.now.tuple tuples) tuples) }
{
    if is_thing(reading.thing, thing) {
        return inserted(alloc, reading.tuple.consts(), tuples);
    }
    Ok(tuples)
}

/// The tuples of the readings of a thing, in rising order.
pub fn rising(
    alloc: Global,
    readings: &[NamedReading],
    thing: Thing,
) -> Result<Items<Items<u32>>, AllocError>
    ensures { IfOk result
        (λ us. us
        ≡ equality.rising (filter (λ q. effect.is_thing q.thing thing) (map reading_of readings.now))) }
{
    let mut tuples = Items::new(alloc);
    let mut place = readings.len();
    while place > 0 {
        place -= 1;
        tuples = with_reading(alloc, &readings[place], thing, tuples)?;
    }
    Ok(tuples)
}

#[tactic(auto, using(crate::proofs::Pairs::pairs_more))]
// How many pairs so many tuples make.
fn count_pairs(tuples: usize) -> usize
    ensures { result ≤ pair_count tuples }
{
    let mut pairs: usize = 0;
    for earlier in 0..tuples {
        pairs = pairs.saturating_add(earlier);
    }
    pairs
}

// Whether there is room for a formula for every two of these tuples. No formula is made for this.
fn has_room_for_pairs(grounding: &Grounding, tuples: &[Items<u32>]) -> Result<(), GroundRefused>
    ensures { HasRoomFor result (most_formulas - length grounding.now.formulas)
        (pair_count (length tuples.now)) }
{
    let count = count_pairs(tuples.len());
    if count > MOST_FORMULAS.saturating_sub(grounding.formulas.len()) {
        return Err(GroundRefused::TooMany);
    }
    Ok(())
}

// The same for every two of these tuples, or that there is no room for so many.
fn add_pairs_within(
    grounding: &mut Grounding,
    thing: Thing,
    tuples: &[Items<u32>],
) -> Result<(), GroundRefused>
    ensures { Appends result grounding.old
        (equality.congruent_pairs thing tuples.now) grounding.new }
{
    if let Err(refused) = has_room_for_pairs(grounding, tuples) {
        return Err(refused);
    }
    add_pairs(grounding, thing, tuples)
}

// Appends that a thing reads the same at equal tuples among these readings.
fn add_thing(
    grounding: &mut Grounding,
    readings: &[NamedReading],
    thing: &Thing,
) -> Result<(), GroundRefused>
    ensures { Appends result grounding.old
        (equality.congruent_pairs thing.now
        (equality.rising (filter (λ q. effect.is_thing q.thing thing.now) (map reading_of readings.now))))
        grounding.new }
{
    let tuples = rising(grounding.alloc, readings, *thing)?;
    add_pairs_within(grounding, *thing, tuples.as_slice())
}

/// Appends that each of these things reads the same at equal tuples among these readings.
pub fn add_congruence(
    grounding: &mut Grounding,
    readings: &[NamedReading],
    things: &[Thing],
) -> Result<(), GroundRefused>
    ensures { Appends result grounding.old
        (equality.congruence (map reading_of readings.now) things.now) grounding.new }
{
    for thing in things {
        match add_thing(grounding, readings, thing) {
            Ok(()) => {}
            Err(refused) => return Err(refused),
        }
    }
    Ok(())
}
