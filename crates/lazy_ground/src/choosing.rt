// Whether there are too many formulas, and whether those on equal readings of relations are left to tuples: where there are enough of them.
ghost use Rattle.std.specs.Prelude.{◌≡◌, ◌≤◌, ◌+◌, ◌++◌, ltb, length, map, IfOk, IfSome};
ghost use Rattle.std.specs.List.{filter, flat_map};
ghost use Rattle.obligation_list.specs.Obligations.{things};
ghost use Rattle.effectors.specs.Effect as effect;
ghost use Rattle.ground_problem.specs.{Equality.{congruence}, Problem.{formulas_of, most_formulas}};
ghost use Rattle.instances.specs.Pairs.{pair_count};
ghost use Rattle.ground_atoms.specs.Symbols.{reading_of};
ghost use Rattle.lazy_ground.specs.{Pairs.{pairs_of}, Front.{IsFront, ArePairsFor, IsCount}};
ghost use Rattle.lazy_ground.specs.Named.{AreFound};

use crate::front::Front;
use crate::keeping::are_relations_of;
use crate::naming::pairs_of_all;
use crate::pairs::ReadingPairs;
use effectors::is_thing;
use ground_atoms::NamedReading;
use ground_groups::adding::MOST_FORMULAS;
use items::Items;
use obligation_list::Obligation;
use spec_core::limits::MOST_RELATIONS;
use spec_core::{Spec, Thing};
use std::alloc::{AllocError, Global};

/// Where there are fewer pairs of tuples, all formulas are made.
pub const FEWEST_PAIRS: usize = 3;

/// More tuples of one thing have more pairs than there may be formulas.
pub const MOST_TUPLES: usize = 250;

// How many of the readings are of a thing.
fn count_readings(readings: &[NamedReading], thing: Thing) -> usize
    ensures { result
        ≡ length (filter (λ q. effect.is_thing q.thing thing) (map reading_of readings.now)) }
{
    let mut count: usize = 0;
    for reading in readings {
        if is_thing(reading.thing, thing) {
            count += 1;
        }
    }
    count
}

#[tactic(auto, using(instances::proofs::Pairs::pairs_more))]
// How many pairs so many tuples make; nothing where they are more than there may be formulas.
fn count_pairs(tuples: usize) -> Option<usize>
    ensures count { IsCount result (pair_count tuples) }
    ensures few { IfSome result (λ n. n ≤ 62500) }
{
    if tuples > MOST_TUPLES {
        return None;
    }
    let mut pairs: usize = 0;
    for earlier in 0..tuples {
        pairs += earlier;
    }
    Some(pairs)
}

// How many formulas there are on equal readings of these things; nothing where they are more than there may be. None is made for this.
fn count_equal(readings: &[NamedReading], things: &[Thing]) -> Option<usize>
    ensures count { IsCount result (length (congruence (map reading_of readings.now) things.now)) }
    ensures few { IfSome result (λ n. n ≤ most_formulas) }
{
    let mut count: usize = 0;
    for thing in things {
        let more = count_pairs(count_readings(readings, *thing))?;
        count += more;
        if count > MOST_FORMULAS {
            return None;
        }
    }
    Some(count)
}

// How many formulas these pairs stand for; nothing where they are more than there may be.
fn count_found(pairs: &[ReadingPairs]) -> Option<usize>
    ensures count { IsCount result (length (flat_map pairs_of pairs.now)) }
    ensures few { IfSome result (λ n. n ≤ most_formulas) }
{
    let mut count: usize = 0;
    for some in pairs {
        let more = count_pairs(some.tuples.len())?;
        count += more;
        if count > MOST_FORMULAS {
            return None;
        }
    }
    Some(count)
}

/// Whether the list has too many formulas, of which the front is made, and the pairs of the readings of relations.
pub fn has_too_many_beside(
    spec: &Spec,
    ob: &Obligation,
    front: &Front,
    pairs: &[ReadingPairs],
    relations: &[Thing],
    counters: &[Thing],
) -> bool
    requires front { IsFront spec.now ob.now front.now }
    requires pairs { AreFound front.now.grounding.atoms.table (map reading_of front.now.readings)
        relations.now pairs.now }
    requires things { relations.now ++ counters.now ≡ things spec.now }
    ensures { result ≡ ltb most_formulas (length (formulas_of spec.now ob.now)) }
{
    let _spec = spec;
    let _ob = ob;
    let _relations = relations;
    let Some(found) = count_found(pairs) else {
        return true;
    };
    match count_equal(front.readings.as_slice(), counters) {
        Some(others) => front.grounding.formulas.len() + found + others > MOST_FORMULAS,
        None => true,
    }
}

/// Whether the list has too many formulas, of which the front is made.
pub fn has_too_many(spec: &Spec, ob: &Obligation, front: &Front, all: &[Thing]) -> bool
    requires front { IsFront spec.now ob.now front.now }
    requires things { all.now ≡ things spec.now }
    ensures { result ≡ ltb most_formulas (length (formulas_of spec.now ob.now)) }
{
    let _spec = spec;
    let _ob = ob;
    match count_equal(front.readings.as_slice(), all) {
        Some(count) => front.grounding.formulas.len() + count > MOST_FORMULAS,
        None => true,
    }
}

// Whether the readings of relations have so many pairs that it may be worthwhile. It is a hint: nothing is promised of it.
fn has_enough(readings: &[NamedReading]) -> bool {
    let mut counts = [0usize; MOST_RELATIONS];
    let mut pairs = 0usize;
    for reading in readings {
        let Thing::Relation(relation) = reading.thing else {
            continue;
        };
        if let Some(count) = counts.get_mut(relation as usize) {
            pairs = pairs.wrapping_add(*count);
            *count = count.wrapping_add(1);
        }
    }
    pairs >= FEWEST_PAIRS
}

// The pairs of the readings of these relations, made; nothing where they are few.
fn made_pairs(
    alloc: Global,
    front: &Front,
    relations: &[Thing],
) -> Result<Option<Items<ReadingPairs>>, AllocError>
    ensures { IfOk result (λ found. IfSome found
        (AreFound front.now.grounding.atoms.table (map reading_of front.now.readings)
        relations.now)) }
{
    if !has_enough(front.readings.as_slice()) {
        return Ok(None);
    }
    pairs_of_all(
        &front.grounding.atoms,
        alloc,
        front.readings.as_slice(),
        relations,
    )
}

/// The pairs of the readings of these relations, where it is worthwhile to leave their formulas to them. Those that were kept are
/// taken, where they are of these relations.
pub fn choose(
    alloc: Global,
    front: &Front,
    relations: &[Thing],
    kept: Option<Items<ReadingPairs>>,
) -> Result<Option<Items<ReadingPairs>>, AllocError>
    requires { IfSome kept (ArePairsFor front.now) }
    ensures { IfOk result (λ found. IfSome found
        (AreFound front.now.grounding.atoms.table (map reading_of front.now.readings)
        relations.now)) }
{
    match kept {
        Some(pairs) => {
            if are_relations_of(pairs.as_slice(), relations) {
                return Ok(Some(pairs));
            }
            drop(pairs);
            made_pairs(alloc, front, relations)
        }
        None => made_pairs(alloc, front, relations),
    }
}
