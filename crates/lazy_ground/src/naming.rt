// The readings of relations at the entry, told by their tuples and by their numbers.
ghost use Rattle.std.specs.Prelude.{◌≡◌, [], IfOk, IfSome, IsTrue, true, map};
ghost use Rattle.ground_numbers.specs.Numbers.{has_atom, has_number, number_of};
ghost use Rattle.ground_atoms.specs.Symbols.{reading_of};
ghost use Rattle.lazy_ground.specs.Pairs.{AreNumbers};
ghost use Rattle.lazy_ground.specs.Named.{rise_from, all_rise, AreNumbersOfPairs, ArePairsAt};
ghost use Rattle.lazy_ground.specs.Named.{ArePairsOf, AreFound};

use crate::columns::columns_of;
use crate::equal::are_within;
use crate::pairs::ReadingPairs;
use ground_atoms::{Atom, Atoms, NamedReading, Tuple};
use instances::rising;
use items::Items;
use spec_core::Thing;
use std::alloc::{AllocError, Global};

// Whether a tuple is before the first of these, and each of these before the next.
fn is_rising_from(tuple: &[u32], tuples: &[Items<u32>]) -> bool
    ensures { result ≡ rise_from tuple.now tuples.now }
{
    let mut last = tuple;
    for next in tuples {
        if !last.cmp(next.as_slice()).is_lt() {
            return false;
        }
        last = next.as_slice();
    }
    true
}

// Whether each of these is before the next.
fn is_rising(tuples: &[Items<u32>]) -> bool
    ensures { result ≡ all_rise tuples.now }
{
    match tuples {
        [] => true,
        [first, rest @ ..] => is_rising_from(first.as_slice(), rest),
    }
}

// The number of a relation's reading at the entry.
fn number_at(
    atoms: &Atoms,
    alloc: Global,
    relation: u8,
    tuple: &[u32],
) -> Result<Option<u32>, AllocError>
    ensures { IfOk result (λ found. IfSome found (λ n.
        (has_number atoms.now.table (has_atom [] relation tuple.now) ≡ true)
        × (n ≡ number_of atoms.now.table (has_atom [] relation tuple.now)))) }
{
    let tuple = Tuple::of(alloc, tuple)?;
    let atom = Atom::Has {
        stage: 0,
        relation,
        tuple,
    };
    let number = atoms.known_number(&atom);
    drop(atom);
    Ok(number)
}

// The numbers of its readings at these tuples; nothing where one has none.
fn numbers_at(
    atoms: &Atoms,
    alloc: Global,
    relation: u8,
    tuples: &[Items<u32>],
) -> Result<Option<Items<u32>>, AllocError>
    ensures { IfOk result (λ found. IfSome found
        (AreNumbers atoms.now.table relation tuples.now)) }
{
    let mut numbers = Items::new(alloc);
    for tuple in tuples {
        match number_at(atoms, alloc, relation, tuple.as_slice())? {
            Some(number) => numbers.push(number)?,
            None => return Ok(None),
        }
    }
    Ok(Some(numbers))
}

// The numbers of a relation's readings at these tuples; nothing where the tuples don't rise, or don't fit their columns.
fn numbers_of_pairs(
    atoms: &Atoms,
    alloc: Global,
    relation: u8,
    tuples: &[Items<u32>],
    columns: &[Items<u32>],
) -> Result<Option<Items<u32>>, AllocError>
    ensures { IfOk result (λ found. IfSome found
        (AreNumbersOfPairs atoms.now.table relation tuples.now columns.now)) }
{
    if !is_rising(tuples) || !are_within(columns, tuples) {
        return Ok(None);
    }
    numbers_at(atoms, alloc, relation, tuples)
}

// The pairs of a relation's tuples, whose constants stand in columns; nothing where a reading has no number.
fn pairs_at(
    atoms: &Atoms,
    alloc: Global,
    relation: u8,
    tuples: Items<Items<u32>>,
    columns: Items<Items<u32>>,
) -> Result<Option<ReadingPairs>, AllocError>
    ensures { IfOk result (λ found. IfSome found (ArePairsAt atoms.now.table relation tuples)) }
{
    match numbers_of_pairs(
        atoms,
        alloc,
        relation,
        tuples.as_slice(),
        columns.as_slice(),
    ) {
        Ok(Some(numbers)) => Ok(Some(ReadingPairs {
            relation,
            tuples,
            columns,
            atoms: numbers,
        })),
        Ok(None) => {
            drop(tuples);
            drop(columns);
            Ok(None)
        }
        Err(error) => {
            drop(tuples);
            drop(columns);
            Err(error)
        }
    }
}

// The pairs of the readings of a thing; nothing where it isn't a relation, or where a reading has no number.
fn pairs_of_thing(
    atoms: &Atoms,
    alloc: Global,
    readings: &[NamedReading],
    thing: Thing,
) -> Result<Option<ReadingPairs>, AllocError>
    ensures { IfOk result (λ found. IfSome found
        (ArePairsOf atoms.now.table (map reading_of readings.now) thing)) }
{
    let Thing::Relation(relation) = thing else {
        return Ok(None);
    };
    let tuples = rising(alloc, readings, thing)?;
    let Ok(columns) = columns_of(alloc, tuples.as_slice()) else {
        drop(tuples);
        return Err(AllocError);
    };
    pairs_at(atoms, alloc, relation, tuples, columns)
}

/// The pairs of the readings of each of these things; nothing where one isn't a relation, or where a reading has no number.
pub fn pairs_of_all(
    atoms: &Atoms,
    alloc: Global,
    readings: &[NamedReading],
    things: &[Thing],
) -> Result<Option<Items<ReadingPairs>>, AllocError>
    ensures { IfOk result (λ found. IfSome found
        (AreFound atoms.now.table (map reading_of readings.now) things.now)) }
{
    let mut pairs = Items::new(alloc);
    for thing in things {
        match pairs_of_thing(atoms, alloc, readings, *thing)? {
            Some(more) => pairs.push(more)?,
            None => return Ok(None),
        }
    }
    Ok(Some(pairs))
}
