// The pairs of one obligation, kept for the next one.
//
// Obligations next to each other mostly go on from the same entry and have the same readings at it. Then the same pairs stand for the
// formulas on equal readings, and these readings have the numbers that they had. What is left to be tested is what the next obligation
// names itself: that no reading came to those at the entry.
ghost use Rattle.std.specs.Prelude.{◌≡◌, ◌==◌, true, length, map, filter, ltb, Option, IfOk};
ghost use Rattle.std.specs.Prelude.{IfSome, IsTrue, List};
ghost use Rattle.std.specs.{List.{list_all, list_any}, Str.{bytes_eq}};
ghost use Rattle.ground_problem.specs.Definitions.{Reading};
ghost use Rattle.ground_numbers.specs.{Numbers.{Table}, Stages.{stage_of}};
ghost use Rattle.ground_atoms.specs.Symbols.{reading_of};
ghost use Rattle.instances.specs.{declared.entry.Entry.{Entry}, Entry.{IsCutBack}};
ghost use Rattle.lazy_ground.specs.{Equal.{all_known}, Pairs.{AllNumbered}};
ghost use Rattle.lazy_ground.specs.Named.{columns_known, numbers_below};
ghost use Rattle.lazy_ground.specs.Kept.{thing_of, AllBuilt, IsKeptPairs, HaveNumbers};

use crate::equal::are_known;
use crate::pairs::ReadingPairs;
use effectors::is_thing;
use ground_atoms::{Atoms, NamedReading};
use ground_groups::defining::readings_after;
use instances::entry::Begun;
use items::Items;
use spec_core::Thing;
use std::alloc::{AllocError, Global};

/// The readings at the entry of an obligation, and the pairs of those of its relations.
#[derive(Drop)]
pub struct KeptPairs {
    pub readings: Items<NamedReading>,
    pub pairs: Items<ReadingPairs>,
}

/// The readings at the entry of an obligation; and the pairs of those of its relations, where they were kept.
#[derive(Drop)]
pub struct EntryReadings {
    pub readings: Items<NamedReading>,
    pub pairs: Option<Items<ReadingPairs>>,
}

// Whether a stage is the entry.
fn is_entry(stage: u8) -> bool
    ensures { result ≡ (length (stage_of stage) == 0) }
{
    match stage {
        0 => true,
        2 | 4 => false,
        _ => false,
    }
}

// Whether two readings are one.
fn is_same_reading(one: &NamedReading, other: &NamedReading) -> bool
    ensures { IsTrue result → one.now ≡ other.now }
{
    one.stage == other.stage
        && is_thing(one.thing, other.thing)
        && one.tuple.consts() == other.tuple.consts()
}

// Whether these are the readings at the entry that are named so far, in their order.
fn are_named(atoms: &Atoms, readings: &[NamedReading]) -> bool
    ensures { IsTrue result
        → map reading_of readings.now ≡ filter (λ q. length q.stage == 0) atoms.now.named }
{
    let mut count: usize = 0;
    for reading in atoms.named() {
        if !is_entry(reading.stage) {
            continue;
        }
        if count >= readings.len() || !is_same_reading(reading, &readings[count]) {
            return false;
        }
        count += 1;
    }
    count == readings.len()
}

/// The readings at the entry that are named so far. Where they are those that were kept, their pairs are kept too.
pub fn entry_readings(
    alloc: Global,
    atoms: &Atoms,
    kept: Option<KeptPairs>,
) -> Result<EntryReadings, AllocError>
    requires { IfSome kept IsKeptPairs }
    ensures readings { IfOk result (λ r. map reading_of r.readings
        ≡ filter (λ q. length q.stage == 0) atoms.now.named) }
    ensures pairs { IfOk result (λ r. IfSome r.pairs (AllBuilt (map reading_of r.readings))) }
    ensures numbers { (o : Table) → IfSome kept (λ k. AllNumbered o k.pairs)
        → IfOk result (λ r. IfSome r.pairs (AllNumbered o)) }
{
    if let Some(kept) = kept {
        if are_named(atoms, kept.readings.as_slice()) {
            let KeptPairs { readings, pairs } = kept;
            return Ok(EntryReadings {
                readings,
                pairs: Some(pairs),
            });
        }
        drop(kept);
    }
    Ok(EntryReadings {
        readings: readings_after(alloc, atoms, 0)?,
        pairs: None,
    })
}

// Whether each of these numbers is below a count.
fn is_below(count: usize, numbers: &[u32]) -> bool
    ensures { result ≡ list_all (λ m. ltb m count) numbers.now }
{
    for number in numbers {
        if *number as usize >= count {
            return false;
        }
    }
    true
}

// Whether the numbers of each relation's readings are.
fn are_below(count: usize, pairs: &[ReadingPairs]) -> bool
    ensures { result ≡ numbers_below count pairs.now }
{
    for some in pairs {
        if !is_below(count, some.atoms.as_slice()) {
            return false;
        }
    }
    true
}

/// The pairs that were kept with an entry, where what is true at the entry was cut back from it and their readings are among it.
pub fn standing(begun: &Begun, kept: Option<KeptPairs>) -> Option<KeptPairs>
    requires { IfSome kept IsKeptPairs }
    ensures pairs { IfSome result IsKeptPairs }
    ensures numbers { (entry : Option Entry) → HaveNumbers entry kept → IsCutBack entry begun.now
        → IfSome result (λ k. AllNumbered begun.now.grounding.atoms.table k.pairs) }
{
    match kept {
        Some(kept) => {
            let atoms = begun.grounding.atoms.size().atoms;
            if begun.is_cut && are_below(atoms, kept.pairs.as_slice()) {
                return Some(kept);
            }
            drop(kept);
            None
        }
        None => None,
    }
}

/// Whether these are the relations of the pairs, in their order.
pub fn are_relations_of(pairs: &[ReadingPairs], things: &[Thing]) -> bool
    ensures { IsTrue result → map thing_of pairs.now ≡ things.now }
{
    if pairs.len() != things.len() {
        return false;
    }
    for place in 0..pairs.len() {
        if !is_thing(Thing::Relation(pairs[place].relation), things[place]) {
            return false;
        }
    }
    true
}

// Whether a list is one of these.
fn is_among(lists: &[Items<u32>], list: &[u32]) -> bool
    ensures { IsTrue result → list_any (λ l. bytes_eq l list.now) lists.now ≡ true }
{
    for other in lists {
        if other.as_slice() == list {
            return true;
        }
    }
    false
}

// Whether the equalities of each two of these constants have numbers; they were tested where the constants are among these lists.
fn is_known_beside(atoms: &Atoms, before: &[Items<u32>], constants: &[u32]) -> bool
    requires { list_all (all_known atoms.now.table) before.now ≡ true }
    ensures { IsTrue result → all_known atoms.now.table constants.now ≡ true }
{
    is_among(before, constants) || are_known(atoms, constants)
}

// Whether it is so with those at each place.
fn are_known_beside(atoms: &Atoms, before: &[Items<u32>], columns: &[Items<u32>]) -> bool
    requires { list_all (all_known atoms.now.table) before.now ≡ true }
    ensures { IsTrue result → list_all (all_known atoms.now.table) columns.now ≡ true }
{
    for column in columns {
        if !is_known_beside(atoms, before, column.as_slice()) {
            return false;
        }
    }
    true
}

/// Whether it is so with those at each place of each relation.
pub fn are_columns_known(atoms: &Atoms, pairs: &[ReadingPairs]) -> bool
    ensures { IsTrue result → columns_known atoms.now.table pairs.now ≡ true }
{
    let mut before: &[Items<u32>] = &[];
    for some in pairs {
        if !are_known_beside(atoms, before, some.columns.as_slice()) {
            return false;
        }
        before = some.columns.as_slice();
    }
    true
}
