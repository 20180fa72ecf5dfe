// The pairs of tuples that an interpretation makes equal, and of which it reads one true and one false.
//
// The equalities that are true say for each constant the least one that it is equal to, since they make all clauses true that say that
// equality is transitive. Two tuples are equal where these are the same, place by place. The tuples of a relation stand in chains by a number
// made of these, so that few are compared that aren't equal.
use crate::parts::Part;
use ground_atoms::Atom;
use items::or_drop;
use lazy_ground::{LazyGround, ReadingPairs};
use needed_clauses::parts::{NOWHERE, number_of, place_of};
use std::alloc::{AllocError, Global};

/// Two tuples of a relation's pairs, by their places: the relation's among those with pairs, and the tuples', the earlier first.
#[derive(Clone, Copy, PartialEq, Eq)]
pub struct PairAt {
    pub relation: usize,
    pub earlier: usize,
    pub later: usize,
}

/// The value of an atom, which is false where no clause of the part names it.
pub(crate) fn value_of(part: &Part, truths: &[bool], atom: u32) -> bool {
    match truths.get(place_of(part.places.as_slice(), atom) as usize) {
        Some(value) => *value,
        None => false,
    }
}

// Notes that a constant is equal to a lesser one.
fn note_equal(least: &mut Vec<u32>, lesser: u32, greater: u32) -> Result<(), AllocError> {
    for constant in least.len()..(greater as usize).saturating_add(1) {
        least.push(number_of(constant))?;
    }
    let place = greater as usize;
    if place < least.len() && lesser < least[place] {
        least[place] = lesser;
    }
    Ok(())
}

// For each constant up to the last that is equal to a lesser one, the least one that it is equal to; nothing where all differ.
fn least_equal(
    alloc: Global,
    ground: &LazyGround,
    part: &Part,
    truths: &[bool],
) -> Result<Vec<u32>, AllocError> {
    let mut least = Vec::new(alloc);
    for number in part.atoms.iter() {
        let Some(Atom::Same(lesser, greater)) = ground.atoms.atom(*number) else {
            continue;
        };
        if value_of(part, truths, *number) {
            note_equal(&mut least, *lesser, *greater)?;
        }
    }
    Ok(least)
}

fn least_of(least: &[u32], constant: u32) -> u32 {
    match least.get(constant as usize) {
        Some(other) => *other,
        None => constant,
    }
}

// Whether two tuples are equal.
fn are_equal(least: &[u32], left: &[u32], right: &[u32]) -> bool {
    left.iter().zip(right.iter()).all(|(one, other)| least_of(least, *one)
        == least_of(least, *other))
}

// The chain of a tuple, of so many.
fn chain_of(least: &[u32], tuple: &[u32], chains: usize) -> usize {
    let mut key: u32 = 0;
    for constant in tuple {
        key = key
            .wrapping_mul(31)
            .wrapping_add(least_of(least, *constant));
    }
    match (key as usize).checked_rem(chains) {
        Some(chain) => chain,
        None => 0,
    }
}

// Where the chains end, and for each tuple the one before it in its chain.
#[derive(Drop)]
struct Chains {
    ends: Vec<u32>,
    before: Vec<u32>,
}

impl Chains {
    fn new(alloc: Global, many: usize) -> Result<Chains, AllocError> {
        let mut ends = Vec::with_capacity(alloc, many)?;
        for _ in 0..many {
            ends.push(NOWHERE)?;
        }
        Ok(Chains {
            ends,
            before: Vec::new(alloc),
        })
    }

    // Adds the next tuple to a chain, and answers the one before it.
    fn add(&mut self, chain: usize) -> Result<u32, AllocError> {
        let next = number_of(self.before.len());
        let mut end = NOWHERE;
        if chain < self.ends.len() {
            end = self.ends[chain];
            self.ends[chain] = next;
        }
        self.before.push(end)?;
        Ok(end)
    }

    fn before(&self, tuple: u32) -> u32 {
        place_of(self.before.as_slice(), tuple)
    }
}

fn tuple_at(pairs: &ReadingPairs, place: usize) -> &[u32] {
    match pairs.tuples.get(place) {
        Some(tuple) => tuple.as_slice(),
        None => &[],
    }
}

// Which of a relation's readings are true.
fn values_of(
    alloc: Global,
    part: &Part,
    truths: &[bool],
    pairs: &ReadingPairs,
) -> Result<Vec<bool>, AllocError> {
    let mut values = Vec::with_capacity(alloc, pairs.atoms.len())?;
    for atom in pairs.atoms.iter() {
        values.push(value_of(part, truths, *atom))?;
    }
    Ok(values)
}

fn differ(values: &[bool], one: usize, other: usize) -> bool {
    match (values.get(one), values.get(other)) {
        (Some(value), Some(another)) => *value != *another,
        _ => false,
    }
}

// A relation as an interpretation reads it: its place and its tuples, which of their readings are true, and for each constant the least one
// that it is equal to.
#[derive(Clone, Copy)]
struct ReadRelation<'a> {
    relation: usize,
    pairs: &'a ReadingPairs,
    values: &'a [bool],
    least: &'a [u32],
}

impl ReadRelation<'_> {
    // Adds the pairs of a tuple with those before it that it is equal to and doesn't agree with.
    fn add_disagreeing(
        &self,
        later: usize,
        chains: &mut Chains,
        out: &mut Vec<PairAt>,
    ) -> Result<(), AllocError> {
        let tuple = tuple_at(self.pairs, later);
        let mut place = chains.add(chain_of(self.least, tuple, self.pairs.tuples.len()))?;
        for _ in 0..later {
            if place == NOWHERE {
                break;
            }
            let earlier = place as usize;
            let other = tuple_at(self.pairs, earlier);
            if differ(self.values, earlier, later) && are_equal(self.least, other, tuple) {
                out.push(PairAt {
                    relation: self.relation,
                    earlier,
                    later,
                })?;
            }
            place = chains.before(place);
        }
        Ok(())
    }

    // Adds the pairs of its tuples that are equal and don't agree.
    fn add_all_disagreeing(&self, alloc: Global, out: &mut Vec<PairAt>) -> Result<(), AllocError> {
        let many = self.pairs.tuples.len();
        let mut chains = Chains::new(alloc, many)?;
        for later in 0..many {
            self.add_disagreeing(later, &mut chains, out)?;
        }
        Ok(())
    }
}

// Adds those of a relation, which stands at this place.
fn add_of_relation(
    alloc: Global,
    part: &Part,
    truths: &[bool],
    (relation, pairs): (usize, &ReadingPairs),
    least: &[u32],
    out: &mut Vec<PairAt>,
) -> Result<(), AllocError> {
    let values = values_of(alloc, part, truths, pairs)?;
    let read = ReadRelation {
        relation,
        pairs,
        values: values.as_slice(),
        least,
    };
    let added = read.add_all_disagreeing(alloc, out);
    drop(values);
    added
}

// Adds those of each relation.
fn add_of_relations(
    alloc: Global,
    ground: &LazyGround,
    part: &Part,
    truths: &[bool],
    least: &[u32],
    out: &mut Vec<PairAt>,
) -> Result<(), AllocError> {
    if least.is_empty() {
        return Ok(());
    }
    for pairs in ground.pairs.iter().enumerate() {
        add_of_relation(alloc, part, truths, pairs, least, out)?;
    }
    Ok(())
}

/// The pairs of tuples that these truth values of a part make equal, and of which they read one true and one false.
pub(crate) fn disagreeing(
    alloc: Global,
    ground: &LazyGround,
    part: &Part,
    truths: &[bool],
) -> Result<Vec<PairAt>, AllocError> {
    let least = least_equal(alloc, ground, part, truths)?;
    let mut out = Vec::new(alloc);
    let added = add_of_relations(alloc, ground, part, truths, least.as_slice(), &mut out);
    drop(least);
    or_drop!(added; out);
    Ok(out)
}
