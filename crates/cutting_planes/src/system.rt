// The given rows as a system: equations, slabs, and the other rows, over the names that they name.
use crate::combining::{Derivation, row_at};
use crate::pairs::{Pair, keys_of, pair_of};
use lin_rows::RowTerm;
use simplex::number::put;
use std::alloc::Global;
use whole_lattice::{Lattice, Vectors};

/// No system has more names, and none more rows.
const NAME_LIMIT: usize = 48;

const ROW_LIMIT: usize = 600;

/// So many numbers are looked at in making vectors short.
const WORK_LIMIT: usize = 400_000;

/// What a slab may be off by counts so much less than what a name may, the wider it is.
const WIDE: i128 = 1_000;

/// A system of the given rows.
#[derive(Drop)]
pub struct System {
    /// The place of each name.
    pub places: Vec<u32>,
    /// The number of each place's name, from 1 on; 0 where nothing names it.
    names: Vec<usize>,
    pub equations: Vectors,
    pub values: Vec<i128>,
    pub pairs: Vec<Pair>,
    pub slabs: Vec<Pair>,
    /// The rows that are part of no equation.
    pub others: Vec<u32>,
}

// Gives the name of a place a number.
fn name_place(system: &mut System, place: u32) -> Option<()> {
    system.places.push(place).ok()?;
    let number = system.places.len();
    let index = place as usize;
    if index < system.names.len() {
        system.names[index] = number;
    }
    Some(())
}

fn name_terms(system: &mut System, terms: &[RowTerm]) -> Option<()> {
    for term in terms {
        if system.names.get(term.place as usize).copied()? == 0 {
            name_place(system, term.place)?;
        }
    }
    if system.places.len() > NAME_LIMIT {
        return None;
    }
    Some(())
}

// Gives the names of all rows a number.
fn name_all(system: &mut System, derivation: &Derivation<'_>) -> Option<()> {
    for number in 0..derivation.rows.given_len() {
        name_terms(system, derivation.rows.get(number)?.terms())?;
    }
    Some(())
}

/// The number of a place's name.
pub fn name_at(system: &System, place: u32) -> Option<usize> {
    system.names.get(place as usize).copied()?.checked_sub(1)
}

/// Writes the coefficients of a row by names.
pub fn write_coefs(system: &System, terms: &[RowTerm], coefs: &mut [i128]) -> Option<()> {
    for i in 0..coefs.len() {
        put(coefs, i, 0);
    }
    for term in terms {
        put(coefs, name_at(system, term.place)?, term.coef);
    }
    Some(())
}

fn push_equation(
    system: &mut System,
    derivation: &Derivation<'_>,
    pair: Pair,
    coefs: &mut [i128],
) -> Option<()> {
    let row = row_at(derivation, pair.upper)?;
    write_coefs(system, row.terms(), coefs)?;
    system.equations.push(coefs)?;
    system.values.push(row.bound()).ok()?;
    system.pairs.push(pair).ok()
}

// Sorts a given row in. Of a pair the first row is the upper one.
fn sort_in(
    system: &mut System,
    derivation: &Derivation<'_>,
    keys: &[u64],
    number: u32,
    coefs: &mut [i128],
) -> Option<()> {
    let Some(pair) = pair_of(derivation, keys, number) else {
        return system.others.push(number).ok();
    };
    let is_first = pair.upper < pair.lower;
    if pair.width == 0 {
        if is_first {
            push_equation(system, derivation, pair, coefs)?;
        }
        return Some(());
    }
    if is_first {
        system.slabs.push(pair).ok()?;
    }
    system.others.push(number).ok()
}

fn sort_all(
    system: &mut System,
    derivation: &Derivation<'_>,
    keys: &[u64],
    coefs: &mut [i128],
) -> Option<()> {
    for number in 0..keys.len() {
        sort_in(system, derivation, keys, u32::try_from(number).ok()?, coefs)?;
    }
    Some(())
}

fn sort_by(
    system: &mut System,
    derivation: &Derivation<'_>,
    alloc: Global,
    keys: &[u64],
) -> Option<()> {
    let mut coefs = vec![in alloc; 0i128; system.places.len()].ok()?;
    let sorted = sort_all(system, derivation, keys, coefs.as_mut_slice());
    drop(coefs);
    sorted
}

fn fill(system: &mut System, derivation: &Derivation<'_>, alloc: Global) -> Option<()> {
    name_all(system, derivation)?;
    system.equations.width = system.places.len();
    let keys = keys_of(derivation, alloc)?;
    let sorted = sort_by(system, derivation, alloc, keys.as_slice());
    drop(keys);
    sorted
}

/// The system of the given rows, where it has equations or slabs and isn't too large.
pub fn system_of(derivation: &Derivation<'_>, alloc: Global, ints: usize) -> Option<System> {
    if derivation.rows.given_len() > ROW_LIMIT {
        return None;
    }
    let names = vec![in alloc; 0usize; ints].ok()?;
    let mut system = System {
        places: Vec::new(alloc),
        names,
        equations: Vectors::new(alloc, 0),
        values: Vec::new(alloc),
        pairs: Vec::new(alloc),
        slabs: Vec::new(alloc),
        others: Vec::new(alloc),
    };
    let filled = fill(&mut system, derivation, alloc);
    if filled.is_none() || system.pairs.len() + system.slabs.len() == 0 {
        drop(system);
        return None;
    }
    Some(system)
}

// How much it counts to be off the middle of a slab.
fn weight_of(slab: &Pair) -> i128 {
    let share = WIDE.checked_div(slab.width.saturating_add(1)).unwrap_or(0);
    if share < 1 { 1 } else { share }
}

// Writes the values of the slabs' sums at a name's vector.
fn write_slabs(
    system: &System,
    derivation: &Derivation<'_>,
    vectors: &mut Vectors,
    name: usize,
) -> Option<()> {
    let place = system.places.get(name).copied()?;
    for (i, slab) in system.slabs.iter().enumerate() {
        let coef = row_at(derivation, slab.upper)?.coefficient(place);
        let value = coef.checked_mul(weight_of(slab))?;
        vectors.put(name, system.places.len().saturating_add(i), value);
    }
    Some(())
}

fn push_vectors(system: &System, derivation: &Derivation<'_>, vectors: &mut Vectors) -> Option<()> {
    for name in 0..system.places.len() {
        vectors.push_unit(name)?;
        write_slabs(system, derivation, vectors, name)?;
    }
    vectors.push_unit(vectors.width)
}

// A vector for each name, and 0 as the point.
fn vectors_of(system: &System, derivation: &Derivation<'_>, alloc: Global) -> Option<Vectors> {
    let width = system.places.len().saturating_add(system.slabs.len());
    let mut vectors = Vectors::new(alloc, width);
    match push_vectors(system, derivation, &mut vectors) {
        Some(()) => Some(vectors),
        None => {
            drop(vectors);
            None
        }
    }
}

/// The lattice of all points.
pub fn lattice_of(system: &System, derivation: &Derivation<'_>, alloc: Global) -> Option<Lattice> {
    let vectors = vectors_of(system, derivation, alloc)?;
    Lattice::new(alloc, vectors, WORK_LIMIT)
}

// The middle of a slab, as much as it counts.
fn middle_at(derivation: &Derivation<'_>, slab: &Pair) -> Option<i128> {
    let high = row_at(derivation, slab.upper)?.bound();
    let low = row_at(derivation, slab.lower)?.bound().checked_neg()?;
    let sum = high.checked_add(low)?.checked_mul(weight_of(slab))?;
    sum.checked_div(2)
}

fn write_middle(system: &System, derivation: &Derivation<'_>, middle: &mut [i128]) -> Option<()> {
    for (i, slab) in system.slabs.iter().enumerate() {
        let place = system.places.len().saturating_add(i);
        put(middle, place, middle_at(derivation, slab)?);
    }
    Some(())
}

/// A point in the middle of the slabs, as near to 0 as they let it.
pub fn middle_of(system: &System, derivation: &Derivation<'_>, alloc: Global) -> Option<Vec<i128>> {
    let width = system.places.len().saturating_add(system.slabs.len());
    let mut middle = vec![in alloc; 0i128; width].ok()?;
    match write_middle(system, derivation, middle.as_mut_slice()) {
        Some(()) => Some(middle),
        None => {
            drop(middle);
            None
        }
    }
}
