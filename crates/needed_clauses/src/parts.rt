// Some clauses of a problem, as a problem of their own over the atoms that they name.
ghost use Rattle.std.specs.Prelude.{IfOk, IfSome};
ghost use Rattle.needed_clauses.specs.Renaming.{IsPart};

use crate::testing::is_part;
use items::Items;
use proof_lines::{AtomKind, Clause, Lit, Problem};
use std::alloc::{AllocError, Global};

/// The place of an atom that no clause of a part names.
pub const NOWHERE: u32 = u32::MAX;

// How many atoms a list of them has room for at first.
const FEW_ATOMS: usize = 64;

/// A problem of some clauses of a whole one: their numbers in it, the numbers of the atoms, and the place of each atom of the whole problem
/// among these.
#[derive(Drop)]
pub(crate) struct Part {
    pub clauses: Vec<u32>,
    pub atoms: Vec<u32>,
    pub places: Vec<u32>,
    pub problem: Problem,
}

/// A place as a number; one that no number names is nowhere.
pub fn number_of(place: usize) -> u32 {
    match u32::try_from(place) {
        Ok(number) => number,
        Err(_) => NOWHERE,
    }
}

/// The place of an atom.
pub fn place_of(places: &[u32], atom: u32) -> u32 {
    match places.get(atom as usize) {
        Some(place) => *place,
        None => NOWHERE,
    }
}

/// So many places of atoms that nothing names yet.
pub fn no_places(alloc: Global, many: usize) -> Result<Vec<u32>, AllocError> {
    vec![in alloc; NOWHERE; many]
}

/// Marks the atoms of a clause with the place 0.
pub fn mark(places: &mut [u32], lits: &[Lit]) {
    for lit in lits {
        let atom = lit.atom as usize;
        if atom < places.len() {
            places[atom] = 0;
        }
    }
}

/// Gives the atoms that are marked their places, in the order of their numbers, and lists them.
pub fn number_marked(alloc: Global, places: &mut [u32]) -> Result<Vec<u32>, AllocError> {
    let mut atoms = Vec::with_capacity(alloc, FEW_ATOMS)?;
    for atom in 0..places.len() {
        if atom < places.len() && places[atom] != NOWHERE {
            places[atom] = number_of(atoms.len());
            atoms.push(number_of(atom))?;
        }
    }
    Ok(atoms)
}

fn copy_atom(alloc: Global, atom: Option<&AtomKind>) -> Result<AtomKind, AllocError> {
    match atom {
        Some(AtomKind::Row(row)) => Ok(AtomKind::Row(row.copy(alloc)?)),
        _ => Ok(AtomKind::Plain),
    }
}

// The atoms of a whole problem with these numbers.
fn atoms_of(
    alloc: Global,
    problem: &Problem,
    numbers: &[u32],
) -> Result<Items<AtomKind>, AllocError> {
    let mut atoms = Items::new(alloc);
    for number in numbers {
        let atom = copy_atom(alloc, problem.atoms.get(*number as usize))?;
        atoms.push(atom)?;
    }
    Ok(atoms)
}

/// A clause over the places of its atoms.
pub fn placed(alloc: Global, places: &[u32], lits: &[Lit]) -> Result<Clause, AllocError> {
    let mut clause = Clause::empty(alloc);
    for lit in lits {
        clause.insert(Lit {
            atom: place_of(places, lit.atom),
            positive: lit.positive,
        })?;
    }
    Ok(clause)
}

fn lits_of(problem: &Problem, clause: u32) -> &[Lit] {
    match problem.clauses.get(clause as usize) {
        Some(clause) => clause.lits(),
        None => &[],
    }
}

// The clauses of a whole problem with these numbers.
fn clauses_of(
    alloc: Global,
    problem: &Problem,
    places: &[u32],
    numbers: &[u32],
) -> Result<Items<Clause>, AllocError> {
    let mut clauses = Items::new(alloc);
    for number in numbers {
        clauses.push(placed(alloc, places, lits_of(problem, *number))?)?;
    }
    Ok(clauses)
}

/// The part of a problem that has the clauses with these numbers; nothing where one isn't there.
pub(crate) fn part_of(
    alloc: Global,
    problem: &Problem,
    clauses: Vec<u32>,
) -> Result<Option<Part>, AllocError>
    ensures { IfOk result (λ found. IfSome found
        (λ part. IsPart part.problem problem.now part.clauses.items part.atoms.items)) }
{
    let mut places = no_places(alloc, problem.atoms.len())?;
    for clause in clauses.iter() {
        mark(places.as_mut_slice(), lits_of(problem, *clause));
    }
    let atoms = number_marked(alloc, places.as_mut_slice())?;
    let kinds = atoms_of(alloc, problem, atoms.as_slice())?;
    let own = clauses_of(alloc, problem, places.as_slice(), clauses.as_slice())?;
    let Some(own) = Problem::new(kinds, problem.ints, own) else {
        return Ok(None);
    };
    if !is_part(&own, problem, clauses.as_slice(), atoms.as_slice()) {
        return Ok(None);
    }
    Ok(Some(Part {
        clauses,
        atoms,
        places,
        problem: own,
    }))
}
