// Some chosen clauses as a problem of their own, over the atoms that they name.
ghost use Rattle.std.specs.Prelude.{IfOk, IfSome};
ghost use Rattle.needed_clauses.specs.Renaming.{IsPart};
ghost use Rattle.lazy_ground.specs.Lazy.{lazy_problem};
ghost use Rattle.lazy_search.specs.Refuting.{AreSizes, AreOf};

use crate::Chosen;
use crate::counting::{Sizes, count_ints};
use crate::testing::{Picks, Proposed, is_part};
use ground_atoms::{Atom, Atoms};
use items::{Items, or_drop};
use lazy_ground::LazyGround;
use needed_clauses::parts::{NOWHERE, no_places, number_of, placed};
use proof_lines::{AtomKind, Clause, Lit, Problem};
use std::alloc::{AllocError, Global};

/// Room for the atoms that a few clauses name, or for their places; most parts have fewer.
pub(crate) const FEW_ATOMS: usize = 64;

/// A problem of some chosen clauses: these, the numbers of its atoms in the whole problem, and the place of each atom of that among these.
#[derive(Drop)]
pub struct Part {
    pub picks: Picks,
    pub atoms: Vec<u32>,
    pub places: Vec<u32>,
    pub problem: Problem,
}

fn kind_at(alloc: Global, atoms: &Atoms, number: u32) -> Result<AtomKind, AllocError> {
    match atoms.atom(number) {
        Some(Atom::Row(row)) => Ok(AtomKind::Row(row.row().copy(alloc)?)),
        _ => Ok(AtomKind::Plain),
    }
}

// What the atoms with these numbers stand for.
fn kinds_of(alloc: Global, atoms: &Atoms, numbers: &[u32]) -> Result<Items<AtomKind>, AllocError> {
    let mut kinds = Items::from_vec(Vec::with_capacity(alloc, numbers.len())?);
    for number in numbers {
        kinds.push(kind_at(alloc, atoms, *number)?)?;
    }
    Ok(kinds)
}

fn lits_at(chosen: &Chosen, place: u32) -> &[Lit] {
    match chosen.clauses.get(place as usize) {
        Some(clause) => clause.lits(),
        None => &[],
    }
}

// The clauses at these places, over the places of their atoms.
fn clauses_of(
    alloc: Global,
    chosen: &Chosen,
    picks: &[u32],
    places: &[u32],
) -> Result<Items<Clause>, AllocError> {
    let mut own = Items::from_vec(Vec::with_capacity(alloc, picks.len())?);
    for pick in picks {
        own.push(placed(alloc, places, lits_at(chosen, *pick))?)?;
    }
    Ok(own)
}

// The problem of these atoms and clauses; nothing where they don't fit together.
fn problem_of(
    alloc: Global,
    ground: &LazyGround,
    chosen: &Chosen,
    picks: &[u32],
    places: &[u32],
    atoms: &[u32],
) -> Result<Option<Problem>, AllocError> {
    let Some(ints) = count_ints(&ground.atoms) else {
        return Ok(None);
    };
    let kinds = kinds_of(alloc, &ground.atoms, atoms)?;
    let own = or_drop!(clauses_of(alloc, chosen, picks, places); kinds);
    Ok(Problem::new(kinds, ints, own))
}

/// How many atoms there are up to the last that a chosen clause names.
pub(crate) fn count_named(chosen: &Chosen) -> usize {
    let mut many = 0;
    for clause in chosen.clauses.iter() {
        for lit in clause.lits() {
            many = many.max((lit.atom as usize).saturating_add(1));
        }
    }
    many
}

// Marks what a clause names, and lists of it what wasn't marked.
fn mark_new(places: &mut [u32], lits: &[Lit], atoms: &mut Vec<u32>) -> Result<(), AllocError> {
    for lit in lits {
        let atom = lit.atom as usize;
        if atom < places.len() && places[atom] == NOWHERE {
            places[atom] = 0;
            atoms.push(lit.atom)?;
        }
    }
    Ok(())
}

// The atoms that these clauses and these literals name, in rising order. They are marked.
fn marked(
    alloc: Global,
    chosen: &Chosen,
    picks: &[u32],
    others: &[Lit],
    places: &mut [u32],
) -> Result<Vec<u32>, AllocError> {
    let mut atoms = Vec::with_capacity(alloc, FEW_ATOMS)?;
    for pick in picks {
        mark_new(places, lits_at(chosen, *pick), &mut atoms)?;
    }
    mark_new(places, others, &mut atoms)?;
    atoms.sort_unstable();
    Ok(atoms)
}

// Gives the atoms their places, in their order.
fn number(places: &mut [u32], atoms: &[u32]) {
    for (place, atom) in atoms.iter().enumerate() {
        let atom = *atom as usize;
        if atom < places.len() {
            places[atom] = number_of(place);
        }
    }
}

/// The part of a whole problem that has the clauses that were picked, and the atoms of some other literals too; nothing where they don't
/// make one.
pub fn part_of(
    alloc: Global,
    ground: &LazyGround,
    sizes: &Sizes,
    chosen: &Chosen,
    picks: Picks,
    others: &[Lit],
) -> Result<Option<Part>, AllocError>
    requires sizes { AreSizes ground.now sizes.now }
    requires chosen { AreOf ground.now chosen.now }
    ensures { IfOk result (λ found. IfSome found (λ part. IsPart part.problem
        (lazy_problem ground.now) part.picks.numbers.items part.atoms.items)) }
{
    let mut places = no_places(alloc, count_named(chosen))?;
    let picked = picks.places.as_slice();
    let atoms = or_drop!(marked(alloc, chosen, picked, others, places.as_mut_slice()); places);
    number(places.as_mut_slice(), atoms.as_slice());
    let own = problem_of(
        alloc,
        ground,
        chosen,
        picks.places.as_slice(),
        places.as_slice(),
        atoms.as_slice(),
    )?;
    let Some(problem) = own else {
        return Ok(None);
    };
    let proposed = Proposed {
        problem: &problem,
        picks: &picks,
        atoms: atoms.as_slice(),
    };
    if !is_part(&proposed, ground, sizes, chosen) {
        drop(problem);
        return Ok(None);
    }
    Ok(Some(Part {
        picks,
        atoms,
        places,
        problem,
    }))
}
