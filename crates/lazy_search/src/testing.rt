// Whether a problem is the part of a whole one that has some of the chosen clauses, by a look at its atoms and clauses.
ghost use Rattle.std.specs.Prelude.{◌≡◌, ◌<◌, [], length, map, slice_get, slice_index_or, IsTrue};
ghost use Rattle.std.specs.Prelude.{Some};
ghost use Rattle.proof_lines.specs.declared.problem.AtomKind.TheVariants as plain_kind;
ghost use Rattle.needed_clauses.specs.Renaming.{number_in, lit_by, HaveKinds, HaveClauses, IsPart};
ghost use Rattle.ground_numbers.specs.Problem.{kind_of};
ghost use Rattle.ground_atoms.specs.Symbols.{atom_of};
ghost use Rattle.lazy_ground.specs.Lazy.{lazy_problem};
ghost use Rattle.lazy_search.specs.Refuting.{AreSizes, AreOf};

use crate::Chosen;
use crate::counting::Sizes;
use ground_atoms::Atom;
use lazy_ground::LazyGround;
use lin_rows::same_row;
use needed_clauses::testing::{have_literals, rise};
use proof_lines::{AtomKind, Problem};

fn is_plain(kind: &AtomKind) -> bool
    ensures { IsTrue result → kind.now ≡ plain_kind.Plain }
{
    match kind {
        AtomKind::Plain => true,
        AtomKind::Row(_) => false,
    }
}

// Whether this is what an atom stands for.
fn is_kind_of(kind: &AtomKind, atom: &Atom) -> bool
    ensures { IsTrue result → kind.now ≡ kind_of (atom_of atom.now) }
{
    match atom {
        Atom::Row(row) => match kind {
            AtomKind::Plain => false,
            AtomKind::Row(other) => same_row(row.row(), other),
        },
        _ => is_plain(kind),
    }
}

// Whether this is what the atom of a number stands for in the whole problem.
fn is_kind_at(kind: &AtomKind, ground: &LazyGround, sizes: &Sizes, number: u32) -> bool
    requires { AreSizes ground.now sizes.now }
    ensures { IsTrue result → slice_get (lazy_problem ground.now).atoms number ≡ Some kind.now }
{
    match ground.atoms.atom(number) {
        Some(atom) => is_kind_of(kind, atom),
        None => (number as usize) < sizes.atoms && is_plain(kind),
    }
}

// Whether the atom of a part at a place stands for what the one with its number does.
fn has_kind(part: &Problem, ground: &LazyGround, sizes: &Sizes, atoms: &[u32], place: usize) -> bool
    requires place { place < length atoms.now }
    requires sizes { AreSizes ground.now sizes.now }
    ensures { IsTrue result
        → slice_get (lazy_problem ground.now).atoms (slice_index_or atoms.now place 0)
        ≡ slice_get part.now.atoms place }
{
    match part.atoms.get(place) {
        Some(kind) => is_kind_at(kind, ground, sizes, atoms[place]),
        None => false,
    }
}

fn have_kinds(part: &Problem, ground: &LazyGround, sizes: &Sizes, atoms: &[u32]) -> bool
    requires { AreSizes ground.now sizes.now }
    ensures { IsTrue result → HaveKinds (length atoms.now) part.now.atoms
        (lazy_problem ground.now).atoms atoms.now }
{
    for place in 0..atoms.len() {
        if !has_kind(part, ground, sizes, atoms, place) {
            return false;
        }
    }
    true
}

/// The clauses of a part: their places among the chosen ones, and their numbers among all.
#[derive(Drop)]
pub struct Picks {
    pub places: Vec<u32>,
    pub numbers: Vec<u32>,
}

/// A problem that is to be the part of a whole one: the clauses of the whole that were picked for it, and the numbers of its atoms there.
#[derive(Clone, Copy)]
pub struct Proposed<'a> {
    pub problem: &'a Problem,
    pub picks: &'a Picks,
    pub atoms: &'a [u32],
}

// Whether the clause of a part at a place is the chosen one that was picked there, which has its number among all.
fn has_clause(
    proposed: &Proposed<'_>,
    ground: &LazyGround,
    chosen: &Chosen,
    whole: usize,
    place: usize,
) -> bool
    requires chosen { AreOf ground.now chosen.now }
    requires place { place < length proposed.now.picks.now.numbers.items }
    requires part { length proposed.now.problem.now.clauses
        ≡ length proposed.now.picks.now.numbers.items }
    ensures { IsTrue result → slice_get (lazy_problem ground.now).clauses
        (slice_index_or proposed.now.picks.now.numbers.items place 0)
        ≡ Some (map (lit_by (number_in proposed.now.atoms.now whole))
        (slice_index_or proposed.now.problem.now.clauses place [])) }
{
    let _ground = ground;
    let Proposed {
        problem,
        picks,
        atoms,
    } = *proposed;
    let Some(pick) = picks.places.get(place) else {
        return false;
    };
    let pick = *pick as usize;
    if pick >= chosen.numbers.len() || chosen.numbers[pick] != picks.numbers[place] {
        return false;
    }
    match (problem.clauses.get(place), chosen.clauses.get(pick)) {
        (Some(small), Some(large)) => have_literals(atoms, whole, small.lits(), large.lits()),
        _ => false,
    }
}

fn have_clauses(proposed: &Proposed<'_>, ground: &LazyGround, chosen: &Chosen, whole: usize) -> bool
    requires chosen { AreOf ground.now chosen.now }
    requires part { length proposed.now.problem.now.clauses
        ≡ length proposed.now.picks.now.numbers.items }
    ensures { IsTrue result → HaveClauses (number_in proposed.now.atoms.now whole)
        (length proposed.now.picks.now.numbers.items) proposed.now.problem.now.clauses
        (lazy_problem ground.now).clauses proposed.now.picks.now.numbers.items }
{
    for place in 0..proposed.picks.numbers.len() {
        if !has_clause(proposed, ground, chosen, whole, place) {
            return false;
        }
    }
    true
}

// Whether a problem has as many atoms and clauses as there are numbers of them.
fn is_sized(part: &Problem, atoms: &[u32], numbers: &[u32]) -> bool
    ensures atoms { IsTrue result → length part.now.atoms ≡ length atoms.now }
    ensures clauses { IsTrue result → length part.now.clauses ≡ length numbers.now }
{
    part.atoms.len() == atoms.len() && part.clauses.len() == numbers.len()
}

/// Whether a problem over the atoms with these numbers is the part of the whole one that has the clauses that were picked.
pub(crate) fn is_part(
    proposed: &Proposed<'_>,
    ground: &LazyGround,
    sizes: &Sizes,
    chosen: &Chosen,
) -> bool
    requires sizes { AreSizes ground.now sizes.now }
    requires chosen { AreOf ground.now chosen.now }
    ensures { IsTrue result → IsPart proposed.now.problem.now (lazy_problem ground.now)
        proposed.now.picks.now.numbers.items proposed.now.atoms.now }
{
    let Proposed {
        problem,
        picks,
        atoms,
    } = *proposed;
    if !is_sized(problem, atoms, picks.numbers.as_slice()) {
        return false;
    }
    if !rise(atoms, sizes.atoms) || !have_kinds(problem, ground, sizes, atoms) {
        return false;
    }
    have_clauses(proposed, ground, chosen, sizes.atoms)
}
