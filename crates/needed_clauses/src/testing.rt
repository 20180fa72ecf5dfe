// Whether a problem is a part of another one, by a look at its atoms and clauses.
ghost use Rattle.std.specs.Prelude.{◌≡◌, ◌<◌, suc, [], length, map, slice_get, slice_index_or};
ghost use Rattle.std.specs.Prelude.{IsTrue, IfOk, Some};
ghost use Rattle.proof_lines.specs.Clauses.{lit_of};
ghost use Rattle.needed_clauses.specs.Renaming.{number_in, lit_by, IsPart, Rise, HaveKinds};
ghost use Rattle.needed_clauses.specs.Renaming.{HaveLiterals, HaveClauses};

use lin_rows::same_row;
use proof_lines::{AtomKind, Lit, Problem};
use std::alloc::AllocError;

/// The number that a member of a part has in the whole, which has so many: that of a list, or behind all where it is behind the list.
pub(crate) fn number_in(numbers: &[u32], whole: usize, number: u32) -> Result<u32, AllocError>
    ensures { IfOk result (λ n. n ≡ number_in numbers.now whole number) }
{
    let place = number as usize;
    if place < numbers.len() {
        return Ok(numbers[place]);
    }
    let Some(behind) = (place - numbers.len()).checked_add(whole) else {
        return Err(AllocError);
    };
    match u32::try_from(behind) {
        Ok(number) => Ok(number),
        Err(_) => Err(AllocError),
    }
}

/// A literal with the number that its atom has in the whole.
pub(crate) fn lit_in(atoms: &[u32], whole: usize, lit: Lit) -> Result<Lit, AllocError>
    ensures { IfOk result (λ l. l ≡ lit_by (number_in atoms.now whole) lit) }
{
    let atom = number_in(atoms, whole, lit.atom)?;
    Ok(Lit {
        atom,
        positive: lit.positive,
    })
}

// Whether a number is below an end and below the next one.
fn rises_at(numbers: &[u32], place: usize, end: usize) -> bool
    requires { place < length numbers.now }
    ensures { IsTrue result → (slice_index_or numbers.now place 0 < end)
        × (suc place < length numbers.now
        → slice_index_or numbers.now place 0 < slice_index_or numbers.now (suc place) 0) }
{
    let number = numbers[place];
    let next = place + 1;
    if next < numbers.len() && numbers[next] <= number {
        return false;
    }
    (number as usize) < end
}

/// Whether numbers rise, and are below an end.
pub fn rise(numbers: &[u32], end: usize) -> bool
    ensures { IsTrue result → Rise (length numbers.now) numbers.now end }
{
    for place in 0..numbers.len() {
        if !rises_at(numbers, place, end) {
            return false;
        }
    }
    true
}

/// Whether two atoms stand for the same.
pub fn same_kind(small: &AtomKind, large: &AtomKind) -> bool
    ensures { IsTrue result → large.now ≡ small.now }
{
    match small {
        AtomKind::Plain => match large {
            AtomKind::Plain => true,
            AtomKind::Row(_) => false,
        },
        AtomKind::Row(row) => match large {
            AtomKind::Plain => false,
            AtomKind::Row(other) => same_row(other, row),
        },
    }
}

// Whether the atom of a part at a place stands for what the one with its number does.
fn has_kind(part: &Problem, whole: &Problem, atoms: &[u32], place: usize) -> bool
    requires { place < length atoms.now }
    ensures { IsTrue result → slice_get whole.now.atoms (slice_index_or atoms.now place 0)
        ≡ slice_get part.now.atoms place }
{
    let (Some(one), Some(other)) = (
        part.atoms.get(place),
        whole.atoms.get(atoms[place] as usize),
    ) else {
        return false;
    };
    same_kind(one, other)
}

fn have_kinds(part: &Problem, whole: &Problem, atoms: &[u32]) -> bool
    ensures { IsTrue result
        → HaveKinds (length atoms.now) part.now.atoms whole.now.atoms atoms.now }
{
    for place in 0..atoms.len() {
        if !has_kind(part, whole, atoms, place) {
            return false;
        }
    }
    true
}

// Whether the literals of a part's clause at a place are those of the whole one there.
fn has_literal(atoms: &[u32], whole: usize, small: Lit, large: Lit) -> bool
    ensures { IsTrue result → large ≡ lit_by (number_in atoms.now whole) small }
{
    match lit_in(atoms, whole, small) {
        Ok(lit) => lit.same(large),
        Err(_) => false,
    }
}

/// Whether literals of a part are these ones, with the numbers that their atoms have in the whole.
pub fn have_literals(atoms: &[u32], whole: usize, small: &[Lit], large: &[Lit]) -> bool
    ensures { IsTrue result → large.now ≡ map (lit_by (number_in atoms.now whole)) small.now }
{
    if small.len() != large.len() {
        return false;
    }
    for place in 0..small.len() {
        if !has_literal(atoms, whole, small[place], large[place]) {
            return false;
        }
    }
    true
}

// Whether the clause of a part at a place is the one that has its number.
fn has_clause(atoms: &[u32], part: &Problem, whole: &Problem, clauses: &[u32], place: usize) -> bool
    requires place { place < length clauses.now }
    requires part { length clauses.now ≡ length part.now.clauses }
    ensures { IsTrue result → slice_get whole.now.clauses (slice_index_or clauses.now place 0)
        ≡ Some (map (lit_by (number_in atoms.now (length whole.now.atoms)))
        (slice_index_or part.now.clauses place [])) }
{
    let (Some(small), Some(large)) = (
        part.clauses.get(place),
        whole.clauses.get(clauses[place] as usize),
    ) else {
        return false;
    };
    have_literals(atoms, whole.atoms.len(), small.lits(), large.lits())
}

fn have_clauses(atoms: &[u32], part: &Problem, whole: &Problem, clauses: &[u32]) -> bool
    requires { length clauses.now ≡ length part.now.clauses }
    ensures { IsTrue result → HaveClauses (number_in atoms.now (length whole.now.atoms))
        (length clauses.now) part.now.clauses whole.now.clauses clauses.now }
{
    for place in 0..clauses.len() {
        if !has_clause(atoms, part, whole, clauses, place) {
            return false;
        }
    }
    true
}

/// How many atoms and clauses a problem has.
pub(crate) fn sizes(problem: &Problem) -> (usize, usize)
    ensures { result ≡ (length problem.now.atoms, length problem.now.clauses) }
{
    (problem.atoms.len(), problem.clauses.len())
}

/// Whether a problem is the part of a whole one that has the clauses and the atoms with these numbers.
pub(crate) fn is_part(part: &Problem, whole: &Problem, clauses: &[u32], atoms: &[u32]) -> bool
    ensures { IsTrue result → IsPart part.now whole.now clauses.now atoms.now }
{
    let (few, some) = sizes(part);
    if few != atoms.len() || some != clauses.len() {
        return false;
    }
    let (many, _) = sizes(whole);
    if !rise(atoms, many) {
        return false;
    }
    if !have_kinds(part, whole, atoms) {
        return false;
    }
    have_clauses(atoms, part, whole, clauses)
}
