// The problem of numbered formulas.
ghost use Rattle.std.specs.Prelude.{◌≡◌, ◌++◌, [], true, IfOk, IfSome, length, map, replicate};
ghost use Rattle.std.specs.Prelude.{take};
ghost use Rattle.std.specs.List.{list_all};
ghost use Rattle.proof_lines.specs.Problems.{names_below};
ghost use Rattle.ground_numbers.specs.{Numbered.{is_below}, Problem.{kind_of, problem}};
ghost use Rattle.ground_atoms.specs.{Symbols.{atom_of}, Formulas.{form_of}};
ghost use Rattle.clausify.specs.Kept.{AreClausesOf};

use crate::kept::{KeptClauses, write_from};
use ground_atoms::{Atom, Atoms, GroundFormula};
use items::Items;
use proof_lines::{AtomKind, Clause, Problem};
use std::alloc::{AllocError, Global};

// What an atom stands for in a problem.
fn kind_of(alloc: Global, atom: &Atom) -> Result<AtomKind, AllocError>
    ensures { IfOk result (λ kind. kind ≡ kind_of (atom_of atom.now)) }
{
    match atom {
        Atom::Row(row) => Ok(AtomKind::Row(row.row().copy(alloc)?)),
        _ => Ok(AtomKind::Plain),
    }
}

fn kinds_of(alloc: Global, atoms: &Atoms) -> Result<Items<AtomKind>, AllocError>
    ensures { IfOk result (λ kinds. kinds ≡ map kind_of atoms.now.table.atoms) }
{
    let mut kinds = Items::new(alloc);
    for n in 0..u32::MAX {
        let Some(atom) = atoms.atom(n) else {
            return Ok(kinds);
        };
        kinds.push(kind_of(alloc, atom)?)?;
    }
    Err(AllocError)
}

// How many integer names there are, unless they are more than a number counts.
fn count_ints(atoms: &Atoms) -> Option<u32>
    ensures { IfSome result (λ n. n ≡ length atoms.now.table.ints) }
{
    for n in 0..u32::MAX {
        if atoms.int(n).is_none() {
            return Some(n);
        }
    }
    None
}

// Atoms of these kinds, and then so many that stand for nothing but themselves.
fn with_names(mut kinds: Items<AtomKind>, count: u32) -> Result<Items<AtomKind>, AllocError>
    ensures { IfOk result (λ atoms. atoms ≡ kinds ++ replicate count AtomKind.Plain) }
{
    for i in 0..count {
        kinds.push(AtomKind::Plain)?;
    }
    Ok(kinds)
}

// No clauses yet, and room for so many.
fn no_clauses(alloc: Global, room: usize) -> Result<Items<Clause>, AllocError>
    ensures { IfOk result (λ cs. cs ≡ []) }
{
    let clauses = Vec::with_capacity(alloc, room)?;
    Ok(Items::from_vec(clauses))
}

/// The problem of formulas over numbered atoms: its clauses are true together exactly where the formulas are, but for the atoms that
/// name parts. Atoms keep their numbers, and those that name parts come after them. Where clauses of the first so many formulas were
/// kept, these are copied.
pub fn problem_from(
    alloc: Global,
    atoms: &Atoms,
    formulas: &[GroundFormula],
    kept: Option<(&KeptClauses, usize)>,
) -> Result<Problem, AllocError>
    requires kept { IfSome kept (λ k. AreClausesOf (take k.1 (map form_of formulas.now)) k.0.now) }
    requires named { list_all (is_below (length atoms.now.table.atoms)) (map form_of formulas.now)
        ≡ true }
    requires placed { list_all (names_below (length atoms.now.table.ints))
        (map kind_of atoms.now.table.atoms) ≡ true }
    ensures { IfOk result (λ p. p ≡ problem atoms.now.table (map form_of formulas.now)) }
{
    let kinds = kinds_of(alloc, atoms)?;
    let (Some(ints), Ok(first)) = (count_ints(atoms), u32::try_from(kinds.len())) else {
        return Err(AllocError);
    };
    let mut clauses = no_clauses(alloc, formulas.len())?;
    let end = write_from(alloc, first, formulas, kept, &mut clauses)?;
    let named = with_names(kinds, end - first)?;
    Ok(Problem {
        atoms: named,
        ints,
        clauses,
    })
}

/// The same problem, where no clauses were kept.
pub fn problem_of(
    alloc: Global,
    atoms: &Atoms,
    formulas: &[GroundFormula],
) -> Result<Problem, AllocError>
    requires named { list_all (is_below (length atoms.now.table.atoms)) (map form_of formulas.now)
        ≡ true }
    requires placed { list_all (names_below (length atoms.now.table.ints))
        (map kind_of atoms.now.table.atoms) ≡ true }
    ensures { IfOk result (λ p. p ≡ problem atoms.now.table (map form_of formulas.now)) }
{
    problem_from(alloc, atoms, formulas, None)
}
