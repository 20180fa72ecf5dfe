// The problem so far: the given one, with the clauses and atoms that the lines of the log gave.
ghost use Rattle.std.specs.Prelude.{◌≡◌, ◌<◌, ◌^◌, ◌∷◌, [], true, length, slice_index_or, OnOk, IfOk, MatchResult};
ghost use Rattle.lin_rows.specs.Rows.{places_below};
ghost use Rattle.proof_lines.specs.{Clauses.{distinct}, Problems.{atoms_below}};
ghost use Rattle.proof_lines.specs.declared.problem.AtomKind.TheVariants.{Plain};
ghost use Rattle.sat_core.specs.{SearchLogs.{with_clause, with_row}, Searching.{is_true_at_zero}};

use lin_rows::Row;
use line_rows::splitting::is_negative;
use proof_lines::{AtomKind, Clause, Lit, Problem};
use std::alloc::AllocError;

/// The clause with a number.
pub fn clause_at(problem: &Problem, number: u32) -> &Clause
    requires { number < length problem.now.clauses }
    ensures { result.now ≡ slice_index_or problem.now.clauses number [] }
{
    &problem.clauses.as_slice()[number as usize]
}

/// The literals of the clause with a number.
pub fn lits_of(problem: &Problem, number: u32) -> &[Lit]
    requires { number < length problem.now.clauses }
    ensures lits { result.now ≡ slice_index_or problem.now.clauses number [] }
    ensures set { distinct result.now ≡ true }
{
    let clause = clause_at(problem, number);
    clause.law_distinct();
    clause.lits()
}

/// How many clauses there are.
pub fn clause_count(problem: &Problem) -> u32
    requires { length problem.now.clauses < 2 ^ 32 }
    ensures { result ≡ length problem.now.clauses }
{
    problem.clauses.len() as u32
}

/// How many integer names there are.
pub fn int_count(problem: &Problem) -> u32
    ensures { result ≡ problem.now.ints }
{
    problem.ints
}

/// How many atoms there are.
pub fn atom_count(problem: &Problem) -> u32
    requires { length problem.now.atoms < 2 ^ 32 }
    ensures { result ≡ length problem.now.atoms }
{
    problem.atoms.len() as u32
}

// The truth of an atom's row where all numbers are 0; a plain atom counts as true.
fn is_true_at_zero(atom: &AtomKind) -> bool
    ensures { result ≡ is_true_at_zero atom.now }
{
    match atom {
        AtomKind::Plain => true,
        AtomKind::Row(row) => !is_negative(&row.bound()),
    }
}

/// The sign with which an atom is decided.
pub fn sign_of(problem: &Problem, atom: u32) -> bool
    requires { atom < length problem.now.atoms }
    ensures { result ≡ is_true_at_zero (slice_index_or problem.now.atoms atom Plain) }
{
    is_true_at_zero(&problem.atoms.as_slice()[atom as usize])
}

/// Adds a clause, and answers its number. With 2^32 - 1 clauses a further one is answered as want of memory.
pub fn add_clause(problem: &mut Problem, clause: Clause) -> Result<u32, AllocError>
    requires { atoms_below (length problem.old.atoms) clause ≡ true }
    ensures { IfOk result (λ n. (n ≡ length problem.old.clauses)
        × (problem.new ≡ with_clause problem.old clause) × (length problem.new.clauses < 2 ^ 32)) }
{
    let number = problem.clauses.len();
    if number >= u32::MAX as usize {
        return Err(AllocError);
    }
    problem.clauses.push(clause)?;
    Ok(number as u32)
}

/// Adds an atom for a row. With 2^32 - 1 atoms a further one is answered as want of memory.
pub fn add_row(problem: &mut Problem, row: Row) -> Result<(), AllocError>
    requires { places_below problem.old.ints row ≡ true }
    ensures { OnOk result ((problem.new ≡ with_row problem.old row)
        × (length problem.new.atoms < 2 ^ 32)) }
{
    if problem.atoms.len() >= u32::MAX as usize {
        return Err(AllocError);
    }
    problem.atoms.push(AtomKind::Row(row))?;
    Ok(())
}
