// Problems: clauses over plain atoms and over atoms that stand for rows.
ghost use Rattle.std.specs.{Prelude.{◌≡◌, ◌↔◌, true, IfOk, IfSome, IsSome, List}, List.{list_all}};
ghost use Rattle.proof_lines.specs.Problems.{fits, has_good_row, names_below, atoms_below};

use crate::clause::{Clause, Lit};
use items::Items;
use lin_rows::row::Row;
use std::alloc::{AllocError, Global};
use std::marker::Model;

/// What an atom stands for: nothing but itself, or a row over the integer names.
#[derive(Drop)]
pub enum AtomKind {
    Plain,
    Row(Row),
}

impl AtomKind {
    fn copy(&self, alloc: Global) -> Result<AtomKind, AllocError>
        ensures { IfOk result (λ atom. atom ≡ self.now) }
    {
        match self {
            AtomKind::Plain => Ok(AtomKind::Plain),
            AtomKind::Row(row) => Ok(AtomKind::Row(row.copy(alloc)?)),
        }
    }

    fn is_placed(&self, ints: u32) -> bool
        ensures { result ≡ names_below ints self.now }
    {
        match self {
            AtomKind::Plain => true,
            AtomKind::Row(row) => row.is_within(ints),
        }
    }

    // The fact that the row of an atom keeps what the type of rows keeps.
    fn law_row(&self)
        ensures { has_good_row self.now ≡ true }
    {
        match self {
            AtomKind::Plain => {}
            AtomKind::Row(row) => {
                let _ = row.bound();
            }
        }
    }
}

/// Clauses, all of which are to be true. Their literals name its atoms, and the places of its rows are numbers of integer
/// names, below `ints`.
#[derive(Drop)]
pub struct Problem {
    pub atoms: Items<AtomKind>,
    pub ints: u32,
    pub clauses: Items<Clause>,
}

impl Model for Problem {
    ghost use Rattle.std.specs.Prelude.{◌≡◌, true};
    ghost use Rattle.proof_lines.specs.Problems.{PlainProblem, fits};

    ghost Value = { PlainProblem };

    ghost view = { λ a. record { atoms = a.atoms; ints = a.ints; clauses = a.clauses } };

    ghost invariant = { λ a. fits (record { atoms = a.atoms; ints = a.ints; clauses = a.clauses }) ≡ true };
}

/// The fact that the rows of atoms keep what the type of rows keeps. It looks at each atom once.
pub fn law_rows(atoms: &[AtomKind])
    ensures { list_all has_good_row atoms.now ≡ true }
{
    for atom in atoms {
        atom.law_row();
    }
}

impl Problem {
    /// The problem of these parts; nothing where a literal names no atom or a place of a row isn't below `ints`.
    pub fn new(atoms: Items<AtomKind>, ints: u32, clauses: Items<Clause>) -> Option<Problem>
        ensures made { IfSome result (λ p. p ≡ record {
          atoms = atoms;
          ints = ints;
          clauses = clauses;
        }) }
        ensures fits { IsSome result ↔ (fits (record {
          atoms = atoms;
          ints = ints;
          clauses = clauses;
        }) ≡ true) }
    {
        if all_placed(atoms.as_slice(), ints) && all_named(clauses.as_slice(), atoms.len()) {
            Some(Problem {
                atoms,
                ints,
                clauses,
            })
        } else {
            None
        }
    }

    /// What the type keeps: literals name atoms of the problem, and the places of rows are below `ints`.
    pub fn law_fits(&self)
        ensures { fits self.now ≡ true }
    {
        let _ = &self.ints;
    }

    /// A copy of this problem.
    pub fn copy(&self, alloc: Global) -> Result<Problem, AllocError>
        ensures { IfOk result (λ problem. problem ≡ self.now) }
    {
        let atoms = copy_atoms(alloc, self.atoms.as_slice())?;
        let clauses = copy_clauses(alloc, self.clauses.as_slice())?;
        Ok(Problem {
            atoms: Items::from_vec(atoms),
            ints: self.ints,
            clauses: Items::from_vec(clauses),
        })
    }
}

fn all_placed(atoms: &[AtomKind], ints: u32) -> bool
    ensures { result ≡ list_all (names_below ints) atoms.now }
{
    atoms.iter().all(|atom| atom.is_placed(ints))
}

fn all_named(clauses: &[Clause], atoms: usize) -> bool
    ensures { result ≡ list_all (atoms_below atoms) clauses.now }
{
    clauses.iter().all(|clause| are_named(clause.lits(), atoms))
}

fn are_named(lits: &[Lit], atoms: usize) -> bool
    ensures { result ≡ atoms_below atoms lits.now }
{
    lits.iter().all(|lit| (lit.atom as usize) < atoms)
}

fn copy_atoms(alloc: Global, atoms: &[AtomKind]) -> Result<Vec<AtomKind>, AllocError>
    ensures { IfOk result (λ out. out.items ≡ atoms.now) }
{
    let mut out = Vec::with_capacity(alloc, atoms.len())?;
    for atom in atoms {
        out.push(atom.copy(alloc)?)?;
    }
    Ok(out)
}

fn copy_clauses(alloc: Global, clauses: &[Clause]) -> Result<Vec<Clause>, AllocError>
    ensures { IfOk result (λ out. out.items ≡ clauses.now) }
{
    let mut out = Vec::with_capacity(alloc, clauses.len())?;
    for clause in clauses {
        out.push(clause.copy(alloc)?)?;
    }
    Ok(out)
}

/// A truth value for each atom, of which those of plain atoms count, and a whole number for each integer name.
#[derive(Drop)]
pub struct Interpretation {
    pub truths: Items<bool>,
    pub ints: Items<i128>,
}
