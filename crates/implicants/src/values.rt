// Values of the plain atoms by which many clauses are true without rows. Nothing is promised of them.
use crate::choosing::{has_row, plain_value};
use items::Items;
use proof_lines::{AtomKind, Lit, Problem};
use sat_core::Trail;
use std::alloc::{AllocError, Global};

// How often all clauses are gone through at most, to find atoms that may change their values, and again to keep those that may not.
const ROUNDS: usize = 8;

// What the plain literals of a clause say of it, where some atoms may change their values.
#[derive(Clone, Copy)]
struct Support {
    // Whether one is true that keeps its value, or will be true.
    safe: bool,
    // The atom of the first that is true, if there is one.
    first: Option<u32>,
}

// The values that atoms have on a trail; one without a value is false.
fn values_on(alloc: Global, trail: &Trail, atoms: usize) -> Result<Vec<bool>, AllocError> {
    let Ok(many) = u32::try_from(atoms) else {
        return Err(AllocError);
    };
    let mut values = Vec::with_capacity(alloc, atoms)?;
    for atom in 0..many {
        values.push(trail.holds(Lit {
            atom,
            positive: true,
        }))?;
    }
    Ok(values)
}

fn none_free(alloc: Global, atoms: usize) -> Result<Vec<bool>, AllocError> {
    vec![in alloc; false; atoms]
}

fn put(free: &mut Vec<bool>, atom: u32, value: bool) {
    if (atom as usize) < free.len() {
        free[atom as usize] = value;
    }
}

// A literal over a plain atom is safe where it is true and keeps its value, or is false and changes it.
fn support_of(atoms: &[AtomKind], values: &[bool], free: &[bool], lits: &[Lit]) -> Support {
    let mut first = None;
    for lit in lits {
        if has_row(atoms, *lit) {
            continue;
        }
        let is_true = plain_value(values, lit.atom) == lit.positive;
        if is_true != plain_value(free, lit.atom) {
            return Support { safe: true, first };
        }
        if is_true && first.is_none() {
            first = Some(lit.atom);
        }
    }
    Support { safe: false, first }
}

// Lets the plain atoms of a clause change their values that it would be true by. Answers whether there are any.
fn free_those(atoms: &[AtomKind], values: &[bool], free: &mut Vec<bool>, lits: &[Lit]) -> bool {
    let mut any = false;
    for lit in lits {
        if !has_row(atoms, *lit) && plain_value(values, lit.atom) != lit.positive {
            put(free, lit.atom, true);
            any = true;
        }
    }
    any
}

// Goes through the clauses that aren't safe, and frees atoms for them. Answers whether there were any.
fn free_more(problem: &Problem, values: &[bool], free: &mut Vec<bool>) -> bool {
    let atoms = problem.atoms.as_slice();
    let mut any = false;
    for clause in problem.clauses.as_slice() {
        let lits = clause.lits();
        if !support_of(atoms, values, free.as_slice(), lits).safe
            && free_those(atoms, values, free, lits)
        {
            any = true;
        }
    }
    any
}

// Goes through the clauses that are true but not safe, and keeps one atom's value for each. Answers whether there were any.
fn keep_more(problem: &Problem, values: &[bool], free: &mut Vec<bool>) -> bool {
    let atoms = problem.atoms.as_slice();
    let mut any = false;
    for clause in problem.clauses.as_slice() {
        let support = support_of(atoms, values, free.as_slice(), clause.lits());
        if support.safe {
            continue;
        }
        if let Some(atom) = support.first {
            put(free, atom, false);
            any = true;
        }
    }
    any
}

// Whether no clause that is true is left without a safe literal.
fn is_kept(problem: &Problem, values: &[bool], free: &mut Vec<bool>) -> bool {
    for _ in 0..ROUNDS {
        if !keep_more(problem, values, free) {
            return true;
        }
    }
    false
}

// Gives the free atoms their other values.
fn change(values: &mut Vec<bool>, free: &[bool]) {
    for (atom, is_free) in free.iter().enumerate() {
        if *is_free && atom < values.len() {
            values[atom] = !values[atom];
        }
    }
}

/// Values for the plain atoms, by which more clauses are true than by those of a trail: a clause that a plain literal of the trail makes
/// true is true by one of these, too. Values for other atoms mean nothing.
pub fn relaxed(alloc: Global, problem: &Problem, trail: &Trail) -> Result<Items<bool>, AllocError> {
    let mut values = values_on(alloc, trail, problem.atoms.len())?;
    let mut free = none_free(alloc, problem.atoms.len())?;
    for _ in 0..ROUNDS {
        if !free_more(problem, values.as_slice(), &mut free) {
            break;
        }
    }
    if is_kept(problem, values.as_slice(), &mut free) {
        change(&mut values, free.as_slice());
    }
    Ok(Items::from_vec(values))
}
