// The values that an interpretation of a part gives to all atoms of a problem, and the clauses that they make false.
//
// Clauses that stand together and whose last atom is the same, one that the part doesn't name, are those of one name: it is true or false
// as they need it, and they are false together only where it would have to be both.
use crate::parts::{NOWHERE, number_of, place_of};
use proof_lines::{AtomKind, Lit, Problem};
use std::alloc::{AllocError, Global};
use watched_search::known_truth;

// The value of an atom that no clause of the part names.
fn value_beside(atom: &AtomKind, numbers: &[i128]) -> bool {
    match atom {
        AtomKind::Plain => false,
        AtomKind::Row(row) => match known_truth(numbers, row) {
            Some(truth) => truth,
            None => false,
        },
    }
}

fn value_at(values: &[bool], place: usize) -> bool {
    match values.get(place) {
        Some(value) => *value,
        None => false,
    }
}

/// The values of all atoms of a problem: those of an interpretation of a part, the truth of other rows, and else false.
pub(crate) fn values_by(
    alloc: Global,
    problem: &Problem,
    places: &[u32],
    truths: &[bool],
    numbers: &[i128],
) -> Result<Vec<bool>, AllocError> {
    let mut values = Vec::with_capacity(alloc, problem.atoms.len())?;
    for (atom, kind) in problem.atoms.iter().enumerate() {
        let place = place_of(places, number_of(atom));
        if place == NOWHERE {
            values.push(value_beside(kind, numbers))?;
        } else {
            values.push(value_at(truths, place as usize))?;
        }
    }
    Ok(values)
}

// Whether some literal is true.
fn is_true(values: &[bool], lits: &[Lit]) -> bool {
    lits.iter()
        .any(|lit| value_at(values, lit.atom as usize) == lit.positive)
}

// Whether some literal over another atom than this one is true.
fn is_true_beside(values: &[bool], lits: &[Lit], atom: u32) -> bool {
    lits.iter().any(|lit| lit.atom != atom && value_at(values, lit.atom as usize) == lit.positive)
}

fn last_atom(lits: &[Lit]) -> u32 {
    let mut last = 0;
    for lit in lits {
        if lit.atom > last {
            last = lit.atom;
        }
    }
    last
}

fn holds(lits: &[Lit], atom: u32, positive: bool) -> bool {
    lits.iter()
        .any(|lit| lit.atom == atom && lit.positive == positive)
}

fn lits_at(problem: &Problem, clause: usize) -> &[Lit] {
    match problem.clauses.get(clause) {
        Some(clause) => clause.lits(),
        None => &[],
    }
}

/// Clauses that join a part: which are in it, and how many have joined.
#[derive(Drop)]
pub(crate) struct Taken {
    pub marks: Vec<bool>,
    pub many: usize,
}

impl Taken {
    fn has(&self, clause: usize) -> bool {
        clause < self.marks.len() && self.marks[clause]
    }

    fn take(&mut self, clause: usize) {
        if clause < self.marks.len() && !self.marks[clause] {
            self.marks[clause] = true;
            self.many = self.many.wrapping_add(1);
        }
    }
}

// Whether the last atom of a clause is this one.
fn is_of(problem: &Problem, clause: usize, name: u32) -> bool {
    let lits = lits_at(problem, clause);
    !lits.is_empty() && last_atom(lits) == name
}

// The first of the clauses of a name that stand together, from one of them back.
fn start_of(problem: &Problem, clause: usize, name: u32) -> usize {
    for back in 0..clause {
        let before = clause - 1 - back;
        if !is_of(problem, before, name) {
            return before + 1;
        }
    }
    0
}

// The place behind them.
fn end_of(problem: &Problem, clause: usize, name: u32) -> usize {
    for end in clause..problem.clauses.len() {
        if !is_of(problem, end, name) {
            return end;
        }
    }
    problem.clauses.len()
}

// Whether one of these clauses is true only where its last atom has a value.
fn wants(
    problem: &Problem,
    values: &[bool],
    start: usize,
    end: usize,
    name: u32,
    value: bool,
) -> bool {
    for clause in start..end {
        let lits = lits_at(problem, clause);
        if holds(lits, name, value) && !is_true_beside(values, lits, name) {
            return true;
        }
    }
    false
}

// Judges the clauses of a name that the part doesn't name, one of which is false: gives the name the value that they need, or takes them.
fn judge_name(problem: &Problem, values: &mut [bool], taken: &mut Taken, clause: usize, name: u32) {
    let start = start_of(problem, clause, name);
    let end = end_of(problem, clause, name);
    let wants_true = wants(problem, values, start, end, name, true);
    if wants_true && wants(problem, values, start, end, name, false) {
        for one in start..end {
            taken.take(one);
        }
        return;
    }
    let place = name as usize;
    if place < values.len() {
        values[place] = wants_true;
    }
}

/// Takes the clauses from one on that values make false, or gives a name that the part doesn't have the value that they need.
pub(crate) fn take_false(
    problem: &Problem,
    places: &[u32],
    values: &mut [bool],
    taken: &mut Taken,
    front: usize,
) {
    for clause in front..problem.clauses.len() {
        let lits = lits_at(problem, clause);
        if taken.has(clause) || is_true(values, lits) {
            continue;
        }
        let name = last_atom(lits);
        if place_of(places, name) == NOWHERE {
            judge_name(problem, values, taken, clause, name);
        } else {
            taken.take(clause);
        }
    }
}

/// Takes the clauses that values make false, each for itself.
pub(crate) fn take_each_false(problem: &Problem, values: &[bool], taken: &mut Taken) {
    for clause in 0..problem.clauses.len() {
        if !is_true(values, lits_at(problem, clause)) {
            taken.take(clause);
        }
    }
}
