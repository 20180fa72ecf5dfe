// Problems as text.
use crate::solvers::asked::row_with;
use items::{Items, or_drop};
use lin_rows::{Row, RowTerm};
use proof_lines::{AtomKind, Clause, Lit, Problem};
use std::alloc::{AllocError, Global};

fn literal(word: &str) -> Option<Lit> {
    let (positive, number) = match word.split_once('-') {
        Some((_, number)) => (false, number),
        None => (true, word),
    };
    match number.parse::<u32>() {
        Ok(number) => Some(Lit {
            atom: number.saturating_sub(1),
            positive,
        }),
        Err(_) => None,
    }
}

fn clause(alloc: Global, part: &str) -> Result<Clause, AllocError> {
    let mut clause = Clause::empty(alloc);
    for word in part.split(' ') {
        if let Some(lit) = literal(word) {
            or_drop!(clause.insert(lit); clause);
        }
    }
    Ok(clause)
}

fn terms(alloc: Global, words: &str) -> Result<Items<RowTerm>, AllocError> {
    let mut terms = Items::new(alloc);
    let mut place = 0u32;
    for word in words.split(' ') {
        if let Ok(coef) = word.parse::<i128>() {
            or_drop!(terms.push(RowTerm { place, coef }); terms);
            place = place.saturating_add(1);
        }
    }
    Ok(terms)
}

fn row(alloc: Global, words: &str, bound: &str) -> Result<Row, AllocError> {
    let Ok(bound) = bound.parse::<i128>() else {
        return Err(AllocError);
    };
    let terms = terms(alloc, words)?;
    let row = row_with(alloc, terms.as_slice(), bound);
    drop(terms);
    row
}

fn kinds(alloc: Global, atoms: usize, parts: &str) -> Result<Items<AtomKind>, AllocError> {
    let mut kinds = Items::new(alloc);
    for part in parts.split(';') {
        if let Some((words, bound)) = part.split_once("<= ") {
            let row = or_drop!(row(alloc, words, bound); kinds);
            or_drop!(kinds.push(AtomKind::Row(row)); kinds);
        }
    }
    for _ in kinds.len()..atoms {
        or_drop!(kinds.push(AtomKind::Plain); kinds);
    }
    Ok(kinds)
}

fn clauses(alloc: Global, parts: &str) -> Result<Items<Clause>, AllocError> {
    let mut clauses = Items::new(alloc);
    for part in parts.split(';') {
        if part.split_once("<= ").is_none() {
            let clause = or_drop!(clause(alloc, part); clauses);
            or_drop!(clauses.push(clause); clauses);
        }
    }
    Ok(clauses)
}

fn count(word: &str) -> u32 {
    match word.parse::<u32>() {
        Ok(count) => count,
        Err(_) => 0,
    }
}

/// The problem of a text: how many atoms and integers there are, a colon, and parts with semicolons between them. A part with `<=` is
/// the row of the next atom: the coefficients of the first integers, and the bound. Any other part is a clause: numbers of atoms,
/// which begin at 1, with `-` before those that are to be false.
pub fn problem(alloc: Global, text: &str) -> Result<Option<Problem>, AllocError> {
    let Some((counts, parts)) = text.split_once(':') else {
        return Ok(None);
    };
    let Some((atoms, ints)) = counts.split_once(' ') else {
        return Ok(None);
    };
    let kinds = kinds(alloc, count(atoms) as usize, parts)?;
    match clauses(alloc, parts) {
        Ok(clauses) => Ok(Problem::new(kinds, count(ints), clauses)),
        Err(error) => {
            drop(kinds);
            Err(error)
        }
    }
}
