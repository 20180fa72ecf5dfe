// The lines of a log that drop no clause, with the numbers that its clauses and atoms have in a part.
//
// Nothing is promised of them: with the numbers of the whole, they are compared with the log.
use items::{Items, or_drop};
use lazy_search::parts::Part;
use needed_clauses::parts::{NOWHERE, number_of, place_of};
use proof_lines::{Line, Lit};
use std::alloc::{AllocError, Global};

// The number in a part of a clause, where the whole has so many: those behind them come behind the part's.
fn clause_in(numbers: &[u32], many: usize, clause: u32) -> Option<u32> {
    let place = clause as usize;
    if place >= many {
        return u32::try_from((place - many).checked_add(numbers.len())?).ok();
    }
    match numbers.binary_search(&clause) {
        Ok(at) => Some(number_of(at)),
        Err(_) => None,
    }
}

// The number of an atom in a part.
fn atom_in(places: &[u32], atom: u32) -> Option<u32> {
    match place_of(places, atom) {
        NOWHERE => None,
        place => Some(place),
    }
}

fn lits_in(alloc: Global, places: &[u32], lits: &[Lit]) -> Result<Option<Items<Lit>>, AllocError> {
    let mut renamed = Items::new(alloc);
    for lit in lits {
        let Some(atom) = atom_in(places, lit.atom) else {
            drop(renamed);
            return Ok(None);
        };
        renamed.push(Lit {
            atom,
            positive: lit.positive,
        })?;
    }
    Ok(Some(renamed))
}

// A resolving line over the numbers of a part.
fn resolve_in(part: &Part, many: usize, left: u32, right: u32, pivot: u32) -> Option<Line> {
    let numbers = part.picks.numbers.as_slice();
    Some(Line::Resolve {
        left: clause_in(numbers, many, left)?,
        right: clause_in(numbers, many, right)?,
        pivot: atom_in(part.places.as_slice(), pivot)?,
    })
}

fn line_in(
    alloc: Global,
    part: &Part,
    many: usize,
    line: &Line,
) -> Result<Option<Line>, AllocError> {
    match line {
        Line::Resolve { left, right, pivot } => Ok(resolve_in(part, many, *left, *right, *pivot)),
        Line::Farkas { used, steps } => {
            let Some(used) = lits_in(alloc, part.places.as_slice(), used.as_slice())? else {
                return Ok(None);
            };
            let steps = or_drop!(Items::from_slice(alloc, steps.as_slice()); used);
            Ok(Some(Line::Farkas { used, steps }))
        }
        _ => Ok(None),
    }
}

/// The lines that drop no clause, over the numbers of a part, where the whole has so many clauses; nothing where one names what isn't
/// in the part.
pub fn lines_in(
    alloc: Global,
    part: &Part,
    many: usize,
    lines: &[Line],
) -> Result<Option<Items<Line>>, AllocError> {
    let mut renamed = Items::from_vec(Vec::with_capacity(alloc, lines.len())?);
    for line in lines {
        if let Line::Drop { .. } = line {
            continue;
        }
        match line_in(alloc, part, many, line) {
            Ok(Some(line)) => renamed.push(line)?,
            Ok(None) => {
                drop(renamed);
                return Ok(None);
            }
            Err(error) => {
                drop(renamed);
                return Err(error);
            }
        }
    }
    Ok(Some(renamed))
}
