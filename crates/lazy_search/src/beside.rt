// Which clauses of the entry are searched first, found by what they name.
//
// Those whose readings and rows are all among some atoms, those that name a part that one of these names, and those of one literal on what
// these name. So the clauses of invariants that say nothing of these atoms aren't looked at, and those that lead from them to other readings
// come later, where an interpretation makes them false.
use crate::parts::FEW_ATOMS;
use clausify::KeptClauses;
use ground_atoms::{Atom, Atoms};
use items::or_drop;
use needed_clauses::parts::{NOWHERE, no_places, place_of};
use proof_lines::Lit;
use std::alloc::{AllocError, Global};

/// Takes what is at a place. It says whether it was there, and not taken yet.
pub(crate) fn take(taken: &mut [bool], place: usize) -> bool {
    if place < taken.len() && !taken[place] {
        taken[place] = true;
        return true;
    }
    false
}

/// The literals of the clause at a place.
pub(crate) fn lits_at(kept: &KeptClauses, place: u32) -> &[Lit] {
    match kept.clauses.get(place as usize) {
        Some(clause) => clause.lits(),
        None => &[],
    }
}

// Which of the first so many atoms are among these.
fn allowed(alloc: Global, many: u32, named: &[u32]) -> Result<Vec<bool>, AllocError> {
    let mut marks = vec![in alloc; false; many as usize]?;
    for number in named {
        if let Some(mark) = marks.as_mut_slice().get_mut(*number as usize) {
            *mark = true;
        }
    }
    Ok(marks)
}

// Whether the atoms that a clause names are allowed, say that two constants are equal, or name parts.
fn are_allowed(atoms: &Atoms, marks: &[bool], lits: &[Lit]) -> bool {
    lits.iter().all(|lit| marks.get(lit.atom as usize).copied().unwrap_or(true)
        || matches!(atoms.atom(lit.atom), Some(Atom::Same(_, _))))
}

// The places of the clauses that were found; for each part the first of them that names it; and the parts that are named, and whose clauses
// weren't looked for yet.
#[derive(Drop)]
struct Found {
    places: Vec<u32>,
    firsts: Vec<u32>,
    parts: Vec<u32>,
}

impl Found {
    fn new(alloc: Global, parts: usize) -> Result<Found, AllocError> {
        let firsts = no_places(alloc, parts)?;
        let places = or_drop!(Vec::with_capacity(alloc, FEW_ATOMS); firsts);
        Ok(Found {
            places,
            firsts,
            parts: Vec::new(alloc),
        })
    }

    // Notes the parts that a clause names.
    fn note_parts(&mut self, first: u32, place: u32, lits: &[Lit]) -> Result<(), AllocError> {
        for lit in lits {
            let Some(name) = lit.atom.checked_sub(first) else {
                continue;
            };
            let part = name as usize;
            if part >= self.firsts.len() {
                continue;
            }
            if self.firsts[part] == NOWHERE {
                self.parts.push(name)?;
            }
            if place < self.firsts[part] {
                self.firsts[part] = place;
            }
        }
        Ok(())
    }

    // Adds the clause at a place, unless it was taken.
    fn add(
        &mut self,
        kept: &KeptClauses,
        place: u32,
        taken: &mut [bool],
    ) -> Result<(), AllocError> {
        if take(taken, place as usize) {
            self.places.push(place)?;
            self.note_parts(kept.first, place, lits_at(kept, place))?;
        }
        Ok(())
    }

    // Adds the clauses that name an atom, and of others such as are allowed.
    fn add_allowed(
        &mut self,
        kept: &KeptClauses,
        atoms: &Atoms,
        atom: u32,
        marks: &[bool],
        taken: &mut [bool],
    ) -> Result<(), AllocError> {
        for place in kept.by_atom.naming(atom) {
            if are_allowed(atoms, marks, lits_at(kept, *place)) {
                self.add(kept, *place, taken)?;
            }
        }
        Ok(())
    }

    // Adds the clauses from a place on that name an atom.
    fn add_naming(
        &mut self,
        kept: &KeptClauses,
        atom: u32,
        from: u32,
        taken: &mut [bool],
    ) -> Result<(), AllocError> {
        for place in kept.by_atom.naming(atom) {
            if *place >= from {
                self.add(kept, *place, taken)?;
            }
        }
        Ok(())
    }

    // Adds the clauses that name a part behind the first that was found to name it: a part is named before what it is made of.
    fn add_of_parts(&mut self, kept: &KeptClauses, taken: &mut [bool]) -> Result<(), AllocError> {
        for _ in 0..kept.names {
            let Some(part) = self.parts.pop() else {
                break;
            };
            let from = place_of(self.firsts.as_slice(), part);
            self.add_naming(kept, kept.first.wrapping_add(part), from, taken)?;
        }
        Ok(())
    }

    // Takes the clauses of one literal on an atom, which come first of those that name it.
    fn take_single(
        &mut self,
        kept: &KeptClauses,
        atom: u32,
        taken: &mut [bool],
    ) -> Result<(), AllocError> {
        for place in kept.by_atom.naming(atom) {
            if lits_at(kept, *place).len() > 1 {
                break;
            }
            if take(taken, *place as usize) {
                self.places.push(*place)?;
            }
        }
        Ok(())
    }

    // Takes those on what the clauses name that were found.
    fn take_all_single(
        &mut self,
        kept: &KeptClauses,
        taken: &mut [bool],
    ) -> Result<(), AllocError> {
        for found in 0..self.places.len() {
            let Some(place) = self.places.get(found).copied() else {
                break;
            };
            for lit in lits_at(kept, place) {
                self.take_single(kept, lit.atom, taken)?;
            }
        }
        Ok(())
    }

    // Adds all these clauses, where the atoms that are among these are marked.
    fn add_beside(
        &mut self,
        atoms: &Atoms,
        kept: &KeptClauses,
        named: &[u32],
        marks: &[bool],
        taken: &mut [bool],
    ) -> Result<(), AllocError> {
        for atom in named {
            if *atom < kept.first {
                self.add_allowed(kept, atoms, *atom, marks, taken)?;
            }
        }
        self.add_of_parts(kept, taken)?;
        self.take_all_single(kept, taken)
    }

    // The places, in rising order.
    fn into_places(self) -> Vec<u32> {
        let Found {
            mut places,
            firsts,
            parts,
        } = self;
        drop(firsts);
        drop(parts);
        places.sort_unstable();
        places
    }
}

/// The places of these clauses, where the atoms are these, in rising order. They are taken; none was before.
pub(crate) fn kept_beside(
    alloc: Global,
    atoms: &Atoms,
    kept: &KeptClauses,
    named: &[u32],
    taken: &mut [bool],
) -> Result<Vec<u32>, AllocError> {
    let marks = allowed(alloc, kept.first, named)?;
    let mut found = or_drop!(Found::new(alloc, kept.names as usize); marks);
    let added = found.add_beside(atoms, kept, named, marks.as_slice(), taken);
    drop(marks);
    or_drop!(added; found);
    Ok(found.into_places())
}
