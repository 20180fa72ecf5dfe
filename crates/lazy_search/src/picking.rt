// Which of the chosen clauses are searched.
//
// First those that say something of a later stage, and those of one literal: the conclusion, the definitions and most preconditions. Then
// those of the others that name a reading, a row or a part that one of these names, and those on equality alone. That equality is
// transitive takes three clauses for each three constants of a sort, and few are needed: first those whose equalities are all named. They
// are chosen where they are searched, and so are the clauses of the entry, which are mostly of invariants: these are found by what they
// name (src/beside.rt).
// An interpretation of these may make others false; they are searched too in the next round, and of the entry's those that they lead to
// (src/leading.rt).
use crate::Chosen;
use crate::agreeing::value_of;
use crate::beside::{kept_beside, take};
use crate::leading::Valued;
use crate::parts::{FEW_ATOMS, Part, count_named};
use crate::testing::Picks;
use clausify::KeptClauses;
use ground_atoms::{Atom, Atoms, GroundFormula, IntName};
use items::or_drop;
use needed_clauses::parts::{NOWHERE, mark, no_places, number_of, place_of};
use proof_lines::Lit;
use std::alloc::{AllocError, Global};

/// For each chosen clause, whether it is searched; which atoms the central ones name; for each clause of the entry whether it was chosen,
/// once some are; and the same for each that says that equality is transitive.
#[derive(Drop)]
pub(crate) struct Picked {
    pub marks: Vec<bool>,
    pub named: Vec<u32>,
    pub kept: Vec<bool>,
    pub transitive: Vec<bool>,
}

fn is_later_integer(atoms: &Atoms, number: u32) -> bool {
    match atoms.int(number) {
        Some(IntName::Count { stage, .. }) => *stage != 0,
        _ => false,
    }
}

// Whether an atom is read at a stage after the entry.
fn is_later(atoms: &Atoms, number: u32) -> bool {
    match atoms.atom(number) {
        Some(Atom::Has { stage, .. }) => *stage != 0,
        Some(Atom::Row(row)) => row
            .row()
            .terms()
            .iter()
            .any(|term| is_later_integer(atoms, term.place)),
        _ => false,
    }
}

fn is_equality(atoms: &Atoms, number: u32) -> bool {
    matches!(atoms.atom(number), Some(Atom::Same(_, _)))
}

// Whether a clause has one literal, or says something of a later stage.
fn is_central(atoms: &Atoms, lits: &[Lit]) -> bool {
    lits.len() < 2 || lits.iter().any(|lit| is_later(atoms, lit.atom))
}

// Whether a clause says that equality is transitive, at three constants: two of three equalities imply the third.
fn is_transitivity(atoms: &Atoms, lits: &[Lit]) -> bool {
    lits.len() == 3
        && lits.iter().filter(|lit| lit.positive).count() == 1
        && lits.iter().all(|lit| is_equality(atoms, lit.atom))
}

// Whether a clause names a reading, a row or a part that is marked, or equalities alone. Where it says that equality is transitive, all
// of these have to be marked.
fn is_beside(atoms: &Atoms, places: &[u32], lits: &[Lit]) -> bool {
    if is_transitivity(atoms, lits) {
        return lits.iter().all(|lit| place_of(places, lit.atom) != NOWHERE);
    }
    let mut is_other = false;
    for lit in lits {
        if is_equality(atoms, lit.atom) {
            continue;
        }
        is_other = true;
        if place_of(places, lit.atom) != NOWHERE {
            return true;
        }
    }
    !is_other
}

// Whether a formula says that two atoms imply a third one, and all three are marked.
fn are_marked(places: &[u32], form: &GroundFormula) -> bool {
    let GroundFormula::Implied(first, second, third) = form else {
        return false;
    };
    place_of(places, *first) != NOWHERE
        && place_of(places, *second) != NOWHERE
        && place_of(places, *third) != NOWHERE
}

// Whether a formula says that two atoms imply a third one, and truth values of a part make that false.
fn is_false(part: &Part, truths: &[bool], form: &GroundFormula) -> bool {
    let GroundFormula::Implied(first, second, third) = form else {
        return false;
    };
    value_of(part, truths, *first)
        && value_of(part, truths, *second)
        && !value_of(part, truths, *third)
}

// Takes all that weren't taken, and adds their numbers, of which this is the first.
fn take_others(taken: &mut [bool], first: u32, numbers: &mut Vec<u32>) -> Result<(), AllocError> {
    for place in 0..taken.len() {
        if take(taken, place) {
            numbers.push(first.saturating_add(number_of(place)))?;
        }
    }
    Ok(())
}

// Marks the parts that a clause names: their clauses stand behind it.
fn mark_parts(atoms: &Atoms, places: &mut [u32], lits: &[Lit]) {
    for lit in lits {
        if atoms.atom(lit.atom).is_none() {
            mark(places, &[*lit]);
        }
    }
}

// Marks what a clause names, and lists of it what wasn't marked and is no equality.
fn mark_named(
    atoms: &Atoms,
    places: &mut [u32],
    lits: &[Lit],
    named: &mut Vec<u32>,
) -> Result<(), AllocError> {
    for lit in lits {
        let atom = lit.atom as usize;
        if atom >= places.len() || places[atom] != NOWHERE {
            continue;
        }
        places[atom] = 0;
        if !is_equality(atoms, lit.atom) {
            named.push(lit.atom)?;
        }
    }
    Ok(())
}

impl Picked {
    // Picks the clauses that are central, and marks what they name.
    fn central(
        alloc: Global,
        atoms: &Atoms,
        chosen: &Chosen,
        places: &mut [u32],
    ) -> Result<Picked, AllocError> {
        let mut marks = Vec::with_capacity(alloc, chosen.clauses.len())?;
        let mut named = Vec::with_capacity(alloc, FEW_ATOMS)?;
        for clause in chosen.clauses.iter() {
            let is_picked = is_central(atoms, clause.lits());
            if is_picked {
                mark_named(atoms, places, clause.lits(), &mut named)?;
            }
            marks.push(is_picked)?;
        }
        Ok(Picked {
            marks,
            named,
            kept: Vec::new(alloc),
            transitive: Vec::new(alloc),
        })
    }

    fn pick(&mut self, place: usize) -> bool {
        if place < self.marks.len() && !self.marks[place] {
            self.marks[place] = true;
            return true;
        }
        false
    }

    // Picks those that name something that is marked, or equalities alone. These formulas say that equality is transitive.
    fn pick_beside(
        &mut self,
        atoms: &Atoms,
        chosen: &Chosen,
        places: &mut [u32],
        transitive: &[GroundFormula],
    ) -> Result<(), AllocError> {
        self.transitive.reserve(transitive.len())?;
        for form in transitive {
            self.transitive.push(are_marked(places, form))?;
        }
        for (place, clause) in chosen.clauses.iter().enumerate() {
            if is_beside(atoms, places, clause.lits()) {
                mark_parts(atoms, places, clause.lits());
                self.pick(place);
            }
        }
        Ok(())
    }

    // The clauses that are searched first, where nothing is marked yet.
    fn first_marking(
        alloc: Global,
        atoms: &Atoms,
        chosen: &Chosen,
        places: &mut [u32],
        transitive: &[GroundFormula],
    ) -> Result<Picked, AllocError> {
        let mut picked = Picked::central(alloc, atoms, chosen, places)?;
        or_drop!(picked.pick_beside(atoms, chosen, places, transitive); picked);
        Ok(picked)
    }

    /// The clauses that are searched first. These formulas say that equality is transitive.
    pub fn first(
        alloc: Global,
        atoms: &Atoms,
        chosen: &Chosen,
        transitive: &[GroundFormula],
    ) -> Result<Picked, AllocError> {
        let mut places = no_places(alloc, count_named(chosen))?;
        let picked = Picked::first_marking(alloc, atoms, chosen, places.as_mut_slice(), transitive);
        drop(places);
        picked
    }

    /// The numbers of the clauses that say that equality is transitive and are searched first, where the first of all these has this number.
    pub fn first_transitive(&self, alloc: Global, first: u32) -> Result<Vec<u32>, AllocError> {
        let mut numbers = Vec::new(alloc);
        for (place, is_first) in self.transitive.iter().enumerate() {
            if *is_first {
                numbers.push(first.saturating_add(number_of(place)))?;
            }
        }
        Ok(numbers)
    }

    /// Chooses of the clauses of these formulas, which say that equality is transitive, those that truth values of a part make false. It
    /// adds their numbers, of which this is the first, and says whether there are any.
    pub fn choose_transitive(
        &mut self,
        forms: &[GroundFormula],
        first: u32,
        part: &Part,
        truths: &[bool],
        numbers: &mut Vec<u32>,
    ) -> Result<bool, AllocError> {
        let mut some = false;
        for (place, form) in forms.iter().enumerate() {
            if is_false(part, truths, form) && take(self.transitive.as_mut_slice(), place) {
                numbers.push(first.saturating_add(number_of(place)))?;
                some = true;
            }
        }
        Ok(some)
    }

    /// Chooses of the entry's clauses those that are searched first, and answers their places.
    pub fn choose_kept(
        &mut self,
        alloc: Global,
        atoms: &Atoms,
        kept: &KeptClauses,
    ) -> Result<Vec<u32>, AllocError> {
        self.kept.resize(kept.clauses.len(), false)?;
        let named = self.named.as_slice();
        kept_beside(alloc, atoms, kept, named, self.kept.as_mut_slice())
    }

    /// Chooses of the entry's clauses those that truth values of a part make false and those that these lead to, and adds their numbers.
    /// `name` is the number of the first atom that names a part.
    pub fn choose_false(
        &mut self,
        kept: &KeptClauses,
        name: u32,
        part: &Part,
        truths: &[bool],
        numbers: &mut Vec<u32>,
    ) -> Result<(), AllocError> {
        self.kept.resize(kept.clauses.len(), false)?;
        let valued = Valued {
            kept,
            more: name.wrapping_sub(kept.first),
            part,
            truths,
        };
        let from = numbers.len();
        valued.take_false(self.kept.as_mut_slice(), numbers)?;
        valued.take_led_to(from, self.kept.as_mut_slice(), numbers)
    }

    /// Chooses all clauses of the entry, where some were chosen, and all that say that equality is transitive, of which this is the first
    /// number. It answers the numbers of those that weren't chosen.
    pub fn choose_others(&mut self, alloc: Global, first: u32) -> Result<Vec<u32>, AllocError> {
        let mut numbers = Vec::new(alloc);
        take_others(self.transitive.as_mut_slice(), first, &mut numbers)?;
        take_others(self.kept.as_mut_slice(), 0, &mut numbers)?;
        Ok(numbers)
    }

    /// Picks the clauses that truth values of a part make false. It says whether there are any.
    pub fn pick_false(&mut self, chosen: &Chosen, part: &Part, truths: &[bool]) -> bool {
        let mut some = false;
        for (place, clause) in chosen.clauses.iter().enumerate() {
            let is_true = clause
                .lits()
                .iter()
                .any(|lit| value_of(part, truths, lit.atom) == lit.positive);
            if !is_true && self.pick(place) {
                some = true;
            }
        }
        some
    }

    /// Picks all clauses up to a place, and those that aren't known yet.
    pub fn pick_all(&mut self, many: usize) -> Result<(), AllocError> {
        for place in 0..self.marks.len() {
            self.pick(place);
        }
        self.pick_new(many)
    }

    /// Picks the clauses that aren't known yet, up to a place.
    pub fn pick_new(&mut self, many: usize) -> Result<(), AllocError> {
        for _ in self.marks.len()..many {
            self.marks.push(true)?;
        }
        Ok(())
    }

    // Whether a chosen clause is picked, and is one of the entry or not.
    fn is_picked(&self, place: usize, number: u32, of_entry: bool) -> bool {
        place < self.marks.len()
            && self.marks[place]
            && ((number as usize) < self.kept.len()) == of_entry
    }

    // Adds the clauses that are picked, of those of the entry or of the others.
    fn add_picks(
        &self,
        numbers: &[u32],
        of_entry: bool,
        picks: &mut Picks,
    ) -> Result<(), AllocError> {
        for (place, number) in numbers.iter().enumerate() {
            if self.is_picked(place, *number, of_entry) {
                picks.places.push(number_of(place))?;
                picks.numbers.push(*number)?;
            }
        }
        Ok(())
    }

    /// The clauses that are picked, those of the entry first.
    pub fn picks(&self, alloc: Global, numbers: &[u32]) -> Result<Picks, AllocError> {
        let mut picks = Picks {
            places: Vec::with_capacity(alloc, numbers.len())?,
            numbers: Vec::new(alloc),
        };
        picks.numbers.reserve(numbers.len())?;
        self.add_picks(numbers, true, &mut picks)?;
        self.add_picks(numbers, false, &mut picks)?;
        Ok(picks)
    }
}
