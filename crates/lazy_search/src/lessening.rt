// An interpretation of a part in which fewer atoms are true.
//
// A search takes an atom to be true that may as well be false: constants seem equal that needn't be, and readings are true of which
// the clauses that weren't searched say that they aren't. So for each clause one true atom stays that makes it true, unless a false
// one does, and all others become false, as those are that the part doesn't name. Rows stay as they are, and so do the numbers. Nothing
// else is promised: what is made of the interpretation is tested.
ghost use Rattle.std.specs.Prelude.{◌≡◌, IfOk};

use crate::parts::Part;
use ground_atoms::Atom;
use items::{Items, or_drop};
use lazy_ground::LazyGround;
use proof_lines::{AtomKind, Interpretation, Lit};
use std::alloc::{AllocError, Global};

fn is_marked(marks: &[bool], atom: u32) -> bool {
    match marks.get(atom as usize) {
        Some(mark) => *mark,
        None => false,
    }
}

// A part, and the truth values that its atoms have.
#[derive(Clone, Copy)]
struct Valued<'a> {
    ground: &'a LazyGround,
    part: &'a Part,
    truths: &'a [bool],
}

impl Valued<'_> {
    // Whether an atom of the part says that two constants are equal.
    fn is_equality(&self, atom: u32) -> bool {
        match self.part.atoms.get(atom as usize) {
            Some(number) => matches!(self.ground.atoms.atom(*number), Some(Atom::Same(_, _))),
            None => false,
        }
    }

    // Whether a literal is true and stays so.
    fn holds(&self, staying: &[bool], lit: Lit) -> bool {
        if lit.positive {
            is_marked(staying, lit.atom)
        } else {
            !is_marked(self.truths, lit.atom)
        }
    }

    // The true atom of a clause that is to stay, and how many it has: one that says that two constants are equal is the last choice.
    fn choice(&self, lits: &[Lit]) -> (Option<u32>, u32) {
        let mut choice = None;
        let mut many: u32 = 0;
        for lit in lits {
            if !lit.positive || !is_marked(self.truths, lit.atom) {
                continue;
            }
            many = many.saturating_add(1);
            if choice.is_none() || !self.is_equality(lit.atom) {
                choice = Some(lit.atom);
            }
        }
        (choice, many)
    }

    // Lets an atom of a clause stay where no literal of it does yet, and it has at most so many.
    fn keep(&self, staying: &mut [bool], lits: &[Lit], most: u32) {
        if lits.iter().any(|lit| self.holds(staying, *lit)) {
            return;
        }
        let (choice, many) = self.choice(lits);
        if many > most {
            return;
        }
        if let Some(atom) = choice {
            if let Some(mark) = staying.get_mut(atom as usize) {
                *mark = true;
            }
        }
    }

    // Lets atoms of all clauses stay that have at most so many true ones.
    fn keep_all(&self, staying: &mut [bool], most: u32) {
        let part = self.part;
        for clause in part.problem.clauses.iter() {
            self.keep(staying, clause.lits(), most);
        }
    }

    // Adds of each atom whether it is a true row.
    fn add_rows(&self, rows: &mut Vec<bool>) -> Result<(), AllocError> {
        let part = self.part;
        for (kind, truth) in part.problem.atoms.iter().zip(self.truths.iter()) {
            rows.push(*truth && matches!(kind, AtomKind::Row(_)))?;
        }
        Ok(())
    }

    // Which rows are true.
    fn rows(&self, alloc: Global) -> Result<Vec<bool>, AllocError> {
        let mut rows = Vec::with_capacity(alloc, self.truths.len())?;
        or_drop!(self.add_rows(&mut rows); rows);
        Ok(rows)
    }

    // Which atoms stay true.
    fn staying(&self, alloc: Global) -> Result<Vec<bool>, AllocError> {
        let mut staying = self.rows(alloc)?;
        self.keep_all(staying.as_mut_slice(), 1);
        self.keep_all(staying.as_mut_slice(), u32::MAX);
        Ok(staying)
    }
}

/// An interpretation of a part, with fewer true atoms.
pub(crate) fn lessened(
    alloc: Global,
    ground: &LazyGround,
    part: &Part,
    found: Interpretation,
) -> Result<Interpretation, AllocError>
    ensures { IfOk result (λ lesser. lesser.ints ≡ found.ints) }
{
    let valued = Valued {
        ground,
        part,
        truths: found.truths.as_slice(),
    };
    let staying = or_drop!(valued.staying(alloc); found);
    let Interpretation { truths, ints } = found;
    drop(truths);
    Ok(Interpretation {
        truths: Items::from_vec(staying),
        ints,
    })
}
