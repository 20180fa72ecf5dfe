// Which clauses of the entry an interpretation of a part makes false, and which become false where a literal of such a one is made true.
//
// The latter are searched together with the former. Else the next interpretation, which makes those true, mostly makes these false.
use crate::agreeing::value_of;
use crate::beside::{lits_at, take};
use crate::parts::Part;
use clausify::KeptClauses;
use needed_clauses::parts::number_of;
use proof_lines::Lit;
use std::alloc::AllocError;

// So many clauses at most are looked at for others that they lead to.
const LEADING: usize = 64;

/// The clauses of the entry, and truth values of a part; atoms of theirs from the first on that names a part have numbers that are
/// higher by so many in the whole problem.
#[derive(Clone, Copy)]
pub(crate) struct Valued<'a> {
    pub kept: &'a KeptClauses,
    pub more: u32,
    pub part: &'a Part,
    pub truths: &'a [bool],
}

impl Valued<'_> {
    // Whether a literal is true.
    fn is_true(&self, lit: Lit) -> bool {
        let atom = if lit.atom < self.kept.first {
            lit.atom
        } else {
            lit.atom.wrapping_add(self.more)
        };
        value_of(self.part, self.truths, atom) == lit.positive
    }

    // Whether a literal is true where this one is made true.
    fn is_true_with(&self, made: Lit, lit: Lit) -> bool {
        if lit.atom == made.atom {
            lit.positive == made.positive
        } else {
            self.is_true(lit)
        }
    }

    /// Takes the clauses that are false, and adds their numbers.
    pub fn take_false(&self, taken: &mut [bool], numbers: &mut Vec<u32>) -> Result<(), AllocError> {
        for (place, clause) in self.kept.clauses.iter().enumerate() {
            if place >= taken.len() || taken[place] {
                continue;
            }
            if !clause.lits().iter().any(|lit| self.is_true(*lit)) {
                taken[place] = true;
                numbers.push(number_of(place))?;
            }
        }
        Ok(())
    }

    // Takes the clauses that are false where this literal is made true, and adds their numbers.
    fn take_false_with(
        &self,
        made: Lit,
        taken: &mut [bool],
        numbers: &mut Vec<u32>,
    ) -> Result<(), AllocError> {
        for place in self.kept.by_atom.naming(made.atom) {
            let is_true = lits_at(self.kept, *place)
                .iter()
                .any(|lit| self.is_true_with(made, *lit));
            if !is_true && take(taken, *place as usize) {
                numbers.push(*place)?;
            }
        }
        Ok(())
    }

    /// Takes those that become false where a literal of one that was added from a place on is made true, those that become false where one of
    /// these is, and so on, and adds their numbers.
    pub fn take_led_to(
        &self,
        from: usize,
        taken: &mut [bool],
        numbers: &mut Vec<u32>,
    ) -> Result<(), AllocError> {
        for at in from..from.saturating_add(LEADING) {
            let Some(place) = numbers.get(at).copied() else {
                break;
            };
            for lit in lits_at(self.kept, place) {
                self.take_false_with(*lit, taken, numbers)?;
            }
        }
        Ok(())
    }
}
