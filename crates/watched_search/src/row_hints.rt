// The rows of a trail, and the numbers that the solver found last for some of them. Nothing is promised of either: they say when
// the solver is worth asking, and how a row is decided.
use crate::evaluating::known_truth;
use items::Items;
use lin_rows::Row;
use line_rows::splitting::is_negative;
use proof_lines::{AtomKind, Lit, Problem};
use sat_core::Trail;
use std::alloc::{AllocError, Global};
use std::cmp::{max, min};

// The solver is asked where more than one in so many of the rows are new to it, and not satisfied by its last numbers.
const SHARE: usize = 4;

/// The literals of a trail whose atoms stand for rows, in the trail's order. The numbers, one for each integer name, satisfy so many
/// of the first of these rows; before the solver found any, all numbers are 0. The solver was asked about so many of the first.
#[derive(Drop)]
pub struct RowHints {
    pub lits: Vec<Lit>,
    pub numbers: Items<i128>,
    pub satisfied: usize,
    pub asked: usize,
}

impl RowHints {
    pub(crate) fn new(alloc: Global) -> RowHints {
        RowHints {
            lits: Vec::new(alloc),
            numbers: Items::new(alloc),
            satisfied: 0,
            asked: 0,
        }
    }

    /// The truth of a row by the numbers.
    pub(crate) fn truth(&self, row: &Row) -> bool {
        match known_truth(self.numbers.as_slice(), row) {
            Some(truth) => truth,
            None => !is_negative(&row.bound()),
        }
    }

    /// Notes a literal that was taken to be true.
    pub(crate) fn note(&mut self, problem: &Problem, lit: Lit) -> Result<(), AllocError> {
        if let Some(AtomKind::Row(row)) = problem.atoms.get(lit.atom as usize) {
            if self.satisfied == self.lits.len() && self.truth(row) == lit.positive {
                self.satisfied += 1;
            }
            self.lits.push(lit)?;
        }
        Ok(())
    }

    /// Whether the solver is worth asking.
    pub(crate) fn is_due(&self) -> bool {
        let rows = self.lits.len();
        let open = rows.saturating_sub(max(self.satisfied, self.asked));
        open > rows / SHARE
    }

    /// Lets the literals go that the trail has no more.
    pub(crate) fn cut(&mut self, trail: &Trail) {
        let kept = self
            .lits
            .iter()
            .take_while(|lit| trail.holds(**lit))
            .count();
        self.lits.truncate(kept);
        self.satisfied = min(self.satisfied, kept);
        self.asked = 0;
    }

    /// Keeps numbers that satisfy all rows.
    pub(crate) fn keep(&mut self, numbers: Items<i128>) {
        self.numbers = numbers;
        self.satisfied = self.lits.len();
    }
}
