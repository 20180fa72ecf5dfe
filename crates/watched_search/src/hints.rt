// What helps a search to decide well. Nothing is promised of it but that what it names has no value.
ghost use Rattle.std.specs.Prelude.{◌≡◌, ◌<◌, ◌^◌, ℕ, true, false, length, MatchOption, IfSome};
ghost use Rattle.sat_core.specs.Trails.{is_assigned};

use crate::row_hints::RowHints;
use decision_queue::{DecisionQueue, Order};
use proof_lines::{AtomKind, Lit, Problem};
use sat_core::Trail;
use sat_core::finding::unassigned;
use std::alloc::{AllocError, Global};
use std::cmp::min;

/// The atoms that may have no value, and whether they go by activity, how many atoms and clauses were looked at, the atoms of the
/// trail in its order, the values that atoms had last, and the rows of the trail.
#[derive(Drop)]
pub struct Hints {
    pub queue: DecisionQueue,
    pub by_activity: bool,
    pub atoms: u32,
    pub clauses: usize,
    pub assigned: Vec<u32>,
    pub values: Vec<Option<bool>>,
    pub rows: RowHints,
}

fn is_plain(problem: &Problem, atom: u32) -> bool {
    match problem.atoms.get(atom as usize) {
        Some(AtomKind::Plain) => true,
        _ => false,
    }
}

// The first atom of a queue that has no value. Those before it are taken out.
fn first_unassigned(queue: &mut DecisionQueue, trail: &Trail, atoms: u32) -> Option<u32>
    ensures { IfSome result (λ a. (a < atoms) × (is_assigned trail.now a ≡ false)) }
{
    for _ in 0..atoms {
        let atom = queue.first()?;
        if atom < atoms && !trail.is_assigned(atom) {
            return Some(atom);
        }
        queue.remove_first();
    }
    None
}

fn is_by_activity(order: Order) -> bool {
    match order {
        Order::Activity => true,
        Order::Number => false,
    }
}

impl Hints {
    pub(crate) fn new(alloc: Global, order: Order) -> Hints {
        Hints {
            queue: DecisionQueue::new(alloc, order),
            by_activity: is_by_activity(order),
            atoms: 0,
            clauses: 0,
            assigned: Vec::new(alloc),
            values: Vec::new(alloc),
            rows: RowHints::new(alloc),
        }
    }

    // Counts how many clauses of a problem name each atom.
    fn count(&mut self, problem: &Problem) -> Result<(), AllocError> {
        for clause in problem.clauses.as_slice() {
            for lit in clause.lits() {
                self.queue.count(lit.atom)?;
            }
        }
        Ok(())
    }

    /// Takes note of a problem, under a trail without literals.
    pub(crate) fn begin(&mut self, problem: &Problem, trail: &Trail) -> Result<(), AllocError> {
        if self.by_activity {
            self.count(problem)?;
        }
        self.clauses = problem.clauses.len();
        self.assigned.reserve(problem.atoms.len())?;
        self.values.resize(problem.atoms.len(), None)?;
        self.cut(problem, trail)
    }

    /// Notes the value that an atom got.
    pub(crate) fn note(&mut self, problem: &Problem, lit: Lit) -> Result<(), AllocError> {
        while self.values.len() <= lit.atom as usize {
            self.values.push(None)?;
        }
        self.values[lit.atom as usize] = Some(lit.positive);
        self.assigned.push(lit.atom)?;
        self.rows.note(problem, lit)
    }

    // Puts the atoms that the trail has no more among those that may have no value.
    fn reopen(&mut self, problem: &Problem, trail: &Trail) -> Result<(), AllocError> {
        while let Some(atom) = self.assigned.pop() {
            if trail.is_assigned(atom) {
                self.assigned.push(atom)?;
                return Ok(());
            }
            self.queue.insert(atom, !is_plain(problem, atom))?;
        }
        Ok(())
    }

    // Raises the activity of the atoms of a clause.
    fn raise(&mut self, lits: &[Lit]) {
        for lit in lits {
            self.queue.raise(lit.atom);
        }
    }

    // Raises the activity of the atoms that further clauses name: those that the last conflict gave.
    fn learn(&mut self, problem: &Problem) {
        if !self.by_activity {
            return;
        }
        if self.clauses < problem.clauses.len() {
            self.queue.fade();
        }
        for number in self.clauses..problem.clauses.len() {
            if let Some(clause) = problem.clauses.get(number) {
                self.raise(clause.lits());
            }
        }
        self.clauses = problem.clauses.len();
    }

    /// Takes note of a trail that was cut, and of a problem that has more atoms or clauses.
    pub(crate) fn cut(&mut self, problem: &Problem, trail: &Trail) -> Result<(), AllocError> {
        self.learn(problem);
        self.reopen(problem, trail)?;
        let atoms = min(problem.atoms.len(), u32::MAX as usize) as u32;
        for atom in self.atoms..atoms {
            self.queue.insert(atom, !is_plain(problem, atom))?;
        }
        self.atoms = atoms;
        self.rows.cut(trail);
        Ok(())
    }

    /// An atom that has no value: a plain one, as long as there is one.
    pub(crate) fn undecided(&mut self, trail: &Trail, atoms: u32) -> Option<u32>
        ensures { MatchOption result ((a : ℕ) → a < atoms → is_assigned trail.now a ≡ true)
            (λ a. (a < atoms) × (is_assigned trail.now a ≡ false)) }
    {
        match first_unassigned(&mut self.queue, trail, atoms) {
            Some(atom) => Some(atom),
            None => unassigned(trail, atoms),
        }
    }

    /// The sign with which an atom is decided: a row by the numbers that the solver found last, any other atom as it was last.
    pub(crate) fn sign(&self, problem: &Problem, atom: u32) -> bool
        requires { atom < length problem.now.atoms }
    {
        match &problem.atoms.as_slice()[atom as usize] {
            AtomKind::Row(row) => self.rows.truth(row),
            AtomKind::Plain => match self.values.get(atom as usize) {
                Some(Some(value)) => *value,
                _ => true,
            },
        }
    }
}
