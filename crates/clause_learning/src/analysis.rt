// A conflict: the clause that is learned from it, and the steps of its chain.
use crate::assignment::Assignment;
use crate::chains::Chains;
use crate::codes::{atom_of, opposite};
use crate::watching::Clauses;
use decision_queue::DecisionQueue;
use std::alloc::{AllocError, Global};

/// Marks of the atoms that the clause reached names; those of its literals that are below the last level, and those of level 0; how many
/// are of the last level; and for each atom of level 0 the clause of its literal.
#[derive(Drop)]
pub struct Analysis {
    seen: Vec<bool>,
    pub lits: Vec<u32>,
    fixed: Vec<u32>,
    open: usize,
    units: Vec<Option<u32>>,
}

impl Analysis {
    pub(crate) fn new(alloc: Global, atoms: u32) -> Result<Analysis, AllocError> {
        let mut seen = Vec::new(alloc);
        let mut units = Vec::new(alloc);
        for _ in 0..atoms {
            seen.push(false)?;
            units.push(None)?;
        }
        Ok(Analysis {
            seen,
            lits: Vec::new(alloc),
            fixed: Vec::new(alloc),
            open: 0,
            units,
        })
    }

    fn is_seen(&self, lit: u32) -> bool {
        match self.seen.get(atom_of(lit) as usize) {
            Some(seen) => *seen,
            None => false,
        }
    }

    fn set_seen(&mut self, lit: u32, seen: bool) {
        let atom = atom_of(lit) as usize;
        if atom < self.seen.len() {
            self.seen[atom] = seen;
        }
    }

    /// The clause of a literal of level 0.
    pub(crate) fn unit(&self, lit: u32) -> Option<u32> {
        *self.units.get(atom_of(lit) as usize)?
    }

    pub(crate) fn set_unit(&mut self, lit: u32, clause: u32) {
        let atom = atom_of(lit) as usize;
        if atom < self.units.len() {
            self.units[atom] = Some(clause);
        }
    }

    // Takes up a literal of a clause that is resolved with.
    fn take(
        &mut self,
        assignment: &Assignment,
        queue: &mut DecisionQueue,
        lit: u32,
    ) -> Result<(), AllocError> {
        if self.is_seen(lit) {
            return Ok(());
        }
        self.set_seen(lit, true);
        let level = assignment.cause(lit).level;
        if level == 0 {
            self.fixed.push(lit)?;
            return Ok(());
        }
        queue.raise(atom_of(lit));
        if level >= assignment.level() {
            self.open = self.open.saturating_add(1);
        } else {
            self.lits.push(lit)?;
        }
        Ok(())
    }

    // Takes up the literals of a clause but one.
    fn absorb(
        &mut self,
        assignment: &Assignment,
        queue: &mut DecisionQueue,
        lits: &[u32],
        but: Option<u32>,
    ) -> Result<(), AllocError> {
        for lit in lits {
            if Some(*lit) != but {
                self.take(assignment, queue, *lit)?;
            }
        }
        Ok(())
    }

    // Resolves back to the first clause with one literal of the last level, which is answered.
    fn resolve_to_uip(
        &mut self,
        clauses: &Clauses,
        assignment: &Assignment,
        queue: &mut DecisionQueue,
        chains: &mut Chains,
    ) -> Result<Option<u32>, AllocError> {
        let many = assignment.trail.len();
        for back in 0..many {
            let lit = assignment.trail[many - 1 - back];
            if !self.is_seen(lit) {
                continue;
            }
            if self.open <= 1 {
                return Ok(Some(opposite(lit)));
            }
            self.open = self.open.saturating_sub(1);
            self.set_seen(lit, false);
            let Some(reason) = assignment.cause(lit).reason else {
                return Ok(None);
            };
            chains.push(reason, lit)?;
            self.absorb(assignment, queue, clauses.lits(reason), Some(lit))?;
        }
        Ok(None)
    }

    // Resolves the literals of level 0 away.
    fn resolve_fixed(&mut self, chains: &mut Chains) -> Result<(), AllocError> {
        for _ in 0..self.fixed.len() {
            let Some(lit) = self.fixed.pop() else {
                break;
            };
            self.set_seen(lit, false);
            if let Some(unit) = self.unit(lit) {
                chains.push(unit, opposite(lit))?;
            }
        }
        Ok(())
    }

    // Puts the literal of the last level first, and one of the last level below it second. Answers that level.
    fn arrange(&mut self, assignment: &Assignment, first: u32) -> Result<usize, AllocError> {
        self.lits.push(first)?;
        let last = self.lits.len() - 1;
        self.lits.swap(0, last);
        let mut level = 0;
        for place in 1..self.lits.len() {
            let here = assignment.cause(self.lits[place]).level;
            if here > level {
                level = here;
                self.lits.swap(1, place);
            }
        }
        Ok(level)
    }

    fn forget_seen(&mut self) {
        for place in 0..self.lits.len() {
            if let Some(lit) = self.lits.get(place) {
                let lit = *lit;
                self.set_seen(lit, false);
            }
        }
    }

    /// Learns from a false clause: the literals of the clause that is learned stand in `lits` then, the one that it forces first. Answers the
    /// level where it does.
    pub(crate) fn learn(
        &mut self,
        clauses: &Clauses,
        assignment: &Assignment,
        queue: &mut DecisionQueue,
        chains: &mut Chains,
        conflict: u32,
    ) -> Result<Option<usize>, AllocError> {
        self.lits.clear();
        self.open = 0;
        chains.push(conflict, 0)?;
        self.absorb(assignment, queue, clauses.lits(conflict), None)?;
        let Some(first) = self.resolve_to_uip(clauses, assignment, queue, chains)? else {
            return Ok(None);
        };
        self.resolve_fixed(chains)?;
        chains.end()?;
        let level = self.arrange(assignment, first)?;
        self.forget_seen();
        Ok(Some(level))
    }

    /// Notes the steps that give what is left of a clause, but for one literal, once its literals of level 0 are resolved away.
    pub(crate) fn reduce(
        &mut self,
        clauses: &Clauses,
        chains: &mut Chains,
        clause: u32,
        but: Option<u32>,
    ) -> Result<(), AllocError> {
        chains.push(clause, 0)?;
        for lit in clauses.lits(clause) {
            if Some(*lit) == but {
                continue;
            }
            if let Some(unit) = self.unit(*lit) {
                chains.push(unit, opposite(*lit))?;
            }
        }
        chains.end()
    }
}
