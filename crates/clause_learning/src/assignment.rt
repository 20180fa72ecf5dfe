// The literals that are taken to be true, in the order in which the search came to them, with the level and the reason of each.
use crate::codes::{atom_of, is_positive, opposite};
use decision_queue::DecisionQueue;
use std::alloc::{AllocError, Global};

/// What a literal is.
#[derive(Clone, Copy, PartialEq, Eq)]
pub enum Truth {
    Open,
    True,
    False,
}

/// How an atom got its value: how many decisions there were, the place on the trail, and the clause that forced it.
#[derive(Clone, Copy)]
pub struct Cause {
    pub level: usize,
    pub place: usize,
    pub reason: Option<u32>,
}

// The cause of an atom without a value.
const NO_CAUSE: Cause = Cause {
    level: 0,
    place: 0,
    reason: None,
};

/// What each literal is, how each atom got its value, the value that it had last, the trail, where each level after the first begins on
/// it, and how many of its literals were propagated.
#[derive(Drop)]
pub struct Assignment {
    pub truths: Vec<Truth>,
    causes: Vec<Cause>,
    phases: Vec<bool>,
    pub trail: Vec<u32>,
    starts: Vec<usize>,
    head: usize,
}

/// What a literal is.
pub fn truth_of(truths: &[Truth], lit: u32) -> Truth {
    match truths.get(lit as usize) {
        Some(truth) => *truth,
        None => Truth::Open,
    }
}

impl Assignment {
    /// No atom has a value.
    pub fn new(alloc: Global, atoms: u32) -> Result<Assignment, AllocError> {
        let mut truths = Vec::new(alloc);
        let mut causes = Vec::new(alloc);
        let mut phases = Vec::new(alloc);
        for _ in 0..atoms {
            truths.push(Truth::Open)?;
            truths.push(Truth::Open)?;
            causes.push(NO_CAUSE)?;
            phases.push(false)?;
        }
        Ok(Assignment {
            truths,
            causes,
            phases,
            trail: Vec::new(alloc),
            starts: Vec::new(alloc),
            head: 0,
        })
    }

    /// What a literal is.
    pub fn truth(&self, lit: u32) -> Truth {
        truth_of(self.truths.as_slice(), lit)
    }

    /// How many decisions there are.
    pub fn level(&self) -> usize {
        self.starts.len()
    }

    /// How the atom of a literal got its value.
    pub fn cause(&self, lit: u32) -> Cause {
        match self.causes.get(atom_of(lit) as usize) {
            Some(cause) => *cause,
            None => NO_CAUSE,
        }
    }

    /// The literal of an atom with the sign that it had last.
    pub fn last_of(&self, atom: u32) -> u32 {
        let negative = atom.saturating_mul(2);
        match self.phases.get(atom as usize) {
            Some(true) => negative.saturating_add(1),
            _ => negative,
        }
    }

    fn set(&mut self, lit: u32, truth: Truth) {
        let place = lit as usize;
        if place < self.truths.len() {
            self.truths[place] = truth;
        }
    }

    /// Takes a literal to be true.
    pub fn assign(&mut self, lit: u32, reason: Option<u32>) -> Result<(), AllocError> {
        self.set(lit, Truth::True);
        self.set(opposite(lit), Truth::False);
        let atom = atom_of(lit) as usize;
        if atom < self.causes.len() {
            self.causes[atom] = Cause {
                level: self.starts.len(),
                place: self.trail.len(),
                reason,
            };
        }
        if atom < self.phases.len() {
            self.phases[atom] = is_positive(lit);
        }
        self.trail.push(lit)?;
        Ok(())
    }

    /// Takes a literal to be true as a decision.
    pub fn decide(&mut self, lit: u32) -> Result<(), AllocError> {
        self.starts.push(self.trail.len())?;
        self.assign(lit, None)
    }

    /// The next literal of the trail that wasn't propagated.
    pub fn next(&mut self) -> Option<u32> {
        let lit = *self.trail.get(self.head)?;
        self.head = self.head.saturating_add(1);
        Some(lit)
    }

    /// Takes all back that came after so many decisions.
    pub fn cut(&mut self, level: usize, queue: &mut DecisionQueue) -> Result<(), AllocError> {
        let Some(start) = self.starts.get(level) else {
            return Ok(());
        };
        let start = *start;
        for _ in start..self.trail.len() {
            let Some(lit) = self.trail.pop() else {
                return Ok(());
            };
            self.set(lit, Truth::Open);
            self.set(opposite(lit), Truth::Open);
            queue.insert(atom_of(lit), false)?;
        }
        self.starts.truncate(level);
        self.head = start;
        Ok(())
    }
}
