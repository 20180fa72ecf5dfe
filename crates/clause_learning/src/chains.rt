// The steps by which clauses were learned, and the lines of those that the empty clause needs.
use crate::codes::{atom_of, is_positive};
use items::Items;
use proof_lines::Line;
use std::alloc::{AllocError, Global};

/// A step of a chain: the clause reached is resolved with a clause that forced a literal. The first step of a chain is the clause with
/// which it begins.
#[derive(Clone, Copy)]
pub struct Step {
    pub clause: u32,
    pub lit: u32,
}

/// How many clauses were given, and of each learned clause the steps of its chain, which end before a place of the list of all steps.
#[derive(Drop)]
pub struct Chains {
    given: usize,
    steps: Vec<Step>,
    ends: Vec<usize>,
}

impl Chains {
    pub(crate) fn new(alloc: Global, given: usize) -> Chains {
        Chains {
            given,
            steps: Vec::new(alloc),
            ends: Vec::new(alloc),
        }
    }

    /// Adds a step to the chain of the next clause.
    pub(crate) fn push(&mut self, clause: u32, lit: u32) -> Result<(), AllocError> {
        self.steps.push(Step { clause, lit })?;
        Ok(())
    }

    /// Ends the chain of the next clause.
    pub(crate) fn end(&mut self) -> Result<(), AllocError> {
        self.ends.push(self.steps.len())?;
        Ok(())
    }

    fn end_of(&self, learned: usize) -> usize {
        match self.ends.get(learned) {
            Some(end) => *end,
            None => self.steps.len(),
        }
    }

    // The place of the first step of a learned clause.
    fn start_of(&self, learned: usize) -> usize {
        if learned == 0 {
            0
        } else {
            self.end_of(learned - 1)
        }
    }

    fn step(&self, place: usize) -> Option<Step> {
        match self.steps.get(place) {
            Some(step) => Some(*step),
            None => None,
        }
    }

    // Marks the learned clauses that a chain names.
    fn mark(&self, needed: &mut Vec<bool>, learned: usize) {
        for place in self.start_of(learned)..self.end_of(learned) {
            let Some(step) = self.step(place) else {
                continue;
            };
            let number = step.clause as usize;
            if number >= self.given && number - self.given < needed.len() {
                needed[number - self.given] = true;
            }
        }
    }

    // Which of the learned clauses the last one needs.
    fn needed(&self, alloc: Global) -> Result<Vec<bool>, AllocError> {
        let mut needed = Vec::new(alloc);
        for _ in 0..self.ends.len() {
            needed.push(false)?;
        }
        let many = needed.len();
        for back in 0..many {
            let learned = many - 1 - back;
            if back > 0 && !is_marked(needed.as_slice(), learned) {
                continue;
            }
            if learned < needed.len() {
                needed[learned] = true;
            }
            self.mark(&mut needed, learned);
        }
        Ok(needed)
    }

    // Writes the lines of a chain. Answers the number of the last one's clause.
    fn write(
        &self,
        out: &mut Items<Line>,
        numbers: &[u32],
        learned: usize,
    ) -> Result<u32, AllocError> {
        let start = self.start_of(learned);
        let mut reached = self.number_at(numbers, start);
        for place in start.saturating_add(1)..self.end_of(learned) {
            let Some(step) = self.step(place) else {
                continue;
            };
            let reason = self.number_of(numbers, step.clause);
            out.push(resolve_line(step.lit, reason, reached))?;
            let Ok(number) = u32::try_from(self.given.saturating_add(out.len())) else {
                return Err(AllocError);
            };
            reached = number.saturating_sub(1);
        }
        Ok(reached)
    }

    // The number that a clause has in the log.
    fn number_of(&self, numbers: &[u32], clause: u32) -> u32 {
        let number = clause as usize;
        if number < self.given {
            return clause;
        }
        match numbers.get(number - self.given) {
            Some(number) => *number,
            None => u32::MAX,
        }
    }

    fn number_at(&self, numbers: &[u32], place: usize) -> u32 {
        match self.step(place) {
            Some(step) => self.number_of(numbers, step.clause),
            None => u32::MAX,
        }
    }

    // How many lines the needed chains take.
    fn count(&self, needed: &[bool]) -> usize {
        let mut lines = 0usize;
        for learned in 0..self.ends.len() {
            if is_marked(needed, learned) {
                let steps = self.end_of(learned).saturating_sub(self.start_of(learned));
                lines = lines.saturating_add(steps.saturating_sub(1));
            }
        }
        lines
    }

    /// The lines that give the clause that was learned last, where these are no more than the budget.
    pub(crate) fn lines(
        &self,
        alloc: Global,
        budget: u32,
    ) -> Result<Option<Items<Line>>, AllocError> {
        let needed = self.needed(alloc)?;
        if self.count(needed.as_slice()) > budget as usize {
            return Ok(None);
        }
        let mut out = Items::new(alloc);
        let mut numbers = Vec::new(alloc);
        for learned in 0..self.ends.len() {
            let number = if is_marked(needed.as_slice(), learned) {
                self.write(&mut out, numbers.as_slice(), learned)?
            } else {
                u32::MAX
            };
            numbers.push(number)?;
        }
        Ok(Some(out))
    }
}

fn is_marked(marks: &[bool], place: usize) -> bool {
    match marks.get(place) {
        Some(mark) => *mark,
        None => false,
    }
}

// The line that resolves a clause with one that forced a literal.
fn resolve_line(lit: u32, reason: u32, reached: u32) -> Line {
    let pivot = atom_of(lit);
    if is_positive(lit) {
        Line::Resolve {
            left: reason,
            right: reached,
            pivot,
        }
    } else {
        Line::Resolve {
            left: reached,
            right: reason,
            pivot,
        }
    }
}
