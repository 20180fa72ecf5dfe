// The clauses, and what they watch: the first two literals of each.
use crate::assignment::{Assignment, Truth, truth_of};
use std::alloc::{AllocError, Global};
use std::mem;

/// A clause that watches a literal, and another of its literals: where that is true, the clause isn't looked at.
#[derive(Clone, Copy)]
pub struct Watch {
    pub clause: u32,
    pub other: u32,
}

/// All clauses by their numbers, and for each literal the clauses that watch it.
#[derive(Drop)]
pub struct Clauses {
    alloc: Global,
    lits: Vec<Vec<u32>>,
    lists: Vec<Vec<Watch>>,
}

// What a clause does that watched a literal which became false.
#[derive(Clone, Copy)]
enum Visit {
    /// It goes on watching it, and is true by this one.
    True(u32),
    /// It watches another in place of it, beside this one.
    Moved(u32, u32),
    /// This literal alone isn't false.
    Unit(u32),
    /// All literals are false.
    False(u32),
}

// A literal to watch in place of the second one, which is false. It is put there.
fn replaced(lits: &mut Vec<u32>, truths: &[Truth]) -> Option<u32> {
    for place in 2..lits.len() {
        let lit = lits[place];
        if truth_of(truths, lit) != Truth::False {
            lits.swap(1, place);
            return Some(lit);
        }
    }
    None
}

// Looks at a clause that watches a literal which became false.
fn visited(lits: &mut Vec<u32>, truths: &[Truth], gone: u32) -> Visit {
    if lits.len() < 2 {
        return Visit::True(gone);
    }
    if lits[0] == gone {
        lits.swap(0, 1);
    }
    let first = lits[0];
    let truth = truth_of(truths, first);
    if truth == Truth::True {
        return Visit::True(first);
    }
    match replaced(lits, truths) {
        Some(lit) => Visit::Moved(lit, first),
        None => {
            if truth == Truth::False {
                Visit::False(first)
            } else {
                Visit::Unit(first)
            }
        }
    }
}

impl Clauses {
    /// No clause.
    pub fn new(alloc: Global, atoms: u32) -> Result<Clauses, AllocError> {
        let mut lists = Vec::new(alloc);
        for _ in 0..atoms {
            lists.push(Vec::new(alloc))?;
            lists.push(Vec::new(alloc))?;
        }
        Ok(Clauses {
            alloc,
            lits: Vec::new(alloc),
            lists,
        })
    }

    /// How many clauses there are.
    pub fn len(&self) -> usize {
        self.lits.len()
    }

    /// The literals of a clause.
    pub fn lits(&self, clause: u32) -> &[u32] {
        match self.lits.get(clause as usize) {
            Some(lits) => lits.as_slice(),
            None => &[],
        }
    }

    fn watch(&mut self, lit: u32, watch: Watch) -> Result<(), AllocError> {
        let place = lit as usize;
        if place < self.lists.len() {
            self.lists[place].push(watch)?;
        }
        Ok(())
    }

    /// Adds a clause, which watches its first two literals. Answers its number.
    pub fn add(&mut self, lits: &[u32]) -> Result<u32, AllocError> {
        let Ok(clause) = u32::try_from(self.lits.len()) else {
            return Err(AllocError);
        };
        let copy = Vec::from_slice(self.alloc, lits)?;
        self.lits.push(copy)?;
        if lits.len() >= 2 {
            let (first, second) = (lits[0], lits[1]);
            self.watch(
                first,
                Watch {
                    clause,
                    other: second,
                },
            )?;
            self.watch(
                second,
                Watch {
                    clause,
                    other: first,
                },
            )?;
        }
        Ok(clause)
    }

    // Exchanges the list of a literal for another.
    fn exchange(&mut self, lit: u32, list: &mut Vec<Watch>) {
        let place = lit as usize;
        if place < self.lists.len() {
            mem::swap(&mut self.lists[place], list);
        }
    }

    fn visit(&mut self, truths: &[Truth], watch: Watch, gone: u32) -> Visit {
        if truth_of(truths, watch.other) == Truth::True {
            return Visit::True(watch.other);
        }
        let place = watch.clause as usize;
        if place >= self.lits.len() {
            return Visit::True(watch.other);
        }
        visited(&mut self.lits[place], truths, gone)
    }

    // Looks at a clause that watches a literal which became false, unless another one is false already. What is forced is assigned.
    // Answers another of its literals, where it goes on watching this one.
    fn follow_one(
        &mut self,
        assignment: &mut Assignment,
        watch: Watch,
        gone: u32,
        conflict: &mut Option<u32>,
    ) -> Result<Option<u32>, AllocError> {
        if conflict.is_some() {
            return Ok(Some(watch.other));
        }
        match self.visit(assignment.truths.as_slice(), watch, gone) {
            Visit::True(other) => Ok(Some(other)),
            Visit::Moved(lit, other) => {
                let clause = watch.clause;
                self.watch(lit, Watch { clause, other })?;
                Ok(None)
            }
            Visit::Unit(other) => {
                assignment.assign(other, Some(watch.clause))?;
                Ok(Some(other))
            }
            Visit::False(other) => {
                *conflict = Some(watch.clause);
                Ok(Some(other))
            }
        }
    }

    /// Looks at the clauses that watch a literal which became false. What is forced is assigned.
    pub fn follow(
        &mut self,
        assignment: &mut Assignment,
        gone: u32,
    ) -> Result<Option<u32>, AllocError> {
        let mut list = Vec::new(self.alloc);
        self.exchange(gone, &mut list);
        let mut kept = 0;
        let mut conflict = None;
        for place in 0..list.len() {
            let watch = list[place];
            let Some(other) = self.follow_one(assignment, watch, gone, &mut conflict)? else {
                continue;
            };
            let clause = watch.clause;
            if kept < list.len() {
                list[kept] = Watch { clause, other };
                kept += 1;
            }
        }
        list.truncate(kept);
        self.exchange(gone, &mut list);
        Ok(conflict)
    }
}
