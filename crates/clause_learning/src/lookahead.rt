// Which literal is decided by lookahead: how much the literals weigh, and which atoms are looked at.
//
// The fewer conflicts refute a problem, the shorter is the log. So the literals of a few atoms are tried before one is decided. Where a
// conflict follows from a literal, that is decided at once, and a clause is learned that fixes its opposite. Otherwise the atom is decided
// both of whose literals shorten many clauses: the product of what they do counts, so that neither branch stays long (Freeman, 1995). Which
// atoms are tried goes by the clauses that have two or three open literals.
//
// A literal weighs as much as becomes of its clauses where it is false. One with two open literals forces the other; one with three is left
// with two, which counts for more where each of these is likely to become false. That is so where its opposite weighs much. So the weights
// are found in a few rounds, each by those of the round before it (Mijnders, de Wilde and Heule, 2010).
//
// A decision looks at all clauses that count. So there is a bound on how often clauses are visited.
//
// Decisions:
// - Eight atoms are tried with both values before one is decided; with more, logs are as long. The
//   value that does less is decided first.
// - Weights are relative to their average, over the atoms that such clauses name, and bounded on
//   both sides: without bounds and with fewer rounds logs are longer. A clause that is true doesn't
//   count, nor does one with a literal whose opposite is in no other: the problem of an obligation
//   has hundreds of such, the names of equal readings, and they would make up the average.

use crate::assignment::{Truth, truth_of};
use crate::codes::opposite;
use crate::watching::Clauses;
use std::alloc::{AllocError, Global};
use std::mem;

// What the average literal weighs.
const UNIT: u64 = 1024;

// The least and the most that a literal weighs.
const LEAST: u64 = UNIT / 10;

const MOST: u64 = UNIT * 25;

// How much more a clause with two open literals counts than one with three.
const FORCING: u64 = 5;

// In how many rounds the weights are found.
const ROUNDS: u32 = 5;

// A learned clause counts if it has so many literals or fewer.
const SHORT: usize = 3;

/// The open literals of a clause that has two or three of them, and none that is true.
#[derive(Clone, Copy)]
pub struct Short {
    first: u32,
    second: u32,
    third: Option<u32>,
}

/// The clauses that count, and those of them that are short now; how much each literal weighs, and how much it weighed in the round before;
/// which atoms were taken, and how many visits of clauses are left.
#[derive(Drop)]
pub struct Lookahead {
    atoms: u32,
    clauses: Vec<u32>,
    shorts: Vec<Short>,
    weights: Vec<u64>,
    before: Vec<u64>,
    taken: Vec<bool>,
    visits: usize,
}

/// How good a decision is that does so much in the one branch, and so much in the other. The product counts for more than the sum.
pub fn score(left: u64, right: u64) -> u64 {
    left.saturating_mul(right)
        .saturating_add(left)
        .saturating_add(right)
}

impl Short {
    // Takes up the open literal behind this many others. It says whether there is a place for it.
    fn put(&mut self, others: usize, lit: u32) -> bool {
        match others {
            0 => self.first = lit,
            1 => self.second = lit,
            2 => self.third = Some(lit),
            _ => return false,
        }
        true
    }
}

// The open literals of a clause, if these are two or three and none is true.
fn short_of(lits: &[u32], truths: &[Truth]) -> Option<Short> {
    let mut open = 0usize;
    let mut short = Short {
        first: 0,
        second: 0,
        third: None,
    };
    for lit in lits {
        let truth = truth_of(truths, *lit);
        if truth == Truth::False {
            continue;
        }
        if truth == Truth::True || !short.put(open, *lit) {
            return None;
        }
        open = open.saturating_add(1);
    }
    if open < 2 {
        return None;
    }
    Some(short)
}

fn is_true(lits: &[u32], truths: &[Truth]) -> bool {
    for lit in lits {
        if truth_of(truths, *lit) == Truth::True {
            return true;
        }
    }
    false
}

fn at(weights: &[u64], lit: u32) -> u64 {
    match weights.get(lit as usize) {
        Some(weight) => *weight,
        None => 0,
    }
}

// The product of two weights.
fn product(left: u64, right: u64) -> u64 {
    left.saturating_mul(right) / UNIT
}

fn bounded(weight: u64) -> u64 {
    if weight < LEAST {
        LEAST
    } else if weight > MOST {
        MOST
    } else {
        weight
    }
}

impl Lookahead {
    /// No clause counts, and none may be visited.
    pub fn new(alloc: Global, atoms: u32) -> Result<Lookahead, AllocError> {
        let mut weights = Vec::new(alloc);
        let mut before = Vec::new(alloc);
        let mut taken = Vec::new(alloc);
        for _ in 0..atoms {
            for _ in 0..2 {
                weights.push(0)?;
                before.push(0)?;
            }
            taken.push(false)?;
        }
        Ok(Lookahead {
            atoms,
            clauses: Vec::new(alloc),
            shorts: Vec::new(alloc),
            weights,
            before,
            taken,
            visits: 0,
        })
    }

    // Counts how many clauses name each literal, of those that aren't true.
    fn count_names(&mut self, clauses: &Clauses, truths: &[Truth]) {
        for number in 0..clauses.len() {
            let Ok(number) = u32::try_from(number) else {
                continue;
            };
            let lits = clauses.lits(number);
            if !is_true(lits, truths) {
                self.count_in(lits);
            }
        }
    }

    fn count_in(&mut self, lits: &[u32]) {
        for lit in lits {
            let place = *lit as usize;
            if place < self.before.len() {
                self.before[place] = self.before[place].saturating_add(1);
            }
        }
    }

    // Whether a clause isn't true, and the opposite of each of its literals stands in such a clause. Any other can be made true and
    // leaves the rest as it was.
    fn is_relevant(&self, lits: &[u32], truths: &[Truth]) -> bool {
        if is_true(lits, truths) {
            return false;
        }
        for lit in lits {
            if truth_of(truths, *lit) == Truth::Open && self.opposed(*lit) == 0 {
                return false;
            }
        }
        true
    }

    /// Lets all clauses count that matter, and so many visits of clauses.
    pub fn begin(
        &mut self,
        clauses: &Clauses,
        truths: &[Truth],
        visits: usize,
    ) -> Result<(), AllocError> {
        self.count_names(clauses, truths);
        for number in 0..clauses.len() {
            let Ok(number) = u32::try_from(number) else {
                continue;
            };
            if self.is_relevant(clauses.lits(number), truths) {
                self.clauses.push(number)?;
            }
        }
        self.visits = visits;
        Ok(())
    }

    /// Lets a learned clause count, if it is short.
    pub fn learn(&mut self, clause: u32, size: usize) -> Result<(), AllocError> {
        if size <= SHORT {
            self.clauses.push(clause)?;
        }
        Ok(())
    }

    /// Whether a decision would visit more clauses than it may.
    pub fn is_exhausted(&self) -> bool {
        self.visits < self.clauses.len()
    }

    fn weight(&self, lit: u32) -> u64 {
        at(self.weights.as_slice(), lit)
    }

    // How much the opposite of a literal weighed in the round before.
    fn opposed(&self, lit: u32) -> u64 {
        at(self.before.as_slice(), opposite(lit))
    }

    // Finds the clauses that are short now.
    fn collect(&mut self, clauses: &Clauses, truths: &[Truth]) -> Result<(), AllocError> {
        self.visits = self.visits.saturating_sub(self.clauses.len());
        self.shorts.clear();
        for number in &self.clauses {
            if let Some(short) = short_of(clauses.lits(*number), truths) {
                self.shorts.push(short)?;
            }
        }
        Ok(())
    }

    // Whether an atom has no value and a short clause names it.
    fn counts(&self, truths: &[Truth], negative: u32) -> bool {
        truth_of(truths, negative) == Truth::Open
            && (self.weight(negative) > LEAST || self.weight(opposite(negative)) > LEAST)
    }

    // What the literals of those atoms weigh on average.
    fn average(&self, truths: &[Truth]) -> u64 {
        let mut many = 0u64;
        let mut sum = 0u64;
        for atom in 0..self.atoms {
            let negative = atom.saturating_mul(2);
            if self.counts(truths, negative) {
                many = many.saturating_add(2);
                sum = sum.saturating_add(self.weight(negative));
                sum = sum.saturating_add(self.weight(opposite(negative)));
            }
        }
        if many == 0 {
            return UNIT;
        }
        sum / many
    }

    // Begins a round: the weights so far become those of the round before, by their average.
    fn begin_round(&mut self, truths: &[Truth]) {
        let average = self.average(truths);
        mem::swap(&mut self.weights, &mut self.before);
        for weight in &mut self.weights {
            *weight = 0;
        }
        if average == 0 {
            return;
        }
        for weight in &mut self.before {
            *weight = weight.saturating_mul(UNIT) / average;
        }
    }

    fn add(&mut self, lit: u32, weight: u64) {
        let place = lit as usize;
        if place < self.weights.len() {
            self.weights[place] = self.weights[place].saturating_add(weight);
        }
    }

    // Adds what a short clause gives its literals.
    fn count(&mut self, short: Short) {
        let first = self.opposed(short.first);
        let second = self.opposed(short.second);
        match short.third {
            None => {
                self.add(short.first, second.saturating_mul(FORCING));
                self.add(short.second, first.saturating_mul(FORCING));
            }
            Some(lit) => {
                let third = self.opposed(lit);
                self.add(short.first, product(second, third));
                self.add(short.second, product(first, third));
                self.add(lit, product(first, second));
            }
        }
    }

    fn count_all(&mut self) {
        for place in 0..self.shorts.len() {
            if let Some(short) = self.shorts.get(place) {
                let short = *short;
                self.count(short);
            }
        }
    }

    fn bound(&mut self) {
        for weight in &mut self.weights {
            *weight = bounded(*weight);
        }
    }

    // Finds the weights by those of the round before.
    fn refine(&mut self, truths: &[Truth]) {
        self.begin_round(truths);
        self.count_all();
        self.bound();
    }

    /// Weighs all open literals. No atom is taken then.
    pub fn weigh(&mut self, clauses: &Clauses, truths: &[Truth]) -> Result<(), AllocError> {
        for taken in &mut self.taken {
            *taken = false;
        }
        for weight in &mut self.weights {
            *weight = UNIT;
        }
        self.collect(clauses, truths)?;
        for _ in 0..ROUNDS {
            self.refine(truths);
        }
        Ok(())
    }

    // How good an atom is by its weights alone, if it is open and wasn't taken.
    fn promise(&self, truths: &[Truth], atom: u32) -> Option<u64> {
        let negative = atom.saturating_mul(2);
        if truth_of(truths, negative) != Truth::Open {
            return None;
        }
        match self.taken.get(atom as usize) {
            Some(false) => {
                let positive = negative.saturating_add(1);
                Some(score(self.weight(negative), self.weight(positive)))
            }
            _ => None,
        }
    }

    /// Takes the best atom by weight that is open and wasn't taken.
    pub fn take(&mut self, truths: &[Truth]) -> Option<u32> {
        let mut best = None;
        let mut most = 0;
        for atom in 0..self.atoms {
            let Some(promise) = self.promise(truths, atom) else {
                continue;
            };
            if best.is_none() || promise > most {
                best = Some(atom);
                most = promise;
            }
        }
        let atom = best?;
        let place = atom as usize;
        if place < self.taken.len() {
            self.taken[place] = true;
        }
        Some(atom)
    }

    /// How much literals weighed that are false now.
    pub fn done_by(&self, trail: &[u32], start: usize) -> u64 {
        let mut done = 0u64;
        for place in start..trail.len() {
            if let Some(lit) = trail.get(place) {
                done = done.saturating_add(self.weight(opposite(*lit)));
            }
        }
        done
    }
}
