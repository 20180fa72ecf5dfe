// What follows for a search from what its solver says of the rows of a complete trail.
ghost use Rattle.std.specs.Prelude.{◌≡◌, ◌<◌, ◌≤◌, ◌^◌, ◌++◌, ◌∷◌, [], nat_lt, ℕ, List, true, false, map, length, slice_index_or, OnOk, IfOk};
ghost use Rattle.std.specs.List.{list_all};
ghost use Rattle.lin_rows.specs.{Numbers.{in_range}, Rows.{Row as PlainRow}};
ghost use Rattle.proof_lines.specs.declared.clause.Lit.{Lit as PlainLit};
ghost use Rattle.proof_lines.specs.{declared.line.Line.TheVariants.{Split}, Clauses.{lit_of}};
ghost use Rattle.line_rows.specs.Splits.{at_most};
ghost use Rattle.theory_api.specs.Laws.{IsAnswer as IsTheoryAnswer};
ghost use Rattle.sat_core.specs.{Trails.{in_trail, is_assigned, Settled}, SearchLogs.{with_row}};
ghost use Rattle.sat_core.specs.Answers.{AreRowsOf};
ghost use Rattle.sat_core.specs.Searching.{InSearch, IsRefutation, IsLearned, IsRowAssignment, lit_at};
ghost use Rattle.sat_core.specs.Outcomes.{IsOutcome, outcome_of, IfContinue, IsStay, IsSplitOff};

use crate::analyzing::Analyzed;
use crate::growing::{add_row, int_count};
use crate::row_assignments::{RowAssignment, pick, row_assignment, truths};
use crate::state::SearchState;
use crate::trail::Trail;
use items::Items;
use line_rows::splitting::at_most;
use proof_lines::{Interpretation, Line, Lit, Problem, RangeWhat, RowStep};
use std::alloc::{AllocError, Global};
use theory_api::{Theory, TheoryAnswer};

/// What a step of the search came to.
#[derive(Drop)]
pub enum Outcome {
    /// The search goes on.
    Continue,
    /// The empty clause was reached.
    Refuted,
    /// All clauses are true.
    Found(Interpretation),
    /// The log has as many lines as it may.
    BudgetExhausted,
    /// The solver stopped at too many rows.
    Rows {
        used: Items<Lit>,
        steps: Items<RowStep>,
    },
    /// The solver stopped at a number beyond its range.
    Range {
        used: Items<Lit>,
        steps: Items<RowStep>,
        what: RangeWhat,
    },
    Memory,
}

impl Analyzed {
    /// What a step comes to that analyzes a conflict.
    pub fn outcome(self) -> Outcome
        ensures { result ≡ outcome_of self }
    {
        match self {
            Analyzed::Empty => Outcome::Refuted,
            Analyzed::Cut => Outcome::Continue,
            Analyzed::BudgetExhausted => Outcome::BudgetExhausted,
            Analyzed::Memory => Outcome::Memory,
        }
    }
}

// Why whole numbers are to be split.
#[derive(Drop)]
struct Cause {
    used: Items<Lit>,
    steps: Items<RowStep>,
    low: u32,
    high: u32,
    values: Items<i128>,
}

// The literals with some numbers among those that stand for rows.
fn picked(
    alloc: Global,
    assignment: RowAssignment,
    used: Items<u32>,
) -> Result<Items<Lit>, AllocError>
    requires { list_all (λ u. nat_lt u (length assignment.lits)) used ≡ true }
    ensures { IfOk result (λ out. out ≡ map (lit_at assignment.lits) used) }
{
    let lits = pick(alloc, assignment.lits.as_slice(), used.as_slice());
    drop(used);
    drop(assignment);
    lits
}

// The cause of a split, from the answer of the solver.
fn cause_of(
    alloc: Global,
    assignment: RowAssignment,
    used: Items<u32>,
    steps: Items<RowStep>,
    low: u32,
    high: u32,
    values: Items<i128>,
) -> Result<Cause, AllocError>
    requires { list_all (λ u. nat_lt u (length assignment.lits)) used ≡ true }
    ensures used { IfOk result (λ c. c.used ≡ map (lit_at assignment.lits) used) }
    ensures rest { IfOk result (λ c. (c.steps ≡ steps) × (c.low ≡ low) × (c.high ≡ high)
        × (c.values ≡ values)) }
{
    let used = or_drop!(picked(alloc, assignment, used); steps, values);
    Ok(Cause {
        used,
        steps,
        low,
        high,
        values,
    })
}

// The interpretation that the truth values of a trail are with some numbers.
fn interpretation(
    alloc: Global,
    problem: &Problem,
    trail: &Trail,
    ints: Items<i128>,
) -> Result<Interpretation, AllocError>
    requires { length problem.now.atoms < 2 ^ 32 }
    ensures ints { IfOk result (λ i. i.ints ≡ ints) }
    ensures many { IfOk result (λ i. length i.truths ≡ length problem.now.atoms) }
    ensures each { IfOk result (λ i. (a : ℕ) → a < length problem.now.atoms
        → slice_index_or i.truths a false ≡ in_trail trail.now (lit_of a true)) }
{
    let truths = or_drop!(truths(alloc, trail, problem.atoms.len()); ints);
    Ok(Interpretation { truths, ints })
}

// The rows of a trail that a solver was asked about, and what it answered.
#[derive(Drop)]
struct TheoryCheck {
    assignment: RowAssignment,
    answer: TheoryAnswer,
}

impl SearchState {
    /// Learns from rows in conflict: literals of a settled trail, whose rows the steps refute.
    pub fn refute(
        &mut self,
        alloc: Global,
        used: Items<Lit>,
        steps: Items<RowStep>,
        budget: u32,
    ) -> Analyzed
        requires { IsRefutation budget self.old used steps }
        ensures { IsLearned result budget self.old self.new }
    {
        if self.log.len() >= budget as usize {
            return Analyzed::BudgetExhausted;
        }
        let Ok(start) = self.learn(alloc, used, steps) else {
            return Analyzed::Memory;
        };
        self.analyze_conflict(alloc, start, budget)
    }

    // Writes a Split line and adds its atom.
    fn add_split(
        &mut self,
        alloc: Global,
        place: u32,
        at: &i128,
        cause: Cause,
    ) -> Result<(), AllocError>
        requires place { place < self.old.grown.ints }
        requires fits { in_range at.now ≡ true }
        ensures { OnOk result ((self.new.grown ≡ with_row self.old.grown (at_most place at.now))
            × (self.new.trail ≡ self.old.trail)
            × (self.new.log ≡ self.old.log
            ++ Split place at.now cause.used cause.steps cause.low cause.high cause.values ∷ [])
            × (length self.new.grown.atoms < 2 ^ 32)) }
    {
        let row = at_most(alloc, place, at)?;
        let Cause {
            used,
            steps,
            low,
            high,
            values,
        } = cause;
        self.log.push(Line::Split {
            place,
            at: *at,
            used,
            steps,
            low,
            high,
            values,
        })?;
        add_row(&mut self.grown, row)
    }

    // Splits whole numbers, unless the log has as many lines as it may.
    fn split(
        &mut self,
        alloc: Global,
        place: u32,
        at: &i128,
        cause: Cause,
        budget: u32,
    ) -> Result<Outcome, AllocError>
        requires place { place < self.old.grown.ints }
        requires fits { in_range at.now ≡ true }
        ensures { IfOk result (λ o. IsSplitOff o budget self.old (at_most place at.now)
            (Split place at.now cause.used cause.steps cause.low cause.high cause.values)
            self.new) }
    {
        if self.log.len() >= budget as usize {
            drop(cause);
            return Ok(Outcome::BudgetExhausted);
        }
        self.add_split(alloc, place, at, cause)?;
        Ok(Outcome::Continue)
    }

    // What follows from a check of the rows of a settled trail that assigns all atoms.
    fn follow<T: Theory>(
        &mut self,
        alloc: Global,
        problem: &Problem,
        check: TheoryCheck,
        budget: u32,
    ) -> Result<Outcome, AllocError>
        requires search { InSearch (record { problem = problem.now; split = T.MAY_SPLIT })
            budget self.old }
        requires settled { Settled self.old.trail self.old.grown.clauses }
        requires assigned { (a : ℕ) → a < length self.old.grown.atoms
            → is_assigned self.old.trail a ≡ true }
        requires rows { IsRowAssignment self.old.grown.atoms self.old.trail
            (length self.old.grown.atoms) check.assignment.lits check.assignment.rows }
        requires answered { IsTheoryAnswer T.MAY_SPLIT T.MAY_STOP
            self.old.grown.ints check.assignment.rows check.answer }
        ensures outcome { IfOk result (λ o. IsOutcome o
            (record { problem = problem.now; split = T.MAY_SPLIT }) T.MAY_STOP
            budget self.old self.new) }
        ensures stays { IfOk result (λ o. IfContinue o (IsStay self.old self.new)) }
    {
        let TheoryCheck { assignment, answer } = check;
        match answer {
            TheoryAnswer::Model(ints) => {
                problem.law_fits();
                drop(assignment);
                let found = interpretation(alloc, problem, &self.trail, ints)?;
                Ok(Outcome::Found(found))
            }
            TheoryAnswer::Conflict { used, steps } => {
                let used = or_drop!(picked(alloc, assignment, used); steps);
                Ok(self.refute(alloc, used, steps, budget).outcome())
            }
            TheoryAnswer::Split {
                place,
                at,
                used,
                steps,
                low,
                high,
                values,
            } => {
                assignment.law_rows();
                let cause = cause_of(alloc, assignment, used, steps, low, high, values)?;
                self.split(alloc, place, &at, cause, budget)
            }
            TheoryAnswer::Rows { used, steps } => {
                let used = or_drop!(picked(alloc, assignment, used); steps);
                Ok(Outcome::Rows { used, steps })
            }
            TheoryAnswer::Range { used, steps, what } => {
                let used = or_drop!(picked(alloc, assignment, used); steps, what);
                Ok(Outcome::Range { used, steps, what })
            }
            TheoryAnswer::Memory => {
                drop(assignment);
                Err(AllocError)
            }
        }
    }

    /// Asks the solver about the rows of a settled trail that assigns all atoms.
    pub fn final_check<T: Theory>(
        &mut self,
        alloc: Global,
        theory: &mut T,
        problem: &Problem,
        budget: u32,
    ) -> Result<Outcome, AllocError>
        requires search { InSearch (record { problem = problem.now; split = T.MAY_SPLIT })
            budget self.old }
        requires settled { Settled self.old.trail self.old.grown.clauses }
        requires assigned { (a : ℕ) → a < length self.old.grown.atoms
            → is_assigned self.old.trail a ≡ true }
        requires taken { T.MAY_SPLIT ≡ false → (lits : List PlainLit) (rows : List PlainRow)
            → AreRowsOf problem.now.atoms lits rows → T.takes rows problem.now.ints }
        ensures outcome { IfOk result (λ o. IsOutcome o
            (record { problem = problem.now; split = T.MAY_SPLIT }) T.MAY_STOP
            budget self.old self.new) }
        ensures stays { IfOk result (λ o. IfContinue o (IsStay self.old self.new)) }
    {
        self.grown.law_fits();
        let assignment = row_assignment(alloc, &self.grown, &self.trail)?;
        let answer = theory.check(alloc, assignment.rows.as_slice(), int_count(&self.grown));
        let check = TheoryCheck { assignment, answer };
        self.follow::<T>(alloc, problem, check, budget)
    }
}
