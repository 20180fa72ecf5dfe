// Analysis of conflicts: a chain of resolvents from a false clause back along the trail, and backtracking: whole decision levels are cut off
// the trail after it.
ghost use Rattle.std.specs.Prelude.{◌≡◌, ◌<◌, ◌≤◌, ◌^◌, ◌∷◌, ◌++◌, [], true, false, length, slice_index_or, IfOk};
ghost use Rattle.proof_lines.specs.{declared.line.Line.TheVariants.{Farkas}, Clauses.{negations}};
ghost use Rattle.proof_lines.specs.Problems.{atoms_below};
ghost use Rattle.sat_core.specs.Trails.{is_done};
ghost use Rattle.sat_core.specs.SearchLogs.{resolve_line, resolved_on, with_clause};
ghost use Rattle.sat_core.specs.Searching.{IsChain, GoesOn, IsChained, IsAnalyzed, IsBackjumpAfter, IsLevel};

use crate::growing::{add_clause, clause_at, lits_of};
use crate::state::SearchState;
use crate::trail::Trail;
use items::Items;
use proof_lines::clause::holds;
use proof_lines::{Clause, Line, Lit, Problem, RowStep};
use std::alloc::{AllocError, Global};

/// How the resolving of a chain ended, with the number of the clause reached.
#[derive(Clone, Copy)]
pub enum Chained {
    /// The chain is done.
    Done(u32),
    /// The log has as many lines as it may, and the chain isn't done.
    BudgetExhausted(u32),
    Memory,
}

/// How a conflict ended.
#[derive(Clone, Copy)]
pub enum Analyzed {
    /// The empty clause was reached.
    Empty,
    /// The trail was cut back.
    Cut,
    /// The log has as many lines as it may.
    BudgetExhausted,
    Memory,
}

fn resolve_line(lit: Lit, reason: u32, reached: u32) -> Line
    ensures { result ≡ resolve_line lit reason reached }
{
    if lit.positive {
        Line::Resolve {
            left: reason,
            right: reached,
            pivot: lit.atom,
        }
    } else {
        Line::Resolve {
            left: reached,
            right: reason,
            pivot: lit.atom,
        }
    }
}

// The resolvent of a clause with a reason of a literal.
fn resolvent_on(
    alloc: Global,
    problem: &Problem,
    lit: Lit,
    reason: u32,
    reached: u32,
) -> Result<Clause, AllocError>
    requires reason { reason < length problem.now.clauses }
    requires reached { reached < length problem.now.clauses }
    ensures { IfOk result (λ c. c ≡ resolved_on lit (slice_index_or problem.now.clauses reason [])
        (slice_index_or problem.now.clauses reached [])) }
{
    let reason = clause_at(problem, reason);
    let reached = clause_at(problem, reached);
    if lit.positive {
        Clause::resolvent(alloc, reason, reached, lit.atom)
    } else {
        Clause::resolvent(alloc, reached, reason, lit.atom)
    }
}

// Backtracks as long as a clause stays false: decision levels are cut off the trail.
fn cut_levels(trail: &mut Trail, lits: &[Lit])
    ensures { IsLevel trail.old trail.new lits.now }
{
    'cutting: while trail.decides() && trail.count_open_before(lits) == 0 {
        trail.cut();
    }
}

impl SearchState {
    // Resolves a clause with a reason of a literal, and writes the line.
    fn resolve_on(
        &mut self,
        alloc: Global,
        lit: Lit,
        reason: u32,
        reached: u32,
    ) -> Result<u32, AllocError>
        requires reason { reason < length self.old.grown.clauses }
        requires reached { reached < length self.old.grown.clauses }
        ensures { IfOk result (λ n. (n ≡ length self.old.grown.clauses)
            × (self.new.grown ≡ with_clause self.old.grown
            (resolved_on lit (slice_index_or self.old.grown.clauses reason [])
            (slice_index_or self.old.grown.clauses reached [])))
            × (self.new.log ≡ self.old.log ++ resolve_line lit reason reached ∷ [])
            × (length self.new.grown.clauses < 2 ^ 32) × (self.new.trail ≡ self.old.trail)) }
    {
        self.grown.law_fits();
        let clause = resolvent_on(alloc, &self.grown, lit, reason, reached)?;
        self.log.push(resolve_line(lit, reason, reached))?;
        let number = add_clause(&mut self.grown, clause)?;
        Ok(number)
    }

    // Takes the newest literal off the trail, and resolves with its reason where the clause reached holds its negation.
    fn step_back(&mut self, alloc: Global, reached: u32, budget: u32) -> Result<u32, AllocError>
        requires chain { IsChain budget self.old reached }
        requires undone { is_done self.old.trail (slice_index_or self.old.grown.clauses reached [])
            ≡ false }
        requires room { length self.old.log < budget }
        ensures { IfOk result (λ j. GoesOn budget self.old reached self.new j
            × (length self.new.trail < length self.old.trail)) }
    {
        let Some(entry) = self.trail.pop() else {
            unreachable!();
        };
        if !holds(lits_of(&self.grown, reached), entry.lit.opposite()) {
            return Ok(reached);
        }
        let Some(reason) = entry.reason else {
            unreachable!();
        };
        let _ = lits_of(&self.grown, reason);
        let next = self.resolve_on(alloc, entry.lit, reason, reached)?;
        Ok(next)
    }

    // Resolves the clause reached with the reasons of the newest literals, until the chain is done.
    fn resolve_to_uip(&mut self, alloc: Global, start: u32, budget: u32) -> Chained
        requires { IsChain budget self.old start }
        ensures { IsChained result budget self.old start self.new }
    {
        let mut reached = start;
        'chain: while !self.trail.is_done(lits_of(&self.grown, reached)) {
            if self.log.len() >= budget as usize {
                return Chained::BudgetExhausted(reached);
            }
            let Ok(next) = self.step_back(alloc, reached, budget) else {
                return Chained::Memory;
            };
            reached = next;
        }
        Chained::Done(reached)
    }

    // Cuts the trail back as far as the clause of a chain that is done stays unit.
    fn backjump(&mut self, reached: u32)
        requires { reached < length self.old.grown.clauses }
        ensures { IsBackjumpAfter self.old reached self.new }
    {
        let lits = lits_of(&self.grown, reached);
        self.trail.cut();
        'cutting: while self.trail.decides() && self.trail.count_open_before(lits) <= 1 {
            self.trail.cut();
        }
    }

    /// Analyzes a conflict: a chain from a false clause to one that keeps it from coming again, and then a shorter trail.
    pub fn analyze_conflict(&mut self, alloc: Global, start: u32, budget: u32) -> Analyzed
        requires { IsChain budget self.old start }
        ensures { IsAnalyzed result budget self.old start self.new }
    {
        match self.resolve_to_uip(alloc, start, budget) {
            Chained::Done(reached) => {
                if !self.trail.decides() {
                    return Analyzed::Empty;
                }
                self.backjump(reached);
                Analyzed::Cut
            }
            Chained::BudgetExhausted(_) => Analyzed::BudgetExhausted,
            Chained::Memory => Analyzed::Memory,
        }
    }

    /// Writes that rows in conflict don't hold together: the clause of the opposites of their literals. The trail is cut back as
    /// long as that clause stays false.
    pub fn learn(
        &mut self,
        alloc: Global,
        used: Items<Lit>,
        steps: Items<RowStep>,
    ) -> Result<u32, AllocError>
        requires { atoms_below (length self.old.grown.atoms) (negations used) ≡ true }
        ensures { IfOk result (λ n. (n ≡ length self.old.grown.clauses)
            × (self.new.grown ≡ with_clause self.old.grown (negations used))
            × (self.new.log ≡ self.old.log ++ Farkas used steps ∷ [])
            × (length self.new.grown.clauses < 2 ^ 32)
            × IsLevel self.old.trail self.new.trail (negations used)) }
    {
        let clause = or_drop!(Clause::of_opposites(alloc, used.as_slice()); used, steps);
        cut_levels(&mut self.trail, clause.lits());
        or_drop!(self.log.push(Line::Farkas { used, steps }); clause);
        add_clause(&mut self.grown, clause)
    }
}
