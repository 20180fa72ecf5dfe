// The search: it goes about its work as the plain one, and finds false and unit clauses by watched literals.
ghost use Rattle.std.specs.Prelude.{◌≡◌, ◌<◌, ◌≤◌, ◌^◌, ◌⊎◌, ℕ, Bool, List, true, false, length, IfOk, IfSome, OnOk};
ghost use Rattle.std.specs.List.{list_any};
ghost use Rattle.lin_rows.specs.Rows.{Row as PlainRow};
ghost use Rattle.proof_lines.specs.{declared.clause.Lit.{Lit as PlainLit}, Clauses.{is_empty}};
ghost use Rattle.sat_core.specs.Trails.{is_assigned, Settled};
ghost use Rattle.sat_core.specs.declared.checking.Outcome.TheVariants.{Memory};
ghost use Rattle.sat_core.specs.Answers.{AreRowsOf, IsAnswer, ShowsNone};
ghost use Rattle.sat_core.specs.Searching.{Aim, with_trail, InSearch, InChain, IsRefutation};
ghost use Rattle.sat_core.specs.Outcomes.{IsOutcome, IsPushed, IfContinue};
ghost use Rattle.theory_api.specs.Laws.{all_below};
ghost use Rattle.unit_propagation.specs.Watches.{AllKept, AreAtRest, IsResumed};
ghost use Rattle.unit_propagation.specs.Ready.{IsReady, MayPush, MayContinue};
ghost use Rattle.watched_search.specs.{Conflicts.{IsMet}, Early.{IsClash}};
ghost use Rattle.watched_search.specs.Exhausted.{is_exhausted};

use crate::early::{Clash, Said, ask_rows};
use crate::hints::Hints;
use crate::proposed::proposed;
use crate::reducing::{Reduced, ask_reduced};
use crate::row_hints::RowHints;
use decision_queue::Order;
use items::Items;
use proof_lines::problem::law_rows;
use proof_lines::{Lit, Problem, RangeEvidence, RowsEvidence};
use sat_core::checking::Outcome;
use sat_core::finding::Found;
use sat_core::growing::atom_count;
use sat_core::{Answer, Entry, SearchState, Trail};
use std::alloc::{AllocError, Global};
use theory_api::Theory;
use unit_propagation::Propagation;

// So many lines are tried by number before the most active atoms are decided first.
const FEW: u32 = 2000;

/// A search on watched literals: where it stands, which clauses watch which literals, and what helps it to decide.
#[derive(Drop)]
struct WatchedSearch {
    state: SearchState,
    index: Propagation,
    hints: Hints,
}

// Asks the solver about the rows of a trail that may assign some atoms only, where that is due. Rows in conflict are answered.
fn theory_propagate<T: Theory>(
    alloc: Global,
    theory: &mut T,
    problem: &Problem,
    trail: &Trail,
    hints: &mut RowHints,
) -> Result<Option<Clash>, AllocError>
    requires taken { (lits : List PlainLit) (rows : List PlainRow)
        → AreRowsOf problem.now.atoms lits rows → all_below problem.now.ints rows ≡ true
        → T.takes rows problem.now.ints }
    ensures { IfOk result (λ found. IfSome found
        (λ clash. IsClash problem.now trail.now clash.used clash.steps)) }
{
    if !hints.is_due() {
        return Ok(None);
    }
    hints.asked = hints.lits.len();
    match ask_rows(alloc, theory, problem, trail, hints.lits.as_slice(), true)? {
        Said::Model(numbers) => {
            hints.keep(numbers);
            Ok(None)
        }
        Said::Clash(clash) => Ok(Some(clash)),
        Said::Nothing => Ok(None),
    }
}

fn holds_empty(problem: &Problem) -> bool
    ensures { result ≡ list_any is_empty problem.now.clauses }
{
    problem.clauses.iter().any(|clause| clause.is_empty())
}

impl WatchedSearch {
    // Lets all clauses watch, where the trail has no literal.
    fn watch(&mut self, alloc: Global) -> Result<(), AllocError>
        requires few { length self.old.state.grown.clauses < 2 ^ 32 }
        requires resumed { IsResumed self.old.state.grown.clauses self.old.state.trail
            self.old.index.watches }
        ensures same { self.new.state ≡ self.old.state }
        ensures ready { OnOk result
            (IsReady self.new.state.grown.clauses self.new.state.trail self.new.index) }
    {
        self.hints.begin(&self.state.grown, &self.state.trail)?;
        self.index
            .resume(alloc, &self.state.grown, &self.state.trail)
    }

    // The search of a problem as it begins, with an order of decisions.
    fn begin(alloc: Global, problem: &Problem, order: Order) -> Result<WatchedSearch, AllocError>
        requires filled { list_any is_empty problem.now.clauses ≡ false }
        ensures search { IfOk result (λ w. (split : Bool) (budget : ℕ)
            → InSearch (record { problem = problem.now; split = split }) budget w.state) }
        ensures ready { IfOk result
            (λ w. IsReady w.state.grown.clauses w.state.trail w.index) }
    {
        let state = SearchState::begin(alloc, problem)?;
        let mut search = WatchedSearch {
            state,
            index: Propagation::new(alloc),
            hints: Hints::new(alloc, order),
        };
        or_drop!(search.watch(alloc); search);
        Ok(search)
    }

    // Takes a literal to be true.
    fn assign(&mut self, alloc: Global, lit: Lit, reason: Option<u32>) -> Outcome
        requires few { length self.old.state.grown.clauses < 2 ^ 32 }
        requires watched { MayPush reason self.old.state.grown.clauses self.old.state.trail
            self.old.index.watches }
        ensures pushed { IsPushed result self.old.state.trail lit reason self.new.state.trail }
        ensures same { self.new.state ≡ with_trail self.old.state self.new.state.trail }
        ensures ready { IfContinue result
            (IsReady self.new.state.grown.clauses self.new.state.trail self.new.index) }
    {
        if self.hints.note(&self.state.grown, lit).is_err() {
            return Outcome::Memory;
        }
        let entry = Entry { lit, reason };
        match self
            .index
            .push(alloc, &self.state.grown, &mut self.state.trail, entry)
        {
            Ok(()) => Outcome::Continue,
            Err(_) => Outcome::Memory,
        }
    }

    // Where the search continues, lets the further clauses watch: the trail was cut, or there are more atoms.
    fn resume(&mut self, alloc: Global, outcome: Outcome) -> Outcome
        requires may_continue { IfContinue outcome (MayContinue self.old.state.grown.clauses
            self.old.state.trail self.old.index.watches) }
        ensures same { self.new.state ≡ self.old.state }
        ensures outcome { (result ≡ outcome) ⊎ (result ≡ Memory) }
        ensures ready { IfContinue result
            (IsReady self.new.state.grown.clauses self.new.state.trail self.new.index) }
    {
        match outcome {
            Outcome::Continue => {
                let Ok(()) = self.hints.cut(&self.state.grown, &self.state.trail) else {
                    return Outcome::Memory;
                };
                match self
                    .index
                    .resume(alloc, &self.state.grown, &self.state.trail)
                {
                    Ok(()) => Outcome::Continue,
                    Err(_) => Outcome::Memory,
                }
            }
            other => other,
        }
    }

    // Analyzes why a clause is false.
    fn analyze_conflict(&mut self, alloc: Global, start: u32, budget: u32) -> Outcome
        requires chain { IsMet budget self.old.state start }
        requires kept { AllKept self.old.state.grown.clauses self.old.state.trail
            self.old.index.watches }
        ensures outcome { (a : Aim) (stop : Bool)
            → InChain a budget (length self.old.state.log) self.old.state start
            → IsOutcome result a stop budget self.old.state self.new.state }
        ensures ready { IfContinue result
            (IsReady self.new.state.grown.clauses self.new.state.trail self.new.index) }
    {
        let outcome = self.state.analyze_conflict(alloc, start, budget).outcome();
        self.resume(alloc, outcome)
    }

    // Learns from rows in conflict.
    fn analyze_theory_conflict(&mut self, alloc: Global, clash: Clash, budget: u32) -> Outcome
        requires refutation { IsRefutation budget self.old.state clash.used clash.steps }
        requires kept { AllKept self.old.state.grown.clauses self.old.state.trail
            self.old.index.watches }
        ensures outcome { (a : Aim) (stop : Bool) → InSearch a budget self.old.state
            → IsOutcome result a stop budget self.old.state self.new.state }
        ensures ready { IfContinue result
            (IsReady self.new.state.grown.clauses self.new.state.trail self.new.index) }
    {
        let Clash { used, steps } = clash;
        let outcome = self.state.refute(alloc, used, steps, budget).outcome();
        self.resume(alloc, outcome)
    }

    // Asks the solver about the rows of a whole trail.
    fn check_trail<T: Theory>(
        &mut self,
        alloc: Global,
        theory: &mut T,
        problem: &Problem,
        budget: u32,
    ) -> Outcome
        requires search { InSearch (record { problem = problem.now; split = T.MAY_SPLIT })
            budget self.old.state }
        requires settled { Settled self.old.state.trail self.old.state.grown.clauses }
        requires assigned { (a : ℕ) → a < length self.old.state.grown.atoms
            → is_assigned self.old.state.trail a ≡ true }
        requires kept { AllKept self.old.state.grown.clauses self.old.state.trail
            self.old.index.watches }
        requires rest { AreAtRest (length self.old.state.grown.clauses) self.old.state.trail
            self.old.index.watches }
        requires taken { T.MAY_SPLIT ≡ false → (lits : List PlainLit) (rows : List PlainRow)
            → AreRowsOf problem.now.atoms lits rows → T.takes rows problem.now.ints }
        ensures outcome { IsOutcome result (record { problem = problem.now; split = T.MAY_SPLIT })
            T.MAY_STOP budget self.old.state self.new.state }
        ensures ready { IfContinue result
            (IsReady self.new.state.grown.clauses self.new.state.trail self.new.index) }
    {
        match self.state.final_check(alloc, theory, problem, budget) {
            Ok(outcome) => self.resume(alloc, outcome),
            Err(_) => Outcome::Memory,
        }
    }

    // Asks the solver of rows where all atoms have values: about an implicant, and then, unless that answers, about the whole trail.
    fn final_check<T: Theory>(
        &mut self,
        alloc: Global,
        theory: &mut T,
        problem: &Problem,
        budget: u32,
    ) -> Outcome
        requires search { InSearch (record { problem = problem.now; split = T.MAY_SPLIT })
            budget self.old.state }
        requires settled { Settled self.old.state.trail self.old.state.grown.clauses }
        requires assigned { (a : ℕ) → a < length self.old.state.grown.atoms
            → is_assigned self.old.state.trail a ≡ true }
        requires kept { AllKept self.old.state.grown.clauses self.old.state.trail
            self.old.index.watches }
        requires rest { AreAtRest (length self.old.state.grown.clauses) self.old.state.trail
            self.old.index.watches }
        requires taken { T.MAY_SPLIT ≡ false → (lits : List PlainLit) (rows : List PlainRow)
            → AreRowsOf problem.now.atoms lits rows → T.takes rows problem.now.ints }
        ensures outcome { IsOutcome result (record { problem = problem.now; split = T.MAY_SPLIT })
            T.MAY_STOP budget self.old.state self.new.state }
        ensures ready { IfContinue result
            (IsReady self.new.state.grown.clauses self.new.state.trail self.new.index) }
    {
        let lits = self.hints.rows.lits.as_slice();
        let Ok(reduced) = ask_reduced(alloc, theory, problem, &self.state, lits) else {
            return Outcome::Memory;
        };
        match reduced {
            Reduced::Found(found) => Outcome::Found(found),
            Reduced::Clash(clash) => self.analyze_theory_conflict(alloc, clash, budget),
            Reduced::Nothing => self.check_trail(alloc, theory, problem, budget),
        }
    }

    // Decides an atom, unless the solver of rows is due and finds rows in conflict.
    fn decide<T: Theory>(
        &mut self,
        alloc: Global,
        theory: &mut T,
        problem: &Problem,
        atom: u32,
        budget: u32,
    ) -> Outcome
        requires search { InSearch (record { problem = problem.now; split = T.MAY_SPLIT })
            budget self.old.state }
        requires settled { Settled self.old.state.trail self.old.state.grown.clauses }
        requires atom { atom < length self.old.state.grown.atoms }
        requires open { is_assigned self.old.state.trail atom ≡ false }
        requires kept { AllKept self.old.state.grown.clauses self.old.state.trail
            self.old.index.watches }
        requires rest { AreAtRest (length self.old.state.grown.clauses) self.old.state.trail
            self.old.index.watches }
        requires taken { T.MAY_SPLIT ≡ false → (lits : List PlainLit) (rows : List PlainRow)
            → AreRowsOf problem.now.atoms lits rows → T.takes rows problem.now.ints }
        ensures outcome { IsOutcome result (record { problem = problem.now; split = T.MAY_SPLIT })
            T.MAY_STOP budget self.old.state self.new.state }
        ensures ready { IfContinue result
            (IsReady self.new.state.grown.clauses self.new.state.trail self.new.index) }
    {
        let rows = &mut self.hints.rows;
        let Ok(clash) = theory_propagate(alloc, theory, &self.state.grown, &self.state.trail, rows)
        else {
            return Outcome::Memory;
        };
        match clash {
            Some(clash) => self.analyze_theory_conflict(alloc, clash, budget),
            None => {
                let positive = self.hints.sign(&self.state.grown, atom);
                self.assign(alloc, Lit { atom, positive }, None)
            }
        }
    }

    // One step: a conflict is analyzed at once; then what is forced is taken to be true. Where neither is left to do, the solver of
    // rows is asked, if rows were added that its last numbers don't satisfy, and then an atom is decided; where all atoms have
    // values, the solver is asked in any case.
    fn advance<T: Theory>(
        &mut self,
        alloc: Global,
        theory: &mut T,
        problem: &Problem,
        budget: u32,
    ) -> Outcome
        requires search { InSearch (record { problem = problem.now; split = T.MAY_SPLIT })
            budget self.old.state }
        requires ready { IsReady self.old.state.grown.clauses self.old.state.trail self.old.index }
        requires taken { T.MAY_SPLIT ≡ false → (lits : List PlainLit) (rows : List PlainRow)
            → AreRowsOf problem.now.atoms lits rows → T.takes rows problem.now.ints }
        ensures outcome { IsOutcome result (record { problem = problem.now; split = T.MAY_SPLIT })
            T.MAY_STOP budget self.old.state self.new.state }
        ensures ready { IfContinue result
            (IsReady self.new.state.grown.clauses self.new.state.trail self.new.index) }
    {
        let Ok(found) = self.index.find(alloc, &self.state.grown, &self.state.trail) else {
            return Outcome::Memory;
        };
        match found {
            Found::Conflict(start) => self.analyze_conflict(alloc, start, budget),
            Found::Forced(reason, lit) => self.assign(alloc, lit, Some(reason)),
            Found::Nothing => {
                let atoms = atom_count(&self.state.grown);
                match self.hints.undecided(&self.state.trail, atoms) {
                    Some(atom) => self.decide(alloc, theory, problem, atom, budget),
                    None => self.final_check(alloc, theory, problem, budget),
                }
            }
        }
    }

    // Goes on until there is an answer.
    fn search_on<T: Theory>(
        &mut self,
        alloc: Global,
        theory: &mut T,
        problem: &Problem,
        budget: u32,
    ) -> Answer
        requires search { InSearch (record { problem = problem.now; split = T.MAY_SPLIT })
            budget self.old.state }
        requires ready { IsReady self.old.state.grown.clauses self.old.state.trail self.old.index }
        requires taken { T.MAY_SPLIT ≡ false → (lits : List PlainLit) (rows : List PlainRow)
            → AreRowsOf problem.now.atoms lits rows → T.takes rows problem.now.ints }
        ensures { IsAnswer T.MAY_SPLIT T.MAY_STOP problem.now budget result }
    {
        'search: loop {
            match self.advance(alloc, theory, problem, budget) {
                Outcome::Continue => {}
                Outcome::Refuted => return Answer::Unsat(self.state.take_log(alloc)),
                Outcome::Found(interpretation) => return Answer::Sat(interpretation),
                Outcome::BudgetExhausted => return Answer::Lines(self.state.take_log(alloc)),
                Outcome::Rows { used, steps } => {
                    let log = self.state.take_log(alloc);
                    return Answer::Rows(RowsEvidence { log, used, steps });
                }
                Outcome::Range { used, steps, what } => {
                    let log = self.state.take_log(alloc);
                    return Answer::Range(RangeEvidence {
                        log,
                        used,
                        steps,
                        what,
                    });
                }
                Outcome::Memory => return Answer::Memory,
            }
        }
    }
}

// Searches from the beginning, deciding atoms in an order.
fn search_in<T: Theory>(
    alloc: Global,
    problem: &Problem,
    theory: &mut T,
    order: Order,
    budget: u32,
) -> Answer
    requires filled { list_any is_empty problem.now.clauses ≡ false }
    requires taken { T.MAY_SPLIT ≡ false → (lits : List PlainLit) (rows : List PlainRow)
        → AreRowsOf problem.now.atoms lits rows → T.takes rows problem.now.ints }
    ensures { IsAnswer T.MAY_SPLIT T.MAY_STOP problem.now budget result }
{
    let Ok(mut search) = WatchedSearch::begin(alloc, problem, order) else {
        return Answer::Memory;
    };
    search.search_on(alloc, theory, problem, budget)
}

// So many lines, or as many as the budget has.
fn few_of(budget: u32) -> u32
    ensures { result ≤ budget }
{
    if budget < FEW { budget } else { FEW }
}

// Whether the budget of lines was spent.
fn is_exhausted(answer: &Answer) -> bool
    ensures { result ≡ is_exhausted answer.now }
{
    match answer {
        Answer::Lines(_) => true,
        _ => false,
    }
}

// Decides the most active atoms first. Where that takes all lines of the budget, the search begins anew and decides by number, unless
// that was tried with as many lines.
fn search_in_both<T: Theory>(
    alloc: Global,
    problem: &Problem,
    theory: &mut T,
    budget: u32,
) -> Answer
    requires filled { list_any is_empty problem.now.clauses ≡ false }
    requires taken { T.MAY_SPLIT ≡ false → (lits : List PlainLit) (rows : List PlainRow)
        → AreRowsOf problem.now.atoms lits rows → T.takes rows problem.now.ints }
    ensures { IsAnswer T.MAY_SPLIT T.MAY_STOP problem.now budget result }
{
    let answer = search_in(alloc, problem, theory, Order::Activity, budget);
    if !is_exhausted(&answer) || budget <= FEW {
        return answer;
    }
    drop(answer);
    search_in(alloc, problem, theory, Order::Number, budget)
}

// The search, without the fact that its Unsat means that there is no interpretation. A few lines are tried by number first, and then what
// the search proposes that promises nothing.
fn search<T: Theory>(alloc: Global, problem: &Problem, theory: &mut T, budget: u32) -> Answer
    requires taken { T.MAY_SPLIT ≡ false → (lits : List PlainLit) (rows : List PlainRow)
        → AreRowsOf problem.now.atoms lits rows → T.takes rows problem.now.ints }
    ensures { IsAnswer T.MAY_SPLIT T.MAY_STOP problem.now budget result }
{
    if holds_empty(problem) {
        return Answer::Unsat(Items::new(alloc));
    }
    let answer = search_in(alloc, problem, theory, Order::Number, few_of(budget));
    if !is_exhausted(&answer) {
        return answer;
    }
    drop(answer);
    if budget > FEW {
        match proposed(alloc, problem, budget) {
            Ok(Some(found)) => return found,
            Ok(None) => {}
            Err(_) => return Answer::Memory,
        }
    }
    search_in_both(alloc, problem, theory, budget)
}

/// Searches for an interpretation that makes all clauses of a problem true, or for a log of at most `budget` lines that shows
/// that there is none, as `solve_plain` does. A row of the problem with the bound 2^127 - 1 has no negation, and may be answered as
/// want of memory.
pub fn solve<T: Theory>(alloc: Global, problem: &Problem, theory: &mut T, budget: u32) -> Answer
    requires taken { T.MAY_SPLIT ≡ false → (lits : List PlainLit) (rows : List PlainRow)
        → AreRowsOf problem.now.atoms lits rows → T.takes rows problem.now.ints }
    ensures promised { IsAnswer T.MAY_SPLIT T.MAY_STOP problem.now budget result }
    ensures none { ShowsNone problem.now result }
{
    problem.law_fits();
    law_rows(problem.atoms.as_slice());
    search(alloc, problem, theory, budget)
}
