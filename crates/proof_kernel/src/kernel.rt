// The kernel: what stands after the lines taken so far.
ghost use Rattle.std.specs.Prelude.{◌≡◌, ℕ, ◌+◌, ◌*◌, ◌<◌, ◌≤◌, ◌^◌, Bool, true, MatchResult, OnOk, OnErr, IsOk, IfOk, IsTrue, length, option_copied, slice_get, slice_index_or, is_some, Ok, nat_lt, map, Some, None, [], ◌∷◌};
ghost use Rattle.std.specs.List.{list_all, list_any};
ghost use Rattle.lin_rows.specs.Rows.{is_row, places_below};
ghost use Rattle.proof_lines.specs.Clauses.{is_empty, distinct};
ghost use Rattle.proof_lines.specs.Problems.{Meaning, makes_true, atoms_below};
ghost use Rattle.proof_lines.specs.Numbers.{are_different};
ghost use Rattle.log_freshness.specs.{Held.{most_literals, live_literals}, Freshness.{live_of}};
ghost use Rattle.proof_kernel.specs.Rules.{State, StateFits, start, grown, live_clause, is_live, resolved, combined, split, split_after, named, dropped, cleared, next, holds};
ghost use Rattle.proof_kernel.specs.Evidence.{is_fresh, rows_hold, range_holds};
ghost use Rattle.line_rows.specs.Refusals.{IsTold};

use crate::atoms::Atoms;
use lin_rows::Row;
use line_rows::evidence::{all_cancel, all_different, shows_range};
use line_rows::kept::{kept_at, kept_rows, refutes_used};
use line_rows::splitting::{at_most, names_of_two, split_cause};
use line_rows::steps::line_rows;
use log_freshness::{ClauseStore, each_new, none_dropped};
use proof_lines::clause::{Clause, Lit, holds_both_ways, put_resolvent};
use proof_lines::line::{Line, LineRefused, RangeWhat, RowStep, Why};
use proof_lines::marks::some_both_ways;
use proof_lines::problem::{AtomKind, Problem, law_rows};
use std::alloc::{AllocError, Global};
use std::collections::HashSet;
use std::marker::Model;
use std::mem;

/// The atoms and clauses that stand after some lines. Contracts see them as a `State`; the literals of dropped clauses are kept
/// until they are more than 4,096 and than half of all.
#[derive(Drop)]
pub struct Kernel {
    atoms: Atoms,
    ints: u32,
    given: u32,
    slots: ClauseStore,
    empty: bool,
    made: Vec<Lit>,
    alloc: Global,
}

impl Model for Kernel {
    ghost use Rattle.proof_kernel.specs.Rules.{State, StateFits};

    ghost Value = { State };

    ghost view = { λ a. record { atoms = a.atoms; ints = a.ints; given = a.given; slots = a.slots; empty = a.empty } };

    ghost invariant = { λ a. StateFits (record { atoms = a.atoms; ints = a.ints; given = a.given; slots = a.slots; empty = a.empty }) };
}

impl Kernel {
    /// The kernel before the first line of a log. More than 2^32 - 1 clauses or atoms are answered as want of memory.
    pub fn new(alloc: Global, problem: Problem) -> Result<Kernel, AllocError>
        ensures exact { IfOk result (λ kernel. kernel ≡ start problem) }
        ensures sound { IfOk result (λ kernel. (m : Meaning) → makes_true m problem ≡ true
            → holds m kernel ≡ true) }
    {
        Kernel::begin(alloc, problem)
    }

    fn begin(alloc: Global, problem: Problem) -> Result<Kernel, AllocError>
        ensures { IfOk result (λ kernel. kernel ≡ start problem) }
    {
        let Problem {
            atoms,
            ints,
            clauses,
        } = problem;
        if clauses.len() > u32::MAX as usize || atoms.len() > u32::MAX as usize {
            return Err(AllocError);
        }
        law_rows(atoms.as_slice());
        let atoms = Atoms::of(alloc, atoms)?;
        let given = clauses.len() as u32;
        let empty = holds_empty(clauses.as_slice());
        let slots = slots_of(alloc, clauses.as_slice())?;
        drop(clauses);
        Ok(Kernel {
            atoms,
            ints,
            given,
            slots,
            empty,
            made: Vec::new(alloc),
            alloc,
        })
    }

    /// Begins anew with another problem. A refusal leaves the kernel as before.
    pub fn restart(&mut self, problem: Problem) -> Result<(), AllocError>
        ensures exact { OnOk result (self.new ≡ start problem) }
        ensures kept { OnErr result (self.new ≡ self.old) }
        ensures sound { OnOk result ((m : Meaning) → makes_true m problem ≡ true
            → holds m self.new ≡ true) }
    {
        let next = Kernel::new(self.alloc, problem)?;
        *self = next;
        Ok(())
    }

    /// Takes the next line of the log. A refusal changes nothing. With 2^32 - 1 clauses or atoms a further one is answered as
    /// want of memory, and so is a clause with which more than 2^27 literals would be held.
    pub fn add(&mut self, line: &Line) -> Result<(), LineRefused>
        ensures exact { MatchResult result (λ _. next self.old line.now ≡ Ok self.new)
            (λ e. IsTold e (next self.old line.now)) }
        ensures kept { OnErr result (self.new ≡ self.old) }
        ensures sound { OnOk result ((m : Meaning) → holds m self.old ≡ true
            → holds m self.new ≡ true) }
    {
        self.law_fits();
        self.take(line)
    }

    fn take(&mut self, line: &Line) -> Result<(), LineRefused>
        ensures exact { MatchResult result (λ _. next self.old line.now ≡ Ok self.new)
            (λ e. IsTold e (next self.old line.now)) }
        ensures kept { OnErr result (self.new ≡ self.old) }
    {
        match line {
            Line::Resolve { left, right, pivot } => self.resolve(*left, *right, *pivot),
            Line::Farkas { used, steps } => self.farkas(used.as_slice(), steps.as_slice()),
            Line::Split {
                place,
                at,
                used,
                steps,
                low,
                high,
                values,
            } => self.split(
                *place,
                at,
                used.as_slice(),
                steps.as_slice(),
                *low,
                *high,
                values.as_slice(),
            ),
            Line::Drop { clauses } => self.drop_clauses(clauses.as_slice()),
        }
    }

    /// What a kernel keeps of its state: numbers fit, literals name atoms, and the places of rows are numbers of integer names.
    pub fn law_fits(&self)
        ensures { StateFits self.now }
    {
        let _ = &self.empty;
    }

    /// The literals of the clause of a number; nothing where there is none or it was dropped.
    pub fn clause(&self, number: u32) -> Option<&[Lit]>
        ensures { option_copied result ≡ live_clause self.now number }
    {
        self.slots.get(number as usize)
    }

    /// The atom of a number, if there is one.
    pub fn atom(&self, number: u32) -> Option<&AtomKind>
        ensures { option_copied result ≡ slice_get self.now.atoms number }
    {
        self.atoms.get(number as usize)
    }

    /// How many atoms there are: those of the problem, and one for each Split line.
    pub fn atom_count(&self) -> u32
        ensures is { result ≡ length self.now.atoms }
    {
        self.atoms.len() as u32
    }

    /// How many integer names there are.
    pub fn ints(&self) -> u32
        ensures { result ≡ self.now.ints }
    {
        self.ints
    }

    /// How many clauses there were, dropped or not: those of the problem, and one for each Resolve and Farkas line.
    pub fn clause_count(&self) -> u32
        ensures { result ≡ length self.now.slots }
    {
        self.slots.len() as u32
    }

    /// How many clauses weren't dropped.
    pub fn live_count(&self) -> u32
        ensures { result ≡ length (live_of self.now.slots) }
    {
        count_live(&self.slots) as u32
    }

    /// How many literals of clauses are held, those of dropped ones among them that weren't let go of yet.
    pub fn held(&self) -> usize
        ensures most { result ≤ most_literals }
        ensures live { result ≤ 2 * live_literals self.now.slots + 8192 }
    {
        self.slots.held()
    }

    /// Whether an empty clause was among the clauses, dropped or not. Then no interpretation makes all clauses of the problem
    /// true.
    pub fn has_empty(&self) -> bool
        ensures exact { result ≡ self.now.empty }
        ensures sound { IsTrue result → (m : Meaning) → holds m self.now ≡ true → ⊥ }
    {
        self.empty
    }

    /// Whether the log is fresh: no line dropped a clause, and the clause of each line is new among those before it.
    pub fn all_fresh(&self) -> bool
        ensures { result ≡ is_fresh self.now }
    {
        none_dropped(&self.slots)
            && each_new(
                self.alloc,
                self.atoms.len(),
                &self.slots,
                self.given as usize,
            )
    }

    /// Whether the used literals and the steps give too many rows: 10,000 different ones, each step cancelling a place.
    pub fn rows_hold(&self, used: &[Lit], steps: &[RowStep]) -> Result<bool, AllocError>
        ensures { IfOk result (λ b. b ≡ rows_hold self.now used.now steps.now) }
    {
        if used.len() + steps.len() != 10_000 || holds_both_ways(used) {
            return Ok(false);
        }
        match line_rows(self.alloc, self.atoms.as_slice(), used, steps) {
            Ok(rows) => Ok(all_different(rows.as_slice()) && all_cancel(rows.as_slice(), steps)),
            Err(LineRefused::Bad(_)) => Ok(false),
            Err(LineRefused::Memory) => Err(AllocError),
        }
    }

    /// Whether the used literals and the steps, each cancelling a place, give a number beyond the range where `what` says.
    pub fn range_holds(
        &self,
        used: &[Lit],
        steps: &[RowStep],
        what: &RangeWhat,
    ) -> Result<bool, AllocError>
        ensures { IfOk result (λ b. b ≡ range_holds self.now used.now steps.now what.now) }
    {
        if !shows_range(self.alloc, self.atoms.as_slice(), used, steps, what)? {
            return Ok(false);
        }
        Ok(!some_both_ways(self.alloc, used)?)
    }

    fn is_live(&self, number: u32) -> bool
        ensures { result ≡ is_live self.now number }
    {
        self.clause(number).is_some()
    }

    fn all_live(&self, numbers: &[u32]) -> bool
        ensures { result ≡ list_all (is_live self.now) numbers.now }
    {
        numbers.iter().all(|number| self.is_live(*number))
    }

    // Takes the clause that was made under the next number.
    fn grow(&mut self, lits: &[Lit]) -> Result<(), AllocError>
        requires named { atoms_below (length self.old.atoms) lits.now ≡ true }
        requires apart { distinct lits.now ≡ true }
        ensures exact { OnOk result (self.new ≡ grown self.old lits.now) }
        ensures kept { OnErr result (self.new ≡ self.old) }
    {
        if self.slots.len() >= u32::MAX as usize {
            return Err(AllocError);
        }
        self.slots.push(lits)?;
        self.empty = self.empty || lits.is_empty();
        Ok(())
    }

    fn resolve(&mut self, left: u32, right: u32, pivot: u32) -> Result<(), LineRefused>
        ensures exact { MatchResult result (λ _. resolved self.old left right pivot ≡ Ok self.new)
            (λ e. IsTold e (resolved self.old left right pivot)) }
        ensures kept { OnErr result (self.new ≡ self.old) }
    {
        let count = self.clause_count();
        if left >= count || right >= count || pivot >= self.atom_count() {
            return Err(LineRefused::Bad(Why::Place));
        }
        let mut made = mem::replace(&mut self.made, Vec::new(self.alloc));
        let told = self.resolve_into(&mut made, left, right, pivot);
        self.made = made;
        told
    }

    // Makes the resolvent in a list, and takes it under the next number.
    fn resolve_into(
        &mut self,
        made: &mut Vec<Lit>,
        left: u32,
        right: u32,
        pivot: u32,
    ) -> Result<(), LineRefused>
        requires left { left < length self.old.slots }
        requires right { right < length self.old.slots }
        requires pivot { pivot < length self.old.atoms }
        ensures exact { MatchResult result (λ _. resolved self.old left right pivot ≡ Ok self.new)
            (λ e. IsTold e (resolved self.old left right pivot)) }
        ensures kept { OnErr result (self.new ≡ self.old) }
    {
        made.clear();
        let (Some(left), Some(right)) = (
            self.slots.get(left as usize),
            self.slots.get(right as usize),
        ) else {
            return Err(LineRefused::Bad(Why::Dropped));
        };
        match put_resolvent(self.alloc, made, left, right, pivot) {
            Ok(true) => {}
            Ok(false) => return Err(LineRefused::Bad(Why::Pivot)),
            Err(_) => return Err(LineRefused::Memory),
        }
        let Ok(()) = self.grow(made.as_slice()) else {
            return Err(LineRefused::Memory);
        };
        Ok(())
    }

    fn farkas(&mut self, used: &[Lit], steps: &[RowStep]) -> Result<(), LineRefused>
        ensures exact { MatchResult result (λ _. combined self.old used.now steps.now ≡ Ok self.new)
            (λ e. IsTold e (combined self.old used.now steps.now)) }
        ensures kept { OnErr result (self.new ≡ self.old) }
    {
        match refutes_used(self.alloc, self.atoms.as_slice(), used, steps) {
            Ok(true) => {}
            Ok(false) => return Err(LineRefused::Bad(Why::Contradiction)),
            Err(refused) => return Err(refused),
        }
        let Ok(clause) = Clause::of_opposites(self.alloc, used) else {
            return Err(LineRefused::Memory);
        };
        clause.law_distinct();
        let grown = self.grow(clause.lits());
        drop(clause);
        let Ok(()) = grown else {
            return Err(LineRefused::Memory);
        };
        Ok(())
    }

    fn split(
        &mut self,
        place: u32,
        at: &i128,
        used: &[Lit],
        steps: &[RowStep],
        low: u32,
        high: u32,
        values: &[i128],
    ) -> Result<(), LineRefused>
        ensures exact { MatchResult result
            (λ _. split self.old place at.now used.now steps.now low high values.now ≡ Ok self.new)
            (λ e. IsTold e (split self.old place at.now used.now steps.now low high values.now)) }
        ensures kept { OnErr result (self.new ≡ self.old) }
    {
        if place >= self.ints {
            return Err(LineRefused::Bad(Why::Place));
        }
        let named = [low as usize, high as usize];
        let rows = match kept_rows(self.alloc, self.atoms.as_slice(), used, steps, &named) {
            Ok(rows) => rows,
            Err(refused) => return Err(refused),
        };
        let kept = rows.as_slice();
        let Some(low_row) = kept_at(kept, low as usize) else {
            return Err(LineRefused::Bad(Why::Place));
        };
        let Some(high_row) = kept_at(kept, high as usize) else {
            return Err(LineRefused::Bad(Why::Place));
        };
        let Ok((low_copy, high_copy)) = own_rows(self.alloc, low_row, high_row) else {
            return Err(LineRefused::Memory);
        };
        drop(rows);
        self.split_after(place, at, &low_copy, &high_copy, values)
    }

    fn split_after(
        &mut self,
        place: u32,
        at: &i128,
        low: &Row,
        high: &Row,
        values: &[i128],
    ) -> Result<(), LineRefused>
        requires { place < self.old.ints }
        ensures exact { MatchResult result (λ _. split_after self.old place at.now
            (low.now ∷ high.now ∷ []) 0 1 values.now ≡ Ok self.new)
            (λ e. IsTold e (split_after self.old place at.now
            (low.now ∷ high.now ∷ []) 0 1 values.now)) }
        ensures kept { OnErr result (self.new ≡ self.old) }
    {
        let Ok(names) = names_of_two(self.alloc, place, low, high) else {
            return Err(LineRefused::Memory);
        };
        if values.len() != names.len() {
            return Err(LineRefused::Bad(Why::Place));
        }
        if self.atoms.has_at_most(place, at) {
            return Err(LineRefused::Bad(Why::SplitAgain));
        }
        if let Err(why) = split_cause(place, at, low, high, names.as_slice(), values) {
            return Err(LineRefused::Bad(why));
        }
        let Ok(row) = at_most(self.alloc, place, at) else {
            return Err(LineRefused::Memory);
        };
        let Ok(()) = self.name(row) else {
            return Err(LineRefused::Memory);
        };
        Ok(())
    }

    // Takes an atom for a row under the next number.
    fn name(&mut self, row: Row) -> Result<(), AllocError>
        requires below { places_below self.old.ints row ≡ true }
        requires good { is_row row ≡ true }
        ensures exact { OnOk result (self.new ≡ named self.old row) }
        ensures kept { OnErr result (self.new ≡ self.old) }
    {
        if self.atoms.len() >= u32::MAX as usize {
            return Err(AllocError);
        }
        self.atoms.push(row)?;
        Ok(())
    }

    fn drop_clauses(&mut self, numbers: &[u32]) -> Result<(), LineRefused>
        ensures exact { MatchResult result (λ _. dropped self.old numbers.now ≡ Ok self.new)
            (λ e. IsTold e (dropped self.old numbers.now)) }
        ensures kept { OnErr result (self.new ≡ self.old) }
    {
        if numbers.is_empty() || !all_below(numbers, self.clause_count()) {
            return Err(LineRefused::Bad(Why::Place));
        }
        let Ok(different) = are_different(self.alloc, numbers) else {
            return Err(LineRefused::Memory);
        };
        if !different || !self.all_live(numbers) {
            return Err(LineRefused::Bad(Why::Dropped));
        }
        let Ok(()) = self.slots.drop_all(numbers) else {
            return Err(LineRefused::Memory);
        };
        Ok(())
    }
}

// Copies of two rows, which may be those of atoms.
fn own_rows(alloc: Global, low: &Row, high: &Row) -> Result<(Row, Row), AllocError>
    ensures { IfOk result (λ x. (x.0 ≡ low.now) × (x.1 ≡ high.now)) }
{
    let low_copy = low.copy(alloc)?;
    let Ok(high_copy) = high.copy(alloc) else {
        drop(low_copy);
        return Err(AllocError);
    };
    Ok((low_copy, high_copy))
}

fn holds_empty(clauses: &[Clause]) -> bool
    ensures { result ≡ list_any is_empty clauses.now }
{
    clauses.iter().any(|clause| clause.is_empty())
}

fn all_below(numbers: &[u32], count: u32) -> bool
    ensures { result ≡ list_all (λ n. nat_lt n count) numbers.now }
{
    numbers.iter().all(|number| *number < count)
}

// The clauses of a problem by their numbers.
fn slots_of(alloc: Global, clauses: &[Clause]) -> Result<ClauseStore, AllocError>
    ensures { IfOk result (λ slots. slots ≡ map (λ c. Some c) clauses.now) }
{
    let mut slots = ClauseStore::new(alloc);
    for clause in clauses {
        clause.law_distinct();
        slots.push(clause.lits())?;
    }
    Ok(slots)
}

fn is_live_at(slots: &ClauseStore, number: usize) -> bool
    ensures { result ≡ is_some (slice_index_or slots.now number None) }
{
    slots.get(number).is_some()
}

fn count_live(slots: &ClauseStore) -> usize
    ensures count { result ≡ length (live_of slots.now) }
    ensures few { result ≤ length slots.now }
{
    let mut count = 0;
    for number in 0..slots.len() {
        if is_live_at(slots, number) {
            count += 1;
        }
    }
    count
}

// Whether no number stands in a list twice. It goes from the end, with the numbers behind in a set.
fn are_different(alloc: Global, numbers: &[u32]) -> Result<bool, AllocError>
    ensures { IfOk result (λ b. b ≡ are_different numbers.now) }
{
    let mut seen: HashSet<u32> = HashSet::new(alloc);
    let mut i = numbers.len();
    while i > 0 {
        i -= 1;
        match seen.insert(numbers[i]) {
            Ok(true) => {}
            Ok(false) => return Ok(false),
            Err(_) => return Err(AllocError),
        }
    }
    Ok(true)
}
