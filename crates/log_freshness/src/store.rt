// The store: where the literals of each clause stand.
ghost use Rattle.std.specs.Prelude.{◌≡◌, ◌+◌, ◌*◌, ◌<◌, ◌≤◌, ◌++◌, ◌∷◌, [], true, Some, None};
ghost use Rattle.std.specs.Prelude.{OnOk, OnErr, IfOk, IfSome};
ghost use Rattle.std.specs.Prelude.{length, nat_lt, option_copied, slice_index_or};
ghost use Rattle.std.specs.List.{list_all};
ghost use Rattle.proof_lines.specs.Clauses.{distinct};
ghost use Rattle.log_freshness.specs.Held.{most_literals, live_literals};
ghost use Rattle.log_freshness.specs.Spans.{clause_at, clauses_at, ends_within, is_apart};
ghost use Rattle.log_freshness.specs.{Spans.{marked, counts_of, SpansFit}, Clearing.{cleared}};

use proof_lines::clause::Lit;
use std::alloc::{AllocError, Global};
use std::marker::Model;

// From so many literals of dropped clauses on, these may be too many.
const MANY: usize = 4_096;

/// The most literals that a store holds, those of dropped clauses among them: 2^27, which take 1 GiB.
pub const MOST_LITERALS: usize = 134_217_728;

/// Where the literals of a clause stand, and whether it wasn't dropped.
#[derive(Clone, Copy)]
struct Span {
    first: usize,
    count: u32,
    is_live: bool,
}

// What stands in the place of a dropped clause.
const DROPPED: Span = Span {
    first: 0,
    count: 0,
    is_live: false,
};

/// Clauses by their numbers, counted from 0. Contracts see the list of them, with none where one was dropped.
#[derive(Drop)]
pub struct ClauseStore {
    lits: Vec<Lit>,
    spans: Vec<Span>,
    dropped: usize,
    alloc: Global,
}

impl Model for ClauseStore {
    ghost use Rattle.std.specs.Prelude.{List, Option};
    ghost use Rattle.proof_lines.specs.declared.clause.Lit.{Lit};
    ghost use Rattle.log_freshness.specs.Spans.{clauses_at, StoreFits};

    ghost Value = { List (Option (List Lit)) };

    ghost view = { λ a. clauses_at a.lits.items a.spans.items };

    ghost invariant = { λ a. StoreFits a.lits.items a.spans.items a.dropped };
}

impl ClauseStore {
    /// A store without clauses, which takes no memory until it grows.
    pub fn new(alloc: Global) -> ClauseStore
        ensures { result ≡ [] }
    {
        ClauseStore {
            lits: Vec::new(alloc),
            spans: Vec::new(alloc),
            dropped: 0,
            alloc,
        }
    }

    /// How many clauses there are, dropped ones among them.
    pub fn len(&self) -> usize
        ensures { result ≡ length self.now }
    {
        self.spans.len()
    }

    /// The literals of the clause of a number; nothing where there is none or it was dropped.
    pub fn get(&self, number: usize) -> Option<&[Lit]>
        ensures there { option_copied result ≡ slice_index_or self.now number None }
        ensures apart { IfSome result (λ lits. distinct lits.now ≡ true) }
    {
        if number >= self.spans.len() {
            return None;
        }
        let span = self.spans[number];
        if !span.is_live {
            return None;
        }
        let end = span.first + span.count as usize;
        Some(&self.lits[span.first..end])
    }

    /// How many literals are held, those of dropped clauses among them.
    pub fn held(&self) -> usize
        ensures most { result ≤ most_literals }
        ensures live { result ≤ 2 * live_literals self.now + 8192 }
    {
        self.lits.len()
    }

    /// Adds a clause of these literals under the next number. A refusal leaves the clauses as they were; one of 2^32 literals is
    /// answered as want of memory, and so is one with which more than the most literals would be held.
    pub fn push(&mut self, lits: &[Lit]) -> Result<(), AllocError>
        requires { distinct lits.now ≡ true }
        ensures ok { OnOk result (self.new ≡ self.old ++ Some lits.now ∷ []) }
        ensures err { OnErr result (self.new ≡ self.old) }
    {
        let Ok(count) = u32::try_from(lits.len()) else {
            return Err(AllocError);
        };
        let first = self.lits.len();
        if first + lits.len() > MOST_LITERALS {
            return Err(AllocError);
        }
        self.lits.extend_from_slice(lits)?;
        let span = Span {
            first,
            count,
            is_live: true,
        };
        let Ok(()) = self.spans.push(span) else {
            self.lits.truncate(first);
            return Err(AllocError);
        };
        Ok(())
    }

    /// Drops the clauses of some numbers, which keep them. Where dropped ones would have more than 4,096 literals and than half of
    /// all, the others are put into a new list; that takes as long as adding them. A refusal leaves the clauses as they were.
    pub fn drop_all(&mut self, numbers: &[u32]) -> Result<(), AllocError>
        requires { list_all (λ n. nat_lt n (length self.old)) numbers.now ≡ true }
        ensures ok { OnOk result (self.new ≡ cleared self.old numbers.now) }
        ensures err { OnErr result (self.new ≡ self.old) }
    {
        let Some(more) = literals_of(&self.spans, numbers) else {
            return Err(AllocError);
        };
        let Some(dropped) = self.dropped.checked_add(more) else {
            return Err(AllocError);
        };
        if dropped > MANY && dropped > self.lits.len() / 2 {
            let next = self.without(numbers)?;
            *self = next;
            return Ok(());
        }
        mark(&mut self.spans, numbers);
        self.dropped = dropped;
        Ok(())
    }

    // The same clauses, without those of some numbers, in a list without the literals of dropped ones.
    fn without(&self, numbers: &[u32]) -> Result<ClauseStore, AllocError>
        requires { list_all (λ n. nat_lt n (length self.now)) numbers.now ≡ true }
        ensures { IfOk result (λ store. store ≡ cleared self.now numbers.now) }
    {
        let mut spans = Vec::from_slice(self.alloc, &self.spans)?;
        mark(&mut spans, numbers);
        let made = copied(self.alloc, &self.lits, &spans);
        drop(spans);
        made
    }

    // Adds a number whose clause was dropped.
    fn push_dropped(&mut self) -> Result<(), AllocError>
        ensures { OnOk result (self.new ≡ self.old ++ None ∷ []) }
    {
        self.spans.push(DROPPED)?;
        Ok(())
    }

    // Adds the clause at a span of some literals, or a number whose clause was dropped.
    fn push_at(&mut self, lits: &[Lit], span: Span) -> Result<(), AllocError>
        requires within { ends_within (length lits.now) span ≡ true }
        requires apart { is_apart (clause_at lits.now span) ≡ true }
        ensures { OnOk result (self.new ≡ self.old ++ clause_at lits.now span ∷ []) }
    {
        if !span.is_live {
            return self.push_dropped();
        }
        let end = span.first + span.count as usize;
        self.push(&lits[span.first..end])
    }
}

// A store of the clauses at some spans of a list of literals.
fn copied(alloc: Global, lits: &[Lit], spans: &[Span]) -> Result<ClauseStore, AllocError>
    requires { SpansFit lits.now spans.now }
    ensures { IfOk result (λ store. store ≡ clauses_at lits.now spans.now) }
{
    let mut store = ClauseStore::new(alloc);
    for span in spans {
        store.push_at(lits, *span)?;
    }
    Ok(store)
}

// How many literals the clauses of some numbers have.
fn literals_of(spans: &[Span], numbers: &[u32]) -> Option<usize>
    requires { list_all (λ n. nat_lt n (length spans.now)) numbers.now ≡ true }
    ensures { IfSome result (λ n. n ≡ counts_of spans.now numbers.now) }
{
    let mut sum: usize = 0;
    for number in numbers {
        sum = sum.checked_add(spans[*number as usize].count as usize)?;
    }
    Some(sum)
}

// Marks the clauses of some numbers as dropped.
fn mark(spans: &mut Vec<Span>, numbers: &[u32])
    requires { list_all (λ n. nat_lt n (length spans.old.items)) numbers.now ≡ true }
    ensures { spans.new.items ≡ marked spans.old.items numbers.now }
{
    for number in numbers {
        spans[*number as usize] = DROPPED;
    }
}
