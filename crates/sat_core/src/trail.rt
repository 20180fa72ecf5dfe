// Trails: the literals that a search takes to be true, in the order in which it came to them.
ghost use Rattle.std.specs.Prelude.{◌≡◌, ◌<◌, ◌≤◌, ◌+◌, true, OnOk, OnErr, IfOk, IfSome, IfNone};
ghost use Rattle.std.specs.Prelude.{MatchOption, false, [], ◌∷◌, ◌++◌, reverse};
ghost use Rattle.proof_lines.specs.Clauses.{has, flip};
ghost use Rattle.sat_core.specs.Trails.{in_trail, negated, is_assigned, is_false, is_unit};
ghost use Rattle.sat_core.specs.Trails.{open_in, before_last, has_decision, is_done};
ghost use Rattle.sat_core.specs.{Trails.{others_false}, Places.{place_of, ArePlaces}};

use crate::decisions;
use crate::decisions::{forget, note, top};
use crate::places::{enter, leave, lies_before, place_at};
use proof_lines::Lit;
use proof_lines::clause::holds;
use std::alloc::{AllocError, Global};
use std::marker::Model;

/// A literal of a trail, with the number of the clause that forced it. Without a reason it is a decision.
#[derive(Clone, Copy, PartialEq, Eq, Debug)]
pub struct Entry {
    pub lit: Lit,
    pub reason: Option<u32>,
}

/// The literals that a search takes to be true. Contracts see the newest first. A question about one literal, or
/// about the last decision, takes the same time however many there are.
#[derive(Drop)]
pub struct Trail {
    entries: Vec<Entry>,
    positive: Vec<Option<usize>>,
    negative: Vec<Option<usize>>,
    decisions: Vec<usize>,
}

impl Model for Trail {
    ghost use Rattle.std.specs.{Prelude.{List, reverse}, Coded.{coded_list}};
    ghost use Rattle.sat_core.specs.{declared.trail.Entry.{Entry}, Codes.{entry_code}};
    ghost use Rattle.sat_core.specs.Places.{IsIndexed};

    ghost Value = { List Entry };

    ghost coded = { coded_list entry_code };

    ghost view = { λ a. reverse a.entries.items };

    ghost invariant = { λ a. IsIndexed a.positive.items a.negative.items a.decisions.items
        (reverse a.entries.items) };
}

// Adds an entry to the entries, and its literal to the places of its sign. A refused one leaves them as they were.
fn put(
    entries: &mut Vec<Entry>,
    positive: &mut Vec<Option<usize>>,
    negative: &mut Vec<Option<usize>>,
    entry: Entry,
) -> Result<(), AllocError>
    requires positive { ArePlaces positive.old.items true (reverse entries.old.items) }
    requires negative { ArePlaces negative.old.items false (reverse entries.old.items) }
    ensures ok { OnOk result (entries.new.items ≡ entries.old.items ++ entry ∷ []) }
    ensures err { OnErr result (entries.new.items ≡ entries.old.items) }
    ensures positive { ArePlaces positive.new.items true (reverse entries.new.items) }
    ensures negative { ArePlaces negative.new.items false (reverse entries.new.items) }
{
    if entry.lit.positive {
        enter(entries, positive, entry)
    } else {
        enter(entries, negative, entry)
    }
}

impl Trail {
    /// The trail without literals.
    pub fn new(alloc: Global) -> Trail
        ensures { result ≡ [] }
    {
        Trail {
            entries: Vec::new(alloc),
            positive: Vec::new(alloc),
            negative: Vec::new(alloc),
            decisions: Vec::new(alloc),
        }
    }

    /// The same, with room for one literal of each of so many atoms.
    pub fn with_room(alloc: Global, atoms: usize) -> Result<Trail, AllocError>
        ensures { IfOk result (λ trail. trail ≡ []) }
    {
        let entries = Vec::with_capacity(alloc, atoms)?;
        let positive = Vec::with_capacity(alloc, atoms)?;
        let negative = Vec::with_capacity(alloc, atoms)?;
        Ok(Trail {
            entries,
            positive,
            negative,
            decisions: Vec::new(alloc),
        })
    }

    /// Adds an entry, which is the newest then. A refused one leaves the trail as it was.
    pub fn push(&mut self, entry: Entry) -> Result<(), AllocError>
        ensures ok { OnOk result (self.new ≡ entry ∷ self.old) }
        ensures err { OnErr result (self.new ≡ self.old) }
    {
        note(&mut self.decisions, self.entries.len(), entry)?;
        let Ok(()) = put(
            &mut self.entries,
            &mut self.positive,
            &mut self.negative,
            entry,
        ) else {
            forget(&mut self.decisions, entry);
            return Err(AllocError);
        };
        Ok(())
    }

    /// Takes the newest entry away.
    pub fn pop(&mut self) -> Option<Entry>
        ensures { MatchOption result ((self.old ≡ []) × (self.new ≡ []))
            (λ e. self.old ≡ e ∷ self.new) }
    {
        let entry = self.entries.pop()?;
        forget(&mut self.decisions, entry);
        if entry.lit.positive {
            leave(&mut self.positive, self.entries.as_slice(), entry);
        } else {
            leave(&mut self.negative, self.entries.as_slice(), entry);
        }
        Some(entry)
    }

    /// Takes the last decision level away: the last decision, and what stands after it; all entries, where nothing was decided.
    pub fn cut(&mut self)
        ensures { self.new ≡ before_last self.old }
    {
        while let Some(entry) = self.pop() {
            if entry.reason.is_none() {
                return;
            }
        }
    }

    // Where a literal stands, if it is there.
    fn place(&self, lit: Lit) -> Option<usize>
        ensures { result ≡ place_of self.now lit }
    {
        if lit.positive {
            place_at(self.positive.as_slice(), lit.atom)
        } else {
            place_at(self.negative.as_slice(), lit.atom)
        }
    }

    /// Whether the literal is in the trail.
    pub fn holds(&self, lit: Lit) -> bool
        ensures { result ≡ in_trail self.now lit }
    {
        self.place(lit).is_some()
    }

    /// Whether the literal's negation is in the trail.
    pub fn negates(&self, lit: Lit) -> bool
        ensures { result ≡ negated self.now lit }
    {
        self.holds(lit.opposite())
    }

    /// Whether the trail has a literal of the atom.
    pub fn is_assigned(&self, atom: u32) -> bool
        ensures { result ≡ is_assigned self.now atom }
    {
        self.holds(Lit {
            atom,
            positive: true,
        }) || self.holds(Lit {
            atom,
            positive: false,
        })
    }

    /// Whether a literal was decided.
    pub fn decides(&self) -> bool
        ensures { result ≡ has_decision self.now }
    {
        decisions::is_some(self.decisions.as_slice())
    }

    /// How many literals of a clause don't have their negations before the last decision.
    pub fn count_open_before(&self, lits: &[Lit]) -> usize
        ensures { result ≡ open_in (before_last self.now) lits.now }
    {
        let end = top(self.decisions.as_slice());
        lits.iter()
            .filter(|lit| !lies_before(end, self.place(lit.opposite())))
            .count()
    }

    /// Whether all literals of a clause have their negations in the trail.
    pub fn is_false(&self, lits: &[Lit]) -> bool
        ensures { result ≡ is_false self.now lits.now }
    {
        lits.iter().all(|lit| self.negates(*lit))
    }

    fn others_are_false(&self, lits: &[Lit], lit: Lit) -> bool
        ensures { result ≡ others_false self.now lits.now lit }
    {
        lits.iter().all(|x| x.same(lit) || self.negates(*x))
    }

    /// Whether a clause is unit with this remaining literal.
    pub fn is_unit(&self, lits: &[Lit], lit: Lit) -> bool
        ensures { result ≡ is_unit self.now lits.now lit }
    {
        holds(lits, lit) && (self.others_are_false(lits, lit) && !self.is_assigned(lit.atom))
    }

    /// Whether a chain is done with a clause.
    pub fn is_done(&self, lits: &[Lit]) -> bool
        ensures { result ≡ is_done self.now lits.now }
    {
        if self.decides() {
            self.count_open_before(lits) <= 1
        } else {
            lits.len() <= 0
        }
    }
}
