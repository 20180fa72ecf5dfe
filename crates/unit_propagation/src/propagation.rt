// Propagation: what stands in the way of a decision, by the watched literals.
ghost use Rattle.std.specs.Prelude.{◌≡◌, ◌<◌, ◌^◌, ◌∷◌, [], ℕ, List, length, IfOk, OnOk, None};
ghost use Rattle.proof_lines.specs.declared.clause.Lit.{Lit as PlainLit};
ghost use Rattle.sat_core.specs.{declared.trail.Entry.{Entry as PlainEntry}, Trails.{IsTrail}};
ghost use Rattle.sat_core.specs.Searching.{IsFound};
ghost use Rattle.unit_propagation.specs.Watches.{code, AreKept, AreWatched, IsResumed};
ghost use Rattle.unit_propagation.specs.Ready.{IsReady, StayWatched, MayPush};

use crate::lists::{code, enter, exchange};
use crate::looking::ClauseStatus;
use crate::watches::Watches;
use items::ShortList;
use proof_lines::{Lit, Problem};
use sat_core::finding::Found;
use sat_core::growing::{clause_count, lits_of};
use sat_core::{Entry, Trail};
use std::alloc::{AllocError, Global};

/// The watched literals, with the number of a false clause if one was met, and the clauses that are still to be looked at.
#[derive(Drop)]
pub struct Propagation {
    pub watches: Watches,
    pub conflict: Option<u32>,
    pub left: ShortList,
}

impl Propagation {
    /// No clause is watched yet.
    pub fn new(alloc: Global) -> Propagation
        ensures { result.watches.pairs.items ≡ [] }
    {
        Propagation {
            watches: Watches::new(alloc),
            conflict: None,
            left: ShortList::new(alloc),
        }
    }

    /// Goes on under a trail that was cut back: the clauses that watch go on doing so, and the others watch from now on.
    pub fn resume(
        &mut self,
        alloc: Global,
        problem: &Problem,
        trail: &Trail,
    ) -> Result<(), AllocError>
        requires few { length problem.now.clauses < 2 ^ 32 }
        requires resumed { IsResumed problem.now.clauses trail.now self.old.watches }
        ensures { OnOk result (IsReady problem.now.clauses trail.now self.new) }
    {
        self.conflict = None;
        self.watches.units.clear();
        self.watches.make_room(problem)?;
        let known = self.watches.pairs.len() as u32;
        for clause in known..clause_count(problem) {
            let lits = lits_of(problem, clause);
            self.watches.attach(alloc, trail, lits, clause)?;
        }
        Ok(())
    }

    // Puts the clauses that are left back into the list of the literal that they watched.
    fn put_back(&mut self, alloc: Global, gone: Lit) -> Result<(), AllocError>
        ensures kept { OnOk result ((n : ℕ) (cs : List (List PlainLit)) (t : List PlainEntry)
            → AreKept n cs t (code gone) self.old.left self.old.watches
            → AreKept n cs t 0 [] self.new.watches) }
        ensures conflict { self.new.conflict ≡ self.old.conflict }
    {
        while let Some(clause) = self.left.pop() {
            enter(alloc, &mut self.watches.lists, gone, clause)?;
        }
        Ok(())
    }

    // Looks at the clauses that are left of those that watched a literal.
    fn follow(
        &mut self,
        alloc: Global,
        problem: &Problem,
        trail: &Trail,
        gone: Lit,
    ) -> Result<(), AllocError>
        requires few { length problem.now.clauses < 2 ^ 32 }
        requires watched { AreWatched (length problem.now.clauses) problem.now.clauses trail.now
            (code gone) self.old.left self.old.watches }
        ensures { OnOk result (IsReady problem.now.clauses trail.now self.new) }
    {
        self.conflict = None;
        while let Some(clause) = self.left.pop() {
            if clause < clause_count(problem) {
                let lits = lits_of(problem, clause);
                if !self.watches.visit_watch(alloc, trail, lits, clause, gone)? {
                    self.conflict = Some(clause);
                    self.put_back(alloc, gone)?;
                    return Ok(());
                }
            }
        }
        Ok(())
    }

    /// Adds an entry to the trail, and looks at all clauses that watch the opposite of its literal.
    pub fn push(
        &mut self,
        alloc: Global,
        problem: &Problem,
        trail: &mut Trail,
        entry: Entry,
    ) -> Result<(), AllocError>
        requires few { length problem.now.clauses < 2 ^ 32 }
        requires watched { MayPush entry.reason problem.now.clauses trail.old self.old.watches }
        ensures pushed { OnOk result (trail.new ≡ entry ∷ trail.old) }
        ensures ready { OnOk result (IsReady problem.now.clauses trail.new self.new) }
    {
        trail.push(entry)?;
        let gone = entry.lit.opposite();
        self.left.clear();
        exchange(&mut self.watches.lists, code(gone), &mut self.left);
        self.follow(alloc, problem, trail, gone)
    }

    /// A false clause, or else a unit one, or else nothing.
    pub fn find(
        &mut self,
        alloc: Global,
        problem: &Problem,
        trail: &Trail,
    ) -> Result<Found, AllocError>
        requires few { length problem.now.clauses < 2 ^ 32 }
        requires trail { IsTrail problem.now.clauses trail.now }
        requires ready { IsReady problem.now.clauses trail.now self.old }
        ensures found { IfOk result (λ found. IsFound found problem.now.clauses trail.now) }
        ensures watched { IfOk result
            (λ found. StayWatched found problem.now.clauses trail.now self.new.watches) }
    {
        if let Some(clause) = self.conflict {
            let _ = lits_of(problem, clause);
            return Ok(Found::Conflict(clause));
        }
        while let Some(clause) = self.watches.units.pop() {
            if clause < clause_count(problem) {
                let lits = lits_of(problem, clause);
                match self.watches.consider(alloc, trail, lits, clause)? {
                    ClauseStatus::False => return Ok(Found::Conflict(clause)),
                    ClauseStatus::Unit(lit) => {
                        self.watches.units.push(clause)?;
                        return Ok(Found::Forced(clause, lit));
                    }
                    ClauseStatus::Open => {}
                }
            }
        }
        Ok(Found::Nothing)
    }
}
