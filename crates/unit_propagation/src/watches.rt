// The literals that the clauses watch.
ghost use Rattle.std.specs.Prelude.{◌≡◌, ◌≢◌, ◌<◌, ◌≤◌, ◌∷◌, ◌+◌, [], ℕ, true, false, length, slice_set, IfOk, OnOk, ◌⊎◌};
ghost use Rattle.proof_lines.specs.Clauses.{distinct};
ghost use Rattle.sat_core.specs.Trails.{is_false, before_last, has_decision, open_in};
ghost use Rattle.unit_propagation.specs.Watches.{is_among, list_at, code, pair_at, rests, is_quiet, Keeps, IsKept, IsMoved, IsLooked, IsLook};

use crate::lists::{code, enter};
use crate::looking::{ClauseStatus, Watched, look_at, pair_of, rests};
use items::{Items, ShortList};
use proof_lines::{Lit, Problem};
use sat_core::Trail;
use std::alloc::{AllocError, Global};

/// The literals that each clause watches, the clauses that watch each literal, and the clauses that may be unit.
#[derive(Drop)]
pub struct Watches {
    pub pairs: Vec<Watched>,
    pub lists: Vec<ShortList>,
    pub units: Items<u32>,
}

// The number of no literal's list.
const NO_LIST: usize = usize::MAX;

// Sees to it that a clause stands in the list of a literal. It stands in those of the literals that it watched, but for the list
// that is being gone through.
fn list(
    alloc: Global,
    lists: &mut Vec<ShortList>,
    clause: u32,
    watched: Watched,
    from: usize,
    lit: Lit,
) -> Result<(), AllocError>
    requires first { code watched.first ≢ from
        → is_among clause (list_at lists.old.items (code watched.first)) ≡ true }
    requires second { code watched.second ≢ from
        → is_among clause (list_at lists.old.items (code watched.second)) ≡ true }
    ensures kept { OnOk result (Keeps lists.old.items lists.new.items) }
    ensures there { OnOk result (is_among clause (list_at lists.new.items (code lit)) ≡ true) }
{
    if code(lit) != from && (watched.first.same(lit) || watched.second.same(lit)) {
        return Ok(());
    }
    enter(alloc, lists, lit, clause)
}

// Adds a clause to the lists of two literals, which may be one.
fn enter_both(
    alloc: Global,
    lists: &mut Vec<ShortList>,
    pair: Watched,
    clause: u32,
) -> Result<(), AllocError>
    ensures kept { OnOk result (Keeps lists.old.items lists.new.items) }
    ensures first { OnOk result (is_among clause (list_at lists.new.items (code pair.first))
        ≡ true) }
    ensures second { OnOk result (is_among clause (list_at lists.new.items (code pair.second))
        ≡ true) }
{
    enter(alloc, lists, pair.first, clause)?;
    if pair.second.same(pair.first) {
        return Ok(());
    }
    enter(alloc, lists, pair.second, clause)
}

impl Watches {
    /// Nothing is watched.
    pub(crate) fn new(alloc: Global) -> Watches
        ensures { result.pairs.items ≡ [] }
    {
        Watches {
            pairs: Vec::new(alloc),
            lists: Vec::new(alloc),
            units: Items::new(alloc),
        }
    }

    /// Makes room for the clauses and the atoms of a problem, where nothing is watched yet.
    pub(crate) fn make_room(&mut self, problem: &Problem) -> Result<(), AllocError>
        ensures pairs { self.new.pairs.items ≡ self.old.pairs.items }
        ensures lists { self.new.lists.items ≡ self.old.lists.items }
        ensures units { self.new.units ≡ self.old.units }
    {
        if !self.pairs.is_empty() {
            return Ok(());
        }
        self.pairs.reserve(problem.clauses.len())?;
        self.lists.reserve(problem.atoms.len().saturating_mul(2))
    }

    // Lets a clause watch two literals in place of those that it watched.
    fn change(
        &mut self,
        alloc: Global,
        clause: u32,
        from: usize,
        watched: Watched,
        pair: Watched,
    ) -> Result<(), AllocError>
        requires there { clause < length self.old.pairs.items }
        requires first { code watched.first ≢ from
            → is_among clause (list_at self.old.lists.items (code watched.first)) ≡ true }
        requires second { code watched.second ≢ from
            → is_among clause (list_at self.old.lists.items (code watched.second)) ≡ true }
        ensures pairs { OnOk result (self.new.pairs.items
            ≡ slice_set self.old.pairs.items clause pair) }
        ensures kept { OnOk result (Keeps self.old.lists.items self.new.lists.items) }
        ensures first { OnOk result (is_among clause
            (list_at self.new.lists.items (code pair.first)) ≡ true) }
        ensures second { OnOk result (is_among clause
            (list_at self.new.lists.items (code pair.second)) ≡ true) }
        ensures units { self.new.units ≡ self.old.units }
    {
        list(alloc, &mut self.lists, clause, watched, from, pair.first)?;
        list(alloc, &mut self.lists, clause, watched, from, pair.second)?;
        self.pairs[clause as usize] = pair;
        Ok(())
    }

    // The literals that a clause watches.
    fn pair(&self, clause: u32) -> Watched
        requires { clause < length self.now.pairs.items }
        ensures { result ≡ pair_at self.now.pairs.items clause }
    {
        self.pairs[clause as usize]
    }

    // Looks for other literals to watch, for a clause that isn't at rest with those that it watches. It stands in their lists, but for
    // the list that is being gone through.
    fn renew(
        &mut self,
        alloc: Global,
        trail: &Trail,
        lits: &[Lit],
        clause: u32,
        from: usize,
        watched: Watched,
    ) -> Result<ClauseStatus, AllocError>
        requires there { clause < length self.old.pairs.items }
        requires kept { IsKept lits.now trail.now from
            (clause ∷ []) self.old.lists.items clause watched }
        requires restless { rests trail.now watched ≡ false }
        ensures moved { OnOk result (IsMoved clause self.old self.new) }
        ensures kept { OnOk result (IsKept lits.now trail.now 0 [] self.new.lists.items clause
            (pair_at self.new.pairs.items clause)) }
        ensures look { IfOk result (λ look. IsLook look lits.now trail.now
            (pair_at self.new.pairs.items clause)) }
        ensures units { OnOk result (self.new.units ≡ self.old.units) }
        ensures many { OnOk result (length self.new.pairs.items ≡ length self.old.pairs.items) }
    {
        let looked = look_at(trail, lits, watched);
        self.change(alloc, clause, from, watched, looked.pair)?;
        Ok(looked.look)
    }

    /// Looks at a clause that stood in the list of a literal that has become false. Answers whether it isn't false itself.
    pub(crate) fn visit_watch(
        &mut self,
        alloc: Global,
        trail: &Trail,
        lits: &[Lit],
        clause: u32,
        gone: Lit,
    ) -> Result<bool, AllocError>
        requires there { clause < length self.old.pairs.items }
        requires kept { IsKept lits.now trail.now (code gone)
            (clause ∷ []) self.old.lists.items clause (pair_at self.old.pairs.items clause) }
        ensures moved { OnOk result (IsMoved clause self.old self.new) }
        ensures kept { OnOk result (IsKept lits.now trail.now 0 [] self.new.lists.items clause
            (pair_at self.new.pairs.items clause)) }
        ensures looked { IfOk result (λ b. IsLooked b lits.now trail.now self.new.units clause
            (pair_at self.new.pairs.items clause)) }
        ensures many { OnOk result (length self.new.pairs.items ≡ length self.old.pairs.items) }
    {
        let watched = self.pair(clause);
        if rests(trail, watched) {
            enter(alloc, &mut self.lists, gone, clause)?;
            return Ok(true);
        }
        match self.renew(alloc, trail, lits, clause, code(gone), watched)? {
            ClauseStatus::False => Ok(false),
            ClauseStatus::Unit(_) => {
                self.units.push(clause)?;
                Ok(true)
            }
            ClauseStatus::Open => Ok(true),
        }
    }

    /// Lets a further clause watch two of its literals.
    pub(crate) fn attach(
        &mut self,
        alloc: Global,
        trail: &Trail,
        lits: &[Lit],
        clause: u32,
    ) -> Result<(), AllocError>
        requires new { length self.old.pairs.items ≡ clause }
        requires set { distinct lits.now ≡ true }
        requires not_false { is_false trail.now lits.now ≡ false }
        requires wide { has_decision trail.now ≡ true
            → 2 ≤ open_in (before_last trail.now) lits.now }
        ensures moved { OnOk result (IsMoved clause self.old self.new) }
        ensures kept { OnOk result (IsKept lits.now trail.now 0 [] self.new.lists.items clause
            (pair_at self.new.pairs.items clause)) }
        ensures quiet { OnOk result (is_quiet trail.now [] self.new.units clause
            (pair_at self.new.pairs.items clause) ≡ true) }
        ensures many { OnOk result (length self.new.pairs.items ≡ clause + 1) }
    {
        let pair = pair_of(trail, lits);
        self.pairs.push(pair)?;
        enter_both(alloc, &mut self.lists, pair, clause)?;
        if rests(trail, pair) {
            return Ok(());
        }
        self.units.push(clause)?;
        Ok(())
    }

    /// Looks again at a clause that was noted as one that may be unit.
    pub(crate) fn consider(
        &mut self,
        alloc: Global,
        trail: &Trail,
        lits: &[Lit],
        clause: u32,
    ) -> Result<ClauseStatus, AllocError>
        requires there { clause < length self.old.pairs.items }
        requires kept { IsKept lits.now trail.now 0 [] self.old.lists.items clause
            (pair_at self.old.pairs.items clause) }
        ensures moved { OnOk result (IsMoved clause self.old self.new) }
        ensures kept { OnOk result (IsKept lits.now trail.now 0 [] self.new.lists.items clause
            (pair_at self.new.pairs.items clause)) }
        ensures look { IfOk result (λ look. IsLook look lits.now trail.now
            (pair_at self.new.pairs.items clause)) }
        ensures units { OnOk result (self.new.units ≡ self.old.units) }
        ensures many { OnOk result (length self.new.pairs.items ≡ length self.old.pairs.items) }
    {
        let watched = self.pair(clause);
        if rests(trail, watched) {
            return Ok(ClauseStatus::Open);
        }
        self.renew(alloc, trail, lits, clause, NO_LIST, watched)
    }
}
