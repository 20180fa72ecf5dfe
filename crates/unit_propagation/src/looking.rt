// What a clause is under a trail, and which of its literals it is to watch.
ghost use Rattle.std.specs.Prelude.{◌≡◌, ◌≤◌, ◌⊎◌, not, true, false, MatchOption};
ghost use Rattle.proof_lines.specs.Clauses.{has, same_lit, distinct};
ghost use Rattle.sat_core.specs.Trails.{in_trail, negated, is_false, others_false, before_last, has_decision, open_in};
ghost use Rattle.unit_propagation.specs.Watches.{rests, turned, IsSteady, IsLook};

use proof_lines::Lit;
use sat_core::Trail;

/// The literals that a clause watches. A clause with one literal watches that one twice.
#[derive(Clone, Copy)]
pub struct Watched {
    pub first: Lit,
    pub second: Lit,
}

/// What a clause is under a trail.
#[derive(Clone, Copy)]
pub enum ClauseStatus {
    /// All literals are false.
    False,
    /// All literals but this one are false, and this one has no value.
    Unit(Lit),
    /// Neither.
    Open,
}

/// The literals in the other order.
pub(crate) fn turned(pair: Watched) -> Watched
    ensures { result ≡ turned pair }
{
    Watched {
        first: pair.second,
        second: pair.first,
    }
}

/// Whether a clause that watches these literals is at rest.
pub(crate) fn rests(trail: &Trail, pair: Watched) -> bool
    ensures { result ≡ rests trail.now pair }
{
    trail.holds(pair.first)
        || (trail.holds(pair.second)
            || (!pair.first.same(pair.second)
                && (!trail.negates(pair.first) && !trail.negates(pair.second))))
}

// A literal that isn't false.
fn open_in(trail: &Trail, lits: &[Lit]) -> Option<Lit>
    ensures { MatchOption result (is_false trail.now lits.now ≡ true)
        (λ l. (has lits.now l ≡ true) × (negated trail.now l ≡ false)) }
{
    for lit in lits {
        if !trail.negates(*lit) {
            return Some(*lit);
        }
    }
    None
}

// Another literal that isn't false.
fn open_beside(trail: &Trail, lits: &[Lit], one: Lit) -> Option<Lit>
    ensures { MatchOption result (others_false trail.now lits.now one ≡ true)
        (λ l. (has lits.now l ≡ true) × (negated trail.now l ≡ false) × (same_lit l one ≡ false)) }
{
    for lit in lits {
        if !lit.same(one) && !trail.negates(*lit) {
            return Some(*lit);
        }
    }
    None
}

// Whether the negation of a literal isn't in the trail before the last decision.
fn is_open_before(trail: &Trail, lit: Lit) -> bool
    ensures { result ≡ not (negated (before_last trail.now) lit) }
{
    trail.count_open_before(&[lit]) == 1
}

// Another literal that isn't false before the last decision.
fn open_before_beside(trail: &Trail, lits: &[Lit], one: Lit) -> Option<Lit>
    ensures { MatchOption result (others_false (before_last trail.now) lits.now one ≡ true)
        (λ l. (has lits.now l ≡ true) × (negated (before_last trail.now) l ≡ false)
        × (same_lit l one ≡ false)) }
{
    for lit in lits {
        if !lit.same(one) && is_open_before(trail, *lit) {
            return Some(*lit);
        }
    }
    None
}

// A literal to watch beside one that isn't false: another that isn't false, or else one that was falsified at the last level. A clause
// with one literal watches that one twice.
fn beside(trail: &Trail, lits: &[Lit], one: Lit) -> Lit
    requires set { distinct lits.now ≡ true }
    requires one { has lits.now one ≡ true }
    requires open { negated trail.now one ≡ false }
    requires wide { has_decision trail.now ≡ true → 2 ≤ open_in (before_last trail.now) lits.now }
    ensures second { has lits.now result ≡ true }
    ensures steady { IsSteady trail.now (record { first = one; second = result }) }
{
    if let Some(two) = open_beside(trail, lits, one) {
        return two;
    }
    match open_before_beside(trail, lits, one) {
        Some(other) => other,
        None => one,
    }
}

/// Two literals for a clause to watch that isn't false.
pub(crate) fn pair_of(trail: &Trail, lits: &[Lit]) -> Watched
    requires set { distinct lits.now ≡ true }
    requires not_false { is_false trail.now lits.now ≡ false }
    requires wide { has_decision trail.now ≡ true → 2 ≤ open_in (before_last trail.now) lits.now }
    ensures first { has lits.now result.first ≡ true }
    ensures second { has lits.now result.second ≡ true }
    ensures steady { IsSteady trail.now result }
    ensures open { negated trail.now result.first ≡ false }
{
    let Some(one) = open_in(trail, lits) else {
        unreachable!();
    };
    let second = beside(trail, lits, one);
    Watched { first: one, second }
}

// The watched literals, a false one first, if one is false.
fn facing(trail: &Trail, watched: Watched) -> Watched
    ensures { (result ≡ watched) ⊎ (result ≡ turned watched) }
{
    if trail.negates(watched.first) {
        watched
    } else {
        turned(watched)
    }
}

/// What a clause was found to be, and the literals that it watches from then on.
#[derive(Clone, Copy)]
pub struct Looked {
    pub look: ClauseStatus,
    pub pair: Watched,
}

// Looks for literals to watch in place of two of which none is true: for the first one that isn't false, and for the second too, where
// it is false and there is one more.
fn look_past(trail: &Trail, lits: &[Lit], pair: Watched) -> Looked
    requires first { has lits.now pair.first ≡ true }
    requires second { has lits.now pair.second ≡ true }
    requires first_not_true { in_trail trail.now pair.first ≡ false }
    requires second_not_true { in_trail trail.now pair.second ≡ false }
    ensures first { has lits.now result.pair.first ≡ true }
    ensures second { has lits.now result.pair.second ≡ true }
    ensures steady { IsSteady trail.now pair → IsSteady trail.now result.pair }
    ensures look { IsLook result.look lits.now trail.now result.pair }
{
    let Some(one) = open_beside(trail, lits, pair.second) else {
        if trail.negates(pair.second) {
            return Looked {
                look: ClauseStatus::False,
                pair,
            };
        }
        return Looked {
            look: ClauseStatus::Unit(pair.second),
            pair,
        };
    };
    let next = Watched {
        first: one,
        second: pair.second,
    };
    if rests(trail, next) {
        return Looked {
            look: ClauseStatus::Open,
            pair: next,
        };
    }
    match open_beside(trail, lits, one) {
        Some(two) => Looked {
            look: ClauseStatus::Open,
            pair: Watched {
                first: one,
                second: two,
            },
        },
        None => Looked {
            look: ClauseStatus::Unit(one),
            pair: next,
        },
    }
}

/// Looks at a clause that isn't at rest with the literals that it watches.
pub(crate) fn look_at(trail: &Trail, lits: &[Lit], watched: Watched) -> Looked
    requires first { has lits.now watched.first ≡ true }
    requires second { has lits.now watched.second ≡ true }
    requires restless { rests trail.now watched ≡ false }
    ensures first { has lits.now result.pair.first ≡ true }
    ensures second { has lits.now result.pair.second ≡ true }
    ensures steady { IsSteady trail.now watched → IsSteady trail.now result.pair }
    ensures look { IsLook result.look lits.now trail.now result.pair }
{
    look_past(trail, lits, facing(trail, watched))
}
