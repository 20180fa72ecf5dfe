// What the clauses say under a trail.
ghost use Rattle.std.specs.Prelude.{◌≡◌, ◌<◌, ◌^◌, ℕ, true, false, length, MatchOption};
ghost use Rattle.std.specs.List.{list_any};
ghost use Rattle.sat_core.specs.{Trails.{is_assigned, is_unit}, Searching.{IsFound}};

use crate::growing::{clause_count, lits_of};
use crate::trail::Trail;
use proof_lines::{Lit, Problem};

/// What stands in the way of a decision.
#[derive(Clone, Copy)]
pub enum Found {
    /// The clause with this number is false.
    Conflict(u32),
    /// The clause with this number is unit with this literal, and no clause is false.
    Forced(u32, Lit),
    /// The trail is settled.
    Nothing,
}

// The literal that makes a clause unit, if it is. Only the first one that isn't negated may do so.
fn unit_literal(trail: &Trail, lits: &[Lit]) -> Option<Lit>
    ensures { MatchOption result (list_any (is_unit trail.now lits.now) lits.now ≡ false)
        (λ l. is_unit trail.now lits.now l ≡ true) }
{
    for lit in lits {
        if !trail.negates(*lit) {
            return if trail.is_unit(lits, *lit) {
                Some(*lit)
            } else {
                None
            };
        }
    }
    None
}

/// A false clause, or else a unit one, or else nothing.
pub fn find(problem: &Problem, trail: &Trail) -> Found
    requires { length problem.now.clauses < 2 ^ 32 }
    ensures { IsFound result problem.now.clauses trail.now }
{
    for i in 0..clause_count(problem) {
        if trail.is_false(lits_of(problem, i)) {
            return Found::Conflict(i);
        }
    }
    for i in 0..clause_count(problem) {
        if let Some(lit) = unit_literal(trail, lits_of(problem, i)) {
            return Found::Forced(i, lit);
        }
    }
    Found::Nothing
}

/// An atom below a number that the trail doesn't assign.
pub fn unassigned(trail: &Trail, atoms: u32) -> Option<u32>
    ensures { MatchOption result ((a : ℕ) → a < atoms → is_assigned trail.now a ≡ true)
        (λ a. (a < atoms) × (is_assigned trail.now a ≡ false)) }
{
    for atom in 0..atoms {
        if !trail.is_assigned(atom) {
            return Some(atom);
        }
    }
    None
}
