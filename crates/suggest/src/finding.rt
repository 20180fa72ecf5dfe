// What the obligations of a pair come to.

ghost use Rattle.std.specs.{Prelude.{◌≡◌, ◌≤◌, ℕ, ◌∷◌, List, IfOk, OnOk, IsTrue}, List.{Contains}};
ghost use Rattle.spec_core.specs.Specification.{Specification};
ghost use Rattle.obligation_list.specs.declared.obligation.Obligation.{Obligation};
ghost use Rattle.obligation_list.specs.Obligations.{IsObligation};
ghost use Rattle.report_bytes.specs.Showing.{shown_cause};
ghost use Rattle.check_run.specs.Good.{IsGood};
ghost use Rattle.conflict_variants.specs.Bare.{bare as bare_of};
ghost use Rattle.suggest.specs.{Answers.{HaveLogs, IsFound, IsFoundIn}, Writing.{CanBeWritten}};

use crate::answer::{Found, Pair};
use crate::known::Known;
use crate::listing::list_pair;
use items::Items;
use obligation_list::Obligation;
use proof_report::{Cause, Verdict};
use spec_core::Spec;
use std::alloc::AllocError;

// What obligations come to of which the first is undecided.
fn with_undecided(ob: Obligation, cause: Cause, rest: Found) -> Found
    ensures found { (d : Specification) (budget : ℕ) (obs : List Obligation)
        → IsGood d budget ob (shown_cause cause) → IsFound d budget obs rest
        → IsFound d budget (ob ∷ obs) result }
    ensures fit { (d : Specification) → IsObligation d ob → CanBeWritten d rest
        → CanBeWritten d result }
{
    match rest {
        Found::Proved => Found::Undecided(ob, cause),
        Found::Refuted(other, witness) => {
            drop(cause);
            Found::Refuted(other, witness)
        }
        Found::Undecided(_other, later) => {
            drop(later);
            Found::Undecided(ob, cause)
        }
    }
}

// The obligation is one of these.
fn is_among(obligations: &[Obligation], ob: &Obligation) -> bool
    ensures { IsTrue result → Contains obligations.now ob.now }
{
    obligations.contains(ob)
}

// What obligations come to, one after the other. The first one that is refuted settles it. The free ones, which are proved where nothing
// conflicts, aren't decided anew. Those that are proved by a log of their own are added to a list.
fn find(
    spec: &Spec,
    budget: u32,
    obligations: &[Obligation],
    free: &[Obligation],
    known: &mut Known,
    proved: &mut Items<Obligation>,
) -> Result<Found, AllocError>
    requires members { (ob : Obligation) → Contains obligations.now ob → IsObligation spec.now ob }
    requires budget { 1 ≤ budget }
    requires free { HaveLogs (bare_of spec.now) budget free.now }
    requires proved { HaveLogs spec.now budget proved.old }
    ensures found { IfOk result (λ found. IsFound spec.now budget obligations.now found) }
    ensures fit { IfOk result (λ found. CanBeWritten spec.now found) }
    ensures proved { OnOk result (HaveLogs spec.now budget proved.new) }
{
    match obligations {
        [] => Ok(Found::Proved),
        [ob, rest @ ..] => {
            if is_among(free, ob) {
                return find(spec, budget, rest, free, known, proved);
            }
            match known.decide(spec, ob, budget)? {
                Verdict::Proved(log) => {
                    drop(log);
                    proved.push(*ob)?;
                    find(spec, budget, rest, free, known, proved)
                }
                Verdict::Refuted(witness) => Ok(Found::Refuted(*ob, witness)),
                Verdict::Undecided(cause) => {
                    let found = or_drop!(find(spec, budget, rest, free, known, proved); cause);
                    Ok(with_undecided(*ob, cause, found))
                }
            }
        }
    }
}

// What the obligations of a pair come to in a specification. The free ones aren't decided anew, and those that are proved by a log of
// their own are added to a list.
fn find_pair(
    spec: &Spec,
    budget: u32,
    pair: Pair,
    free: &[Obligation],
    known: &mut Known,
    proved: &mut Items<Obligation>,
) -> Result<Found, AllocError>
    requires budget { 1 ≤ budget }
    requires free { HaveLogs (bare_of spec.now) budget free.now }
    requires proved { HaveLogs spec.now budget proved.old }
    ensures found { IfOk result (λ found. IsFoundIn spec.now budget pair.first pair.second found) }
    ensures fit { IfOk result (λ found. CanBeWritten spec.now found) }
    ensures proved { OnOk result (HaveLogs spec.now budget proved.new) }
{
    spec.well_formed();
    let obligations = list_pair(known.alloc, spec, pair)?;
    let found = or_drop!(
        find(spec, budget, obligations.as_slice(), free, known, proved);
        obligations
    );
    drop(obligations);
    Ok(found)
}

/// What the obligations of a pair come to in a specification, with logs of at most `budget` lines. Values that are known to break some of
/// them elsewhere are tried first, and new ones are added to them. Those that were proved are added to a list, up to the first one that is
/// refuted.
pub fn find_bare(
    spec: &Spec,
    budget: u32,
    pair: Pair,
    known: &mut Known,
    proved: &mut Items<Obligation>,
) -> Result<Found, AllocError>
    requires budget { 1 ≤ budget }
    requires proved { HaveLogs spec.now budget proved.old }
    ensures found { IfOk result (λ found. IsFoundIn spec.now budget pair.first pair.second found) }
    ensures fit { IfOk result (λ found. CanBeWritten spec.now found) }
    ensures proved { OnOk result (HaveLogs spec.now budget proved.new) }
{
    find_pair(spec, budget, pair, &[], known, proved)
}

/// What the obligations of a pair come to in a specification, with logs of at most `budget` lines. The free ones, which are proved where
/// nothing conflicts, aren't decided anew. Values that are known to break some of the others elsewhere are tried first, and new ones are
/// added to them.
pub fn find_in(
    spec: &Spec,
    budget: u32,
    pair: Pair,
    free: &[Obligation],
    known: &mut Known,
) -> Result<Found, AllocError>
    requires budget { 1 ≤ budget }
    requires free { HaveLogs (bare_of spec.now) budget free.now }
    ensures found { IfOk result (λ found. IsFoundIn spec.now budget pair.first pair.second found) }
    ensures fit { IfOk result (λ found. CanBeWritten spec.now found) }
{
    let mut proved = Items::new(known.alloc);
    let found = or_drop!(find_pair(spec, budget, pair, free, known, &mut proved); proved);
    drop(proved);
    Ok(found)
}
