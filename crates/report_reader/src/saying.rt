// Whether a line that has its form says what is true at its place.

ghost use Rattle.std.specs.{Prelude.{◌≡◌, ◌==◌, ◌≤◌, length}, Ordering.{nat_cmp, is_lt}};
ghost use Rattle.std.specs.Cmp.Lexicographic.{slice_cmp};
ghost use Rattle.obligation_list.specs.Obligations.{obligations_of};
ghost use Rattle.proof_report.specs.Verdicts.{obligation_at, obligation_count, call_count};
ghost use Rattle.proof_report.specs.Verdicts.{stands_before, fact_behind, reading_behind};
ghost use Rattle.proof_report.specs.Events.{told};
ghost use Rattle.proof_report.specs.Feeding.{last_of, says, may_show, call_or_end, same_tally};
ghost use Rattle.proof_report.specs.Feeding.{same_outcome};

use obligation_list::Obligation;
use proof_report::event::Event;
use proof_report::outcome;
use proof_report::place::{PartialWitness, Place, Stage, State};
use report_lines::head::{Outcome, Tally};
use report_lines::witness::{Fact, Reading, Shown};
use spec_core::Spec;

/// How many verdicts were told.
pub fn told(tally: &Tally) -> u64
    ensures { result ≡ told tally.now }
{
    tally.proved as u64 + tally.refuted as u64 + tally.undecided as u64
}

/// The obligation whose block is due.
pub fn obligation_due(spec: &Spec, obligations: &[Obligation], tally: &Tally) -> Obligation
    requires { obligations.now ≡ obligations_of spec.now }
    ensures { result ≡ obligation_at spec.now (told tally.now) }
{
    obligations
        .get(told(tally) as usize)
        .copied()
        .unwrap_or(Obligation::Init { inv: 0 })
}

/// Whether each obligation has its verdict.
pub fn all_told(spec: &Spec, obligations: &[Obligation], tally: &Tally) -> bool
    requires { obligations.now ≡ obligations_of spec.now }
    ensures { result ≡ (told tally.now == obligation_count spec.now) }
{
    told(tally) == obligations.len() as u64
}

/// How many calls an obligation speaks of.
pub fn call_count(obligation: Obligation) -> usize
    ensures { result ≡ call_count obligation }
{
    match obligation {
        Obligation::Init { .. } => 0,
        Obligation::Safety { .. } => 1,
        Obligation::Commute { .. } => 2,
        Obligation::Stable { .. } => 2,
    }
}

// Whether the first list is before the second one.
fn is_before(at: &[u32], there: &[u32]) -> bool
    ensures { result ≡ is_lt (slice_cmp nat_cmp at.now there.now) }
{
    at.cmp(there).is_lt()
}

#[tactic(auto, using(crate::proofs::Ordered::first_differs, crate::proofs::Ordered::first_agrees))]
fn stands_before(thing: u8, at: &[u32], other: u8, there: &[u32]) -> bool
    ensures { result ≡ stands_before thing at.now other there.now }
{
    if thing == other {
        is_before(at, there)
    } else {
        thing < other
    }
}

#[tactic(auto, using(crate::proofs::Ordered::last_is))]
fn fact_behind(facts: &[Fact], fact: &Fact) -> bool
    ensures { result ≡ fact_behind (last_of facts.now) fact.now }
{
    match facts.last() {
        None => true,
        Some(last) => stands_before(
            last.relation,
            last.tuple.as_slice(),
            fact.relation,
            fact.tuple.as_slice(),
        ),
    }
}

#[tactic(auto, using(crate::proofs::Ordered::last_is))]
fn reading_behind(readings: &[Reading], reading: &Reading) -> bool
    ensures { result ≡ reading_behind (last_of readings.now) reading.now }
{
    match readings.last() {
        None => true,
        Some(last) => stands_before(
            last.counter,
            last.key.as_slice(),
            reading.counter,
            reading.key.as_slice(),
        ),
    }
}

fn call_or_end(obligation: Obligation, witness: &PartialWitness, shown: &Shown) -> bool
    ensures { result ≡ call_or_end obligation witness.now shown.now }
{
    match shown {
        Shown::Fact(_) => false,
        Shown::Reading(_) => false,
        Shown::Call(_) => witness.calls.len() < call_count(obligation),
        Shown::At(_) => witness.calls.len() == call_count(obligation),
    }
}

fn may_show(obligation: Obligation, place: &Place, shown: &Shown) -> bool
    ensures { result ≡ may_show obligation place.now shown.now }
{
    match place {
        Place::Showing(Stage::Facts, witness) => match shown {
            Shown::Fact(fact) => fact_behind(witness.facts.as_slice(), fact),
            Shown::Reading(reading) => reading_behind(witness.readings.as_slice(), reading),
            _ => call_or_end(obligation, witness, shown),
        },
        Place::Showing(Stage::Readings, witness) => match shown {
            Shown::Reading(reading) => reading_behind(witness.readings.as_slice(), reading),
            _ => call_or_end(obligation, witness, shown),
        },
        Place::Showing(Stage::Calls, witness) => call_or_end(obligation, witness, shown),
        _ => false,
    }
}

fn same_tally(tally: &Tally, other: &Tally) -> bool
    ensures { result ≡ same_tally tally.now other.now }
{
    tally.proved == other.proved
        && tally.refuted == other.refuted
        && tally.undecided == other.undecided
}

fn same_outcome(outcome: Outcome, other: Outcome) -> bool
    ensures { result ≡ same_outcome outcome other }
{
    match outcome {
        Outcome::Accepted => matches!(other, Outcome::Accepted),
        Outcome::Rejected => matches!(other, Outcome::Rejected),
        Outcome::Undecided => matches!(other, Outcome::Undecided),
    }
}

/// Whether what a line says is true where it stands.
pub fn says(spec: &Spec, obligations: &[Obligation], state: &State, event: &Event) -> bool
    requires { obligations.now ≡ obligations_of spec.now }
    ensures { result ≡ says spec.now state.now event.now }
{
    match event {
        Event::Count(count) => *count as usize == obligations.len(),
        Event::Size(place, _) => *place < spec.sorts.len(),
        Event::Const(place, _) => *place < spec.consts.len(),
        Event::Shown(shown) => may_show(
            obligation_due(spec, obligations, &state.tally),
            &state.place,
            shown,
        ),
        Event::Summary(tally) => same_tally(tally, &state.tally),
        Event::Last(last) => same_outcome(*last, outcome(&state.tally)),
        _ => true,
    }
}
