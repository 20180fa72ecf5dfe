// What is wrong with the lines of operations.

ghost use Rattle.std.specs.Prelude.{◌≡◌, length};
ghost use Rattle.spec_core.specs.Limits.{most_updates};
ghost use Rattle.spec_core.specs.Specification.{token_places as token_places_of};
ghost use Rattle.spec_trees.specs.Form.{guard_of, line_of};
ghost use Rattle.typing_rules.specs.declared.which.Which.TheVariants.{Updates};
ghost use Rattle.typing_rules.specs.Fault.{◌otherwise◌, limit_at as limit_at_of};
ghost use Rattle.typing_rules.specs.Terms.{term_fault as term_fault_of};
ghost use Rattle.typing_rules.specs.Lines.{spot_fault as spot_fault_of};
ghost use Rattle.typing_rules.specs.Lines.{spots_fault as spots_fault_of, target_fault_at};
ghost use Rattle.typing_rules.specs.Lines.{relation_target_fault as relation_target_fault_of};
ghost use Rattle.typing_rules.specs.Lines.{counter_target_fault as counter_target_fault_of};
ghost use Rattle.typing_rules.specs.Lines.{guard_fault as guard_fault_of};
ghost use Rattle.typing_rules.specs.Lines.{taking_fault as taking_fault_of};
ghost use Rattle.typing_rules.specs.Lines.{most_observed as most_observed_of};
ghost use Rattle.typing_rules.specs.Lines.{line_fault as line_fault_of};
ghost use Rattle.spec_types.specs.faults.Views.{faulted, scope_of};

use crate::faults::draft::Draft;
use crate::faults::elements::{args_fault, elem_fault, places_fault};
use crate::faults::fault::{Fault, limit_at};
use crate::faults::formulas::{formula_fault, relation_places};
use crate::faults::scope::{Scope, stranger_fault};
use crate::faults::sentences::sentence_fault;
use crate::faults::terms::{counter_keys, term_fault};
use spec_core::Operation;
use spec_core::limits::{MOST_OBSERVES, MOST_REQUIRES, MOST_TAKES, MOST_UPDATES};
use spec_trees::{Formula, Line, Mark, Reading, Spot, Term};
use typing_rules::Which;

fn spot_fault<'t>(scope: &Scope<'_, '_>, sort: u8, spot: &'t Spot) -> Option<Fault<'t>>
    ensures { faulted result ≡ spot_fault_of (scope_of scope.now) sort spot.now }
{
    match spot {
        Spot::One(mark) => elem_fault(scope, sort, mark),
        Spot::Every => None,
    }
}

fn spots_fault<'t>(scope: &Scope<'_, '_>, sorts: &[u8], spots: &'t [Spot]) -> Option<Fault<'t>>
    ensures { faulted result ≡ spots_fault_of (scope_of scope.now) sorts.now spots.now }
{
    match sorts {
        [] => None,
        [sort, sorts @ ..] => match spots {
            [] => None,
            [spot, spots @ ..] => {
                if let Some(fault) = spot_fault(scope, *sort, spot) {
                    return Some(fault);
                }
                spots_fault(scope, sorts, spots)
            }
        },
    }
}

fn target_fault<'t>(
    scope: &Scope<'_, '_>,
    mark: &'t Mark,
    spots: &'t [Spot],
    places: &[u8],
) -> Option<Fault<'t>>
    ensures { faulted result ≡ target_fault_at (scope_of scope.now) mark.now spots.now places.now }
{
    if let Some(fault) = places_fault(mark, places, spots.len()) {
        return Some(fault);
    }
    spots_fault(scope, places, spots)
}

/// What is inserted into or removed from.
fn relation_target_fault<'t>(
    scope: &Scope<'_, '_>,
    mark: &'t Mark,
    spots: &'t [Spot],
) -> Option<Fault<'t>>
    ensures { faulted result ≡ relation_target_fault_of (scope_of scope.now) mark.now spots.now }
{
    match scope.names.relation(mark.text.bytes()) {
        Some(place) => target_fault(scope, mark, spots, relation_places(scope, place)),
        None => stranger_fault(scope, mark),
    }
}

/// What is added to or set.
fn counter_target_fault<'t>(
    scope: &Scope<'_, '_>,
    mark: &'t Mark,
    spots: &'t [Spot],
) -> Option<Fault<'t>>
    ensures { faulted result ≡ counter_target_fault_of (scope_of scope.now) mark.now spots.now }
{
    match scope.names.counter(mark.text.bytes()) {
        Some(place) => target_fault(scope, mark, spots, counter_keys(scope, place)),
        None => stranger_fault(scope, mark),
    }
}

fn guard_fault<'t>(scope: &Scope<'_, '_>, guard: &'t Option<Formula>) -> Option<Fault<'t>>
    ensures { faulted result ≡ guard_fault_of (scope_of scope.now) (guard_of guard.now) }
{
    match guard {
        Some(formula) => formula_fault(scope, formula),
        None => None,
    }
}

/// The sorts of a token's places.
pub fn token_places<'s>(draft: &'s Draft, token: u8) -> &'s [u8]
    ensures { result.now ≡ token_places_of draft.now token }
{
    match draft.tokens.as_slice().get(token as usize) {
        Some(found) => found.places.as_slice(),
        None => &[],
    }
}

fn taking_fault<'t>(scope: &Scope<'_, '_>, reading: &'t Reading) -> Option<Fault<'t>>
    ensures { faulted result ≡ taking_fault_of (scope_of scope.now) reading.now }
{
    match scope.names.token(reading.name.text.bytes()) {
        Some(place) => args_fault(scope, reading, token_places(scope.draft, place)),
        None => stranger_fault(scope, &reading.name),
    }
}

fn most_observed(draft: &Draft) -> usize
    ensures { result ≡ most_observed_of draft.now }
{
    if draft.version == 2 { MOST_OBSERVES } else { 0 }
}

fn insert_fault<'t>(
    scope: &Scope<'_, '_>,
    mark: &'t Mark,
    spots: &'t [Spot],
    guard: &'t Option<Formula>,
) -> Option<Fault<'t>>
    ensures { faulted result
        ≡ (relation_target_fault_of (scope_of scope.now) mark.now spots.now otherwise guard_fault_of
        (scope_of scope.now) (guard_of guard.now)) }
{
    if let Some(fault) = relation_target_fault(scope, mark, spots) {
        return Some(fault);
    }
    guard_fault(scope, guard)
}

fn amount_fault<'t>(
    scope: &Scope<'_, '_>,
    mark: &'t Mark,
    spots: &'t [Spot],
    amount: &'t Term,
    guard: &'t Option<Formula>,
) -> Option<Fault<'t>>
    ensures { faulted result
        ≡ (counter_target_fault_of (scope_of scope.now) mark.now spots.now otherwise term_fault_of
        (scope_of scope.now) amount.now otherwise guard_fault_of (scope_of scope.now)
        (guard_of guard.now)) }
{
    if let Some(fault) = counter_target_fault(scope, mark, spots) {
        return Some(fault);
    }
    if let Some(fault) = term_fault(scope, amount) {
        return Some(fault);
    }
    guard_fault(scope, guard)
}

fn update_limit<'t>(operation: &Operation, word: u32) -> Option<Fault<'t>>
    ensures { faulted result ≡ limit_at_of Updates most_updates
        (length operation.now.updates) word }
{
    limit_at(Which::Updates, MOST_UPDATES, operation.updates.len(), word)
}

/// A line of an operation that has these lines before it.
pub fn line_fault<'t>(
    scope: &Scope<'_, 't>,
    operation: &Operation,
    line: &'t Line,
) -> Option<Fault<'t>>
    ensures { faulted result ≡ line_fault_of (scope_of scope.now) operation.now (line_of line.now) }
{
    match line {
        Line::Requires(word, sentence) => {
            let count = operation.requires_.len();
            if let Some(fault) = limit_at(Which::Requires, MOST_REQUIRES, count, *word) {
                return Some(fault);
            }
            sentence_fault(scope, sentence)
        }
        Line::Insert(word, mark, spots, guard) | Line::Remove(word, mark, spots, guard) => {
            if let Some(fault) = update_limit(operation, *word) {
                return Some(fault);
            }
            insert_fault(scope, mark, spots.as_slice(), guard)
        }
        Line::Add(word, mark, spots, amount, guard) | Line::Set(word, mark, spots, amount, guard) =>
            {
                if let Some(fault) = update_limit(operation, *word) {
                    return Some(fault);
                }
                amount_fault(scope, mark, spots.as_slice(), amount, guard)
            }
        Line::Takes(word, reading, _) => {
            let count = operation.takes.len();
            if let Some(fault) = limit_at(Which::Takes, MOST_TAKES, count, *word) {
                return Some(fault);
            }
            taking_fault(scope, reading)
        }
        Line::Observes(word, sentence) => {
            let count = operation.observes.len();
            let most = most_observed(scope.draft);
            if let Some(fault) = limit_at(Which::Observes, most, count, *word) {
                return Some(fault);
            }
            sentence_fault(scope, sentence)
        }
    }
}
