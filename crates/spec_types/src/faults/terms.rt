// What is wrong with terms.

ghost use Rattle.std.specs.{Prelude.{◌≡◌, ◌<◌, ◌-◌, ◌^◌, ◌&&◌, position}, Str.{bytes_eq}};
ghost use Rattle.spec_core.specs.Specification.{counter_keys as keys_of};
ghost use Rattle.typing_rules.specs.Fault.{first_fault};
ghost use Rattle.typing_rules.specs.Terms.{literal_fault as literal_fault_of};
ghost use Rattle.typing_rules.specs.Terms.{is_whole as is_whole_of};
ghost use Rattle.typing_rules.specs.Terms.{number_named as number_named_of};
ghost use Rattle.typing_rules.specs.Terms.{counter_fault as counter_fault_of};
ghost use Rattle.typing_rules.specs.Terms.{lone_fault as lone_fault_of};
ghost use Rattle.typing_rules.specs.Terms.{amount_fault as amount_fault_of};
ghost use Rattle.typing_rules.specs.Terms.{product_fault as product_fault_of};
ghost use Rattle.typing_rules.specs.Terms.{signed_fault as signed_fault_of};
ghost use Rattle.typing_rules.specs.Terms.{term_fault as term_fault_of};
ghost use Rattle.spec_types.specs.faults.Views.{faulted, scope_of};

use crate::faults::elements::{args_fault, small};
use crate::faults::fault::{Fault, limit_at};
use crate::faults::scope::{Scope, stranger_fault};
use spec_core::limits::{GREATEST_LITERAL, MOST_SUMMANDS};
use spec_trees::{Figure, Mark, Param, ParamKind, Product, Reading, Signed, Term};
use typing_rules::Which;

/// A literal or a coefficient.
pub fn literal_fault<'t>(figure: &Figure) -> Option<Fault<'t>>
    ensures { faulted result ≡ literal_fault_of figure.now }
{
    if figure.value <= GREATEST_LITERAL as u128 {
        None
    } else {
        Some(Fault::Limit(Which::Literal, figure.value, figure.word))
    }
}

fn is_whole(kind: &ParamKind) -> bool
    ensures { result ≡ is_whole_of kind.now }
{
    match kind {
        ParamKind::Sort(_) => false,
        ParamKind::Int => true,
    }
}

fn number_place(name: &[u8], params: &[Param]) -> Option<usize>
    ensures { result ≡ position (λ p. bytes_eq p.name.text name.now
        && is_whole_of p.kind) params.now }
{
    params.iter().position(|param| param.name.text.bytes() == name && is_whole(&param.kind))
}

/// The place of the parameter of this name, where it is a whole number.
pub fn number_named(scope: &Scope<'_, '_>, name: &[u8]) -> Option<u8>
    ensures { result ≡ number_named_of (scope_of scope.now) name.now }
{
    small(number_place(name, scope.params))
}

/// The sorts of a counter's keys.
pub fn counter_keys<'s>(scope: &Scope<'s, '_>, counter: u8) -> &'s [u8]
    ensures { result.now ≡ keys_of scope.now.draft.now counter }
{
    let draft = scope.draft;
    match draft.counters.as_slice().get(counter as usize) {
        Some(found) => found.keys.as_slice(),
        None => &[],
    }
}

/// A counter that is read with all its keys.
fn counter_fault<'t>(
    scope: &Scope<'_, '_>,
    reading: &'t Reading,
    counter: Option<u8>,
) -> Option<Fault<'t>>
    ensures { faulted result ≡ counter_fault_of (scope_of scope.now) reading.now counter }
{
    match counter {
        Some(place) => args_fault(scope, reading, counter_keys(scope, place)),
        None => stranger_fault(scope, &reading.name),
    }
}

/// A name alone, which is a parameter that is a whole number, or a counter without keys.
fn lone_fault<'t>(
    scope: &Scope<'_, '_>,
    mark: &'t Mark,
    number: Option<u8>,
    counter: Option<u8>,
) -> Option<Fault<'t>>
    ensures { faulted result ≡ lone_fault_of (scope_of scope.now) mark.now number counter }
{
    if number.is_some() {
        return None;
    }
    match counter {
        Some(place) => {
            if counter_keys(scope, place).len() == 0 {
                None
            } else {
                Some(Fault::Kind(mark))
            }
        }
        None => stranger_fault(scope, mark),
    }
}

/// What is read in a term.
fn amount_fault<'t>(scope: &Scope<'_, '_>, reading: &'t Reading) -> Option<Fault<'t>>
    ensures { faulted result ≡ amount_fault_of (scope_of scope.now) reading.now }
{
    let name = reading.name.text.bytes();
    let counter = scope.names.counter(name);
    match reading.args.as_slice() {
        [] => lone_fault(scope, &reading.name, number_named(scope, name), counter),
        [_, ..] => counter_fault(scope, reading, counter),
    }
}

fn product_fault<'t>(scope: &Scope<'_, '_>, product: &'t Product) -> Option<Fault<'t>>
    ensures { faulted result ≡ product_fault_of (scope_of scope.now) product.now }
{
    match product {
        Product::Number(figure) => literal_fault(figure),
        Product::Times(figure, reading) => {
            if let Some(fault) = literal_fault(figure) {
                return Some(fault);
            }
            amount_fault(scope, reading)
        }
        Product::Reading(reading) => amount_fault(scope, reading),
    }
}

/// A summand behind the first.
fn signed_fault<'t>(scope: &Scope<'_, '_>, place: usize, signed: &'t Signed) -> Option<Fault<'t>>
    requires { place < 2 ^ 64 - 1 }
    ensures { faulted result ≡ signed_fault_of (scope_of scope.now) place signed.now }
{
    if let Some(fault) = limit_at(
        Which::Summands,
        MOST_SUMMANDS,
        place + 1,
        signed.summand.word,
    ) {
        return Some(fault);
    }
    product_fault(scope, &signed.summand.product)
}

fn signeds_fault<'t>(scope: &Scope<'_, '_>, more: &'t [Signed]) -> Option<Fault<'t>>
    ensures { faulted result ≡ first_fault (signed_fault_of (scope_of scope.now)) 0 more.now }
{
    for (place, signed) in more.iter().enumerate() {
        if let Some(fault) = signed_fault(scope, place, signed) {
            return Some(fault);
        }
    }
    None
}

/// A term.
pub fn term_fault<'t>(scope: &Scope<'_, '_>, term: &'t Term) -> Option<Fault<'t>>
    ensures { faulted result ≡ term_fault_of (scope_of scope.now) term.now }
{
    if let Some(fault) = product_fault(scope, &term.first.product) {
        return Some(fault);
    }
    signeds_fault(scope, term.more.as_slice())
}
