// What is wrong with formulas.

ghost use Rattle.std.specs.Prelude.{◌≡◌, option_map, nat_le, min};
ghost use Rattle.spec_core.specs.Specification.{relation_places as places_of};
ghost use Rattle.spec_trees.specs.Form.{form_of};
ghost use Rattle.typing_rules.specs.Formulas.{atom_fault as atom_fault_of};
ghost use Rattle.typing_rules.specs.Formulas.{lone_name as lone_name_of};
ghost use Rattle.typing_rules.specs.Formulas.{element_alone as element_alone_of};
ghost use Rattle.typing_rules.specs.Formulas.{is_equality as is_equality_of};
ghost use Rattle.typing_rules.specs.Formulas.{side_element as side_element_of};
ghost use Rattle.typing_rules.specs.Formulas.{sorts_fault as sorts_fault_of};
ghost use Rattle.typing_rules.specs.Formulas.{terms_fault as terms_fault_of};
ghost use Rattle.typing_rules.specs.Formulas.{compare_fault as compare_fault_of};
ghost use Rattle.typing_rules.specs.Formulas.{parts_fault as parts_fault_of};
ghost use Rattle.typing_rules.specs.Formulas.{node_count as node_count_of};
ghost use Rattle.typing_rules.specs.Formulas.{first_word as first_word_of};
ghost use Rattle.typing_rules.specs.Formulas.{nodes_fault as nodes_fault_of};
ghost use Rattle.typing_rules.specs.Formulas.{formula_fault as formula_fault_of};
ghost use Rattle.spec_types.specs.faults.Views.{faulted, marked, scope_of};

use crate::faults::elements::{args_fault, is_of_sort, sort_named};
use crate::faults::fault::Fault;
use crate::faults::scope::{Scope, stranger_fault};
use crate::faults::terms::term_fault;
use spec_core::limits::MOST_NODES;
use spec_trees::{Comparison, Formula, Mark, Product, Reading, Term};
use typing_rules::Which;

/// The sorts of a relation's places.
pub fn relation_places<'s>(scope: &Scope<'s, '_>, relation: u8) -> &'s [u8]
    ensures { result.now ≡ places_of scope.now.draft.now relation }
{
    let draft = scope.draft;
    match draft.relations.as_slice().get(relation as usize) {
        Some(found) => found.places.as_slice(),
        None => &[],
    }
}

/// A relation with its arguments.
fn atom_fault<'t>(scope: &Scope<'_, '_>, reading: &'t Reading) -> Option<Fault<'t>>
    ensures { faulted result ≡ atom_fault_of (scope_of scope.now) reading.now }
{
    match scope.names.relation(reading.name.text.bytes()) {
        Some(place) => args_fault(scope, reading, relation_places(scope, place)),
        None => stranger_fault(scope, &reading.name),
    }
}

/// The name that a term is, where it is one name alone.
fn lone_name(term: &Term) -> Option<&Mark>
    ensures { marked result ≡ lone_name_of term.now }
{
    if term.minus {
        return None;
    }
    match term.more.as_slice() {
        [] => match &term.first.product {
            Product::Number(_) => None,
            Product::Times(_, _) => None,
            Product::Reading(reading) => match reading.args.as_slice() {
                [] => Some(&reading.name),
                [_, ..] => None,
            },
        },
        [_, ..] => None,
    }
}

/// The name that a term is, where it is that of an element alone.
fn element_alone<'t>(scope: &Scope<'_, '_>, term: &'t Term) -> Option<&'t Mark>
    ensures { marked result ≡ element_alone_of (scope_of scope.now) term.now }
{
    match lone_name(term) {
        Some(mark) => match sort_named(scope, mark.text.bytes()) {
            Some(_) => Some(mark),
            None => None,
        },
        None => None,
    }
}

fn is_equality(comparison: Comparison) -> bool
    ensures { result ≡ is_equality_of comparison }
{
    match comparison {
        Comparison::Equal => true,
        Comparison::Unequal => true,
        Comparison::Less => false,
        Comparison::AtMost => false,
        Comparison::Greater => false,
        Comparison::AtLeast => false,
    }
}

/// The element on one side of an equality.
pub fn side_element<'t>(
    scope: &Scope<'_, '_>,
    comparison: Comparison,
    term: &'t Term,
) -> Option<&'t Mark>
    ensures { marked result ≡ side_element_of (scope_of scope.now) comparison term.now }
{
    if is_equality(comparison) {
        element_alone(scope, term)
    } else {
        None
    }
}

/// Two elements that are compared.
fn sorts_fault<'t>(scope: &Scope<'_, '_>, left: &Mark, right: &'t Mark) -> Option<Fault<'t>>
    ensures { faulted result ≡ sorts_fault_of (scope_of scope.now) left.now right.now }
{
    let other = sort_named(scope, right.text.bytes());
    let same = match sort_named(scope, left.text.bytes()) {
        Some(sort) => is_of_sort(other, sort),
        None => false,
    };
    if same { None } else { Some(Fault::Kind(right)) }
}

fn terms_fault<'t>(scope: &Scope<'_, '_>, left: &'t Term, right: &'t Term) -> Option<Fault<'t>>
    ensures { faulted result ≡ terms_fault_of (scope_of scope.now) left.now right.now }
{
    if let Some(fault) = term_fault(scope, left) {
        return Some(fault);
    }
    term_fault(scope, right)
}

/// A comparison, of elements or of numbers.
fn compare_fault<'t>(
    scope: &Scope<'_, '_>,
    left: &'t Term,
    comparison: Comparison,
    right: &'t Term,
) -> Option<Fault<'t>>
    ensures { faulted result ≡ compare_fault_of (scope_of scope.now) left.now comparison right.now }
{
    match side_element(scope, comparison, left) {
        Some(one) => match side_element(scope, comparison, right) {
            Some(other) => sorts_fault(scope, one, other),
            None => terms_fault(scope, left, right),
        },
        None => terms_fault(scope, left, right),
    }
}

fn parts_fault<'t>(scope: &Scope<'_, '_>, formula: &'t Formula) -> Option<Fault<'t>>
    ensures { faulted result ≡ parts_fault_of (scope_of scope.now) (form_of formula.now) }
{
    match formula {
        Formula::True(_) => None,
        Formula::False(_) => None,
        Formula::Not(_, inner) => parts_fault(scope, inner),
        Formula::Connect(_, left, _, right) => {
            if let Some(fault) = parts_fault(scope, left) {
                return Some(fault);
            }
            parts_fault(scope, right)
        }
        Formula::Has(_, reading) => atom_fault(scope, reading),
        Formula::Compare(_, left, comparison, right) => {
            compare_fault(scope, left, *comparison, right)
        }
    }
}

fn first_word(formula: &Formula) -> u32
    ensures { result ≡ first_word_of (form_of formula.now) }
{
    match formula {
        Formula::True(word) => *word,
        Formula::False(word) => *word,
        Formula::Not(word, _) => *word,
        Formula::Connect(word, _, _, _) => *word,
        Formula::Has(word, _) => *word,
        Formula::Compare(word, _, _, _) => *word,
    }
}

/// More nodes no text has, since words are numbered below 2^32.
const MANY: u64 = 4_294_967_296;

/// How many nodes a formula has, at most `MANY`.
fn nodes_up_to(formula: &Formula) -> u64
    ensures { result ≡ min (node_count_of (form_of formula.now)) MANY }
{
    match formula {
        Formula::Not(_, inner) => (1 + nodes_up_to(inner)).min(MANY),
        Formula::Connect(_, left, _, right) => {
            (1 + nodes_up_to(left) + nodes_up_to(right)).min(MANY)
        }
        _ => 1,
    }
}

fn nodes_fault<'t>(formula: &Formula) -> Option<Fault<'t>>
    ensures { faulted result ≡ nodes_fault_of (form_of formula.now) }
{
    let nodes = nodes_up_to(formula);
    if nodes <= MOST_NODES as u64 {
        None
    } else {
        Some(Fault::Limit(Which::Nodes, nodes as u128, first_word(formula)))
    }
}

/// A formula, which has few nodes.
pub fn formula_fault<'t>(scope: &Scope<'_, '_>, formula: &'t Formula) -> Option<Fault<'t>>
    ensures { faulted result ≡ formula_fault_of (scope_of scope.now) (form_of formula.now) }
{
    if let Some(fault) = nodes_fault(formula) {
        return Some(fault);
    }
    parts_fault(scope, formula)
}
