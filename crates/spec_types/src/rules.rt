// Conflict rules.

ghost use Rattle.std.specs.Prelude.{◌≡◌, ◌+◌, ◌++◌, Some, map, position, OnOk, IfOk};
ghost use Rattle.std.specs.Str.{bytes_eq};
ghost use Rattle.spec_trees.specs.Form.{conflict_form};
ghost use Rattle.typing_rules.specs.Terms.{small as small_of};
ghost use Rattle.typing_rules.specs.Items.{first_sort as first_sort_of};
ghost use Rattle.typing_rules.specs.Items.{pattern_places as pattern_places_of};
ghost use Rattle.typing_rules.specs.Items.{rule_sort as rule_sort_of};
ghost use Rattle.typing_rules.specs.Items.{rule_variable_fault as rule_variable_fault_of};
ghost use Rattle.typing_rules.specs.Items.{rule_variables_fault as rule_variables_fault_of};
ghost use Rattle.typing_rules.specs.Items.{pattern_fault as pattern_fault_of};
ghost use Rattle.typing_rules.specs.Items.{conflict_fault as conflict_fault_of};
ghost use Rattle.typing_rules.specs.Items.{variable_number as variable_number_of};
ghost use Rattle.typing_rules.specs.Items.{pattern_of as pattern_of_reading, with_rule, typed_item};
ghost use Rattle.spec_types.specs.{Refusals.{Makes}, faults.Views.{faulted}, Views.{known_of}};

use crate::faults::{
    Fault, is_of_sort, limit_at, places_fault, small, stranger_fault, token_places,
};
use crate::known::{Known, scope_in};
use crate::refusal::Stop;
use items::{Items, or_drop};
use spec_core::limits::MOST_RULES;
use spec_core::{Pattern, Rule};
use spec_trees::{Mark, Reading};
use std::alloc::{AllocError, Global};
use typing_rules::Which;

/// The sort of the first place at which a variable stands in a pattern.
fn first_sort(name: &[u8], sorts: &[u8], marks: &[Mark]) -> Option<u8>
    ensures { result ≡ first_sort_of name.now sorts.now marks.now }
{
    match sorts {
        [] => None,
        [sort, sorts @ ..] => match marks {
            [] => None,
            [mark, marks @ ..] => {
                if mark.text.bytes() == name {
                    Some(*sort)
                } else {
                    first_sort(name, sorts, marks)
                }
            }
        },
    }
}

fn pattern_places<'d>(known: &'d Known, pattern: &Reading) -> &'d [u8]
    ensures { result.now ≡ pattern_places_of (known_of known.now) pattern.now }
{
    let token = known.names.token(pattern.name.text.bytes());
    token_places(&known.draft, token.unwrap_or(0))
}

/// The sort of the first place at which a variable stands in a rule.
fn rule_sort(known: &Known, left: &Reading, right: &Reading, name: &[u8]) -> Option<u8>
    ensures { result ≡ rule_sort_of (known_of known.now) left.now right.now name.now }
{
    match first_sort(name, pattern_places(known, left), left.args.as_slice()) {
        Some(sort) => Some(sort),
        None => first_sort(name, pattern_places(known, right), right.args.as_slice()),
    }
}

fn rule_variable_fault<'t>(
    known: &Known,
    left: &Reading,
    right: &Reading,
    sort: u8,
    mark: &'t Mark,
) -> Option<Fault<'t>>
    ensures { faulted result ≡ rule_variable_fault_of
        (known_of known.now) left.now right.now sort mark.now }
{
    let name = mark.text.bytes();
    if known.names.get(name).is_none() && is_of_sort(rule_sort(known, left, right, name), sort) {
        None
    } else {
        Some(Fault::Kind(mark))
    }
}

fn rule_variables_fault<'t>(
    known: &Known,
    left: &Reading,
    right: &Reading,
    sorts: &[u8],
    marks: &'t [Mark],
) -> Option<Fault<'t>>
    ensures { faulted result ≡ rule_variables_fault_of
        (known_of known.now) left.now right.now sorts.now marks.now }
{
    match sorts {
        [] => None,
        [sort, sorts @ ..] => match marks {
            [] => None,
            [mark, marks @ ..] => {
                if let Some(fault) = rule_variable_fault(known, left, right, *sort, mark) {
                    return Some(fault);
                }
                rule_variables_fault(known, left, right, sorts, marks)
            }
        },
    }
}

/// One of the two patterns of a rule.
fn pattern_fault<'t>(
    known: &Known,
    left: &Reading,
    right: &Reading,
    pattern: &'t Reading,
) -> Option<Fault<'t>>
    ensures { faulted result ≡ pattern_fault_of
        (known_of known.now) left.now right.now pattern.now }
{
    let Some(token) = known.names.token(pattern.name.text.bytes()) else {
        return stranger_fault(&scope_in(known), &pattern.name);
    };
    let places = token_places(&known.draft, token);
    if let Some(fault) = places_fault(&pattern.name, places, pattern.args.len()) {
        return Some(fault);
    }
    rule_variables_fault(known, left, right, places, pattern.args.as_slice())
}

fn conflict_fault<'t>(
    known: &Known,
    word: u32,
    left: &'t Reading,
    right: &'t Reading,
) -> Option<Fault<'t>>
    ensures { faulted result ≡ conflict_fault_of (known_of known.now) word left.now right.now }
{
    if let Some(fault) = limit_at(Which::Conflicts, MOST_RULES, known.draft.rules.len(), word) {
        return Some(fault);
    }
    if let Some(fault) = pattern_fault(known, left, right, left) {
        return Some(fault);
    }
    pattern_fault(known, left, right, right)
}

fn mark_place(name: &[u8], marks: &[Mark]) -> Option<usize>
    ensures { result ≡ position (λ o. bytes_eq o.text name.now) marks.now }
{
    marks.iter().position(|mark| mark.text.bytes() == name)
}

/// A place behind as many others, where a byte can number it.
fn place_behind(before: usize, place: usize) -> Option<u8>
    ensures { result ≡ small_of (Some (before + place)) }
{
    if before < 256 && place < 256 {
        small(Some(before + place))
    } else {
        None
    }
}

/// The first place at which a variable stands in a rule.
fn rule_place(name: &[u8], left: &[Mark], right: &[Mark]) -> Option<u8>
    ensures { result ≡ small_of (position (λ o. bytes_eq o.text name.now) (left.now ++ right.now)) }
{
    match mark_place(name, left) {
        Some(place) => small(Some(place)),
        None => match mark_place(name, right) {
            Some(place) => place_behind(left.len(), place),
            None => None,
        },
    }
}

fn variable_number(left: &Reading, right: &Reading, mark: &Mark) -> u8
    ensures { result ≡ variable_number_of left.now right.now mark.now }
{
    rule_place(
        mark.text.bytes(),
        left.args.as_slice(),
        right.args.as_slice(),
    )
    .unwrap_or(0)
}

fn variable_numbers(
    alloc: Global,
    left: &Reading,
    right: &Reading,
    marks: &[Mark],
) -> Result<Items<u8>, AllocError>
    ensures { IfOk result (λ numbers. numbers
        ≡ map (variable_number_of left.now right.now) marks.now) }
{
    let mut numbers = Items::new(alloc);
    for mark in marks {
        numbers.push(variable_number(left, right, mark))?;
    }
    Ok(numbers)
}

fn pattern_of(
    alloc: Global,
    known: &Known,
    left: &Reading,
    right: &Reading,
    pattern: &Reading,
) -> Result<Pattern, AllocError>
    ensures { IfOk result (λ made. made ≡ pattern_of_reading
        (known_of known.now) left.now right.now pattern.now) }
{
    let token = known.names.token(pattern.name.text.bytes());
    Ok(Pattern {
        token: token.unwrap_or(0),
        vars: variable_numbers(alloc, left, right, pattern.args.as_slice())?,
    })
}

fn add_rule(
    alloc: Global,
    known: &mut Known,
    left: &Reading,
    right: &Reading,
) -> Result<(), AllocError>
    ensures { OnOk result (known_of known.new ≡ with_rule (known_of known.old) left.now right.now) }
{
    let first = pattern_of(alloc, known, left, right, left)?;
    let second = or_drop!(pattern_of(alloc, known, left, right, right); first);
    known.draft.rules.push(Rule {
        left: first,
        right: second,
    })
}

/// Adds a conflict rule between two patterns, or answers the first fault of its line.
pub fn type_conflict<'t>(
    alloc: Global,
    known: &mut Known,
    word: u32,
    left: &'t Reading,
    right: &'t Reading,
) -> Result<(), Stop<'t>>
    ensures { Makes (typed_item (known_of known.old) (conflict_form word left.now right.now))
        (known_of known.new) result }
{
    if let Some(fault) = conflict_fault(known, word, left, right) {
        return Err(Stop::Fault(fault));
    }
    add_rule(alloc, known, left, right)?;
    Ok(())
}
