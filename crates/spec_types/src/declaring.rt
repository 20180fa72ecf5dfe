// The items that declare sorts, constants, relations, counters and tokens.

ghost use Rattle.std.specs.Prelude.{◌≡◌, ◌<◌, ◌∷◌, ◌++◌, [], length, count_by, ◌==◌, OnOk};
ghost use Rattle.std.specs.Prelude.{IfOk, IfNone};
ghost use Rattle.spec_trees.specs.Form.{sort_form, const_form, relation_form, counter_form};
ghost use Rattle.spec_trees.specs.Form.{token_form};
ghost use Rattle.typing_rules.specs.{Fault.{◌otherwise◌}, Scope.{with_name}};
ghost use Rattle.typing_rules.specs.Items.{heading_fault as heading_fault_of};
ghost use Rattle.typing_rules.specs.Items.{sorts_fault as sorts_fault_of};
ghost use Rattle.typing_rules.specs.Items.{sort_numbers as sort_numbers_of};
ghost use Rattle.typing_rules.specs.Items.{scope_in as scope_in_known};
ghost use Rattle.typing_rules.specs.Items.{few_consts_fault as few_consts_fault_of};
ghost use Rattle.typing_rules.specs.Items.{const_fault as const_fault_of};
ghost use Rattle.typing_rules.specs.Items.{place_number as place_number_of, with_sort, with_const};
ghost use Rattle.typing_rules.specs.Items.{with_relation, with_counter, with_token, typed_item};
ghost use Rattle.spec_types.specs.{Refusals.{Makes}, faults.Names.{meaning_in}};
ghost use Rattle.spec_types.specs.{faults.Views.{faulted}, Views.{known_of}};

use crate::faults::{Draft, Fault, Names, declared_fault, limit_at, sort_fault, sort_number};
use crate::known::{Known, heading_fault, scope_in, sort_numbers, sorts_fault};
use crate::refusal::Stop;
use items::{Items, or_drop};
use spec_core::limits::{
    MOST_CONSTANTS, MOST_COUNTERS, MOST_KEYS, MOST_PLACES, MOST_RELATIONS, MOST_SORTS, MOST_TOKENS,
};
use spec_core::{Const, Counter, Name, Relation, Token};
use spec_trees::Mark;
use std::alloc::{AllocError, Global};
use typing_rules::{Meaning, Which};

/// Adds a thing, and its name with what that means.
fn declare<T: Drop>(
    things: &mut Items<T>,
    thing: T,
    names: &mut Names,
    name: &[u8],
    meaning: Meaning,
) -> Result<(), AllocError>
    ensures thing { OnOk result (things.new ≡ things.old ++ thing ∷ []) }
    ensures name { OnOk result (meaning_in names.new
        ≡ with_name (meaning_in names.old) name.now meaning) }
{
    things.push(thing)?;
    names.add(name, meaning)
}

// ---- sorts

fn add_sort(alloc: Global, known: &mut Known, mark: &Mark) -> Result<(), AllocError>
    requires { length known.old.draft.sorts < 256 }
    ensures { OnOk result (known_of known.new ≡ with_sort (known_of known.old) mark.now) }
{
    let text = mark.text.bytes();
    let meaning = Meaning::Sort(known.draft.sorts.len() as u8);
    let name = Name::new(alloc, text)?;
    declare(
        &mut known.draft.sorts,
        name,
        &mut known.names,
        text,
        meaning,
    )
}

/// Adds a sort that is declared at a word, or answers the first fault of its declaration.
pub fn type_sort<'t>(
    alloc: Global,
    known: &mut Known,
    word: u32,
    mark: &'t Mark,
) -> Result<(), Stop<'t>>
    ensures { Makes (typed_item (known_of known.old) (sort_form word mark.now))
        (known_of known.new) result }
{
    let count = known.draft.sorts.len();
    if let Some(fault) = heading_fault(known, Which::Sorts, MOST_SORTS, count, mark) {
        return Err(Stop::Fault(fault));
    }
    add_sort(alloc, known, mark)?;
    Ok(())
}

// ---- constants

fn count_of_sort(consts: &[Const], sort: u8) -> usize
    ensures { result ≡ count_by (λ c. c.sort == sort) consts.now }
{
    consts.iter().filter(|found| found.sort == sort).count()
}

fn few_consts_fault<'t>(draft: &Draft, mark: &'t Mark, sort: Option<u8>) -> Option<Fault<'t>>
    ensures { faulted result ≡ few_consts_fault_of draft.now mark.now sort }
{
    match sort {
        Some(sort) => {
            let count = count_of_sort(draft.consts.as_slice(), sort);
            limit_at(Which::Constants, MOST_CONSTANTS, count, mark.word)
        }
        None => None,
    }
}

fn const_fault<'t>(known: &Known, mark: &'t Mark, sort: &'t Mark) -> Option<Fault<'t>>
    ensures { faulted result ≡ const_fault_of (known_of known.now) mark.now sort.now }
{
    let scope = scope_in(known);
    if let Some(fault) = declared_fault(&scope, mark) {
        return Some(fault);
    }
    let found = known.names.sort(sort.text.bytes());
    if let Some(fault) = few_consts_fault(&known.draft, mark, found) {
        return Some(fault);
    }
    sort_fault(&scope, mark.text.bytes(), sort)
}

fn place_number(count: usize) -> u8
    ensures { result ≡ place_number_of count }
{
    if count < 256 { count as u8 } else { 0 }
}

fn add_const(alloc: Global, known: &mut Known, mark: &Mark, sort: &Mark) -> Result<(), AllocError>
    ensures { OnOk result (known_of known.new ≡ with_const (known_of known.old) mark.now sort.now) }
{
    let text = mark.text.bytes();
    let meaning = Meaning::Const(place_number(known.draft.consts.len()));
    let sort = sort_number(&known.names, sort);
    let name = Name::new(alloc, text)?;
    let made = Const { name, sort };
    declare(
        &mut known.draft.consts,
        made,
        &mut known.names,
        text,
        meaning,
    )
}

/// Adds a constant of a sort, or answers the first fault of its declaration.
pub fn type_const<'t>(
    alloc: Global,
    known: &mut Known,
    word: u32,
    mark: &'t Mark,
    sort: &'t Mark,
) -> Result<(), Stop<'t>>
    ensures { Makes (typed_item (known_of known.old) (const_form word mark.now sort.now))
        (known_of known.new) result }
{
    if let Some(fault) = const_fault(known, mark, sort) {
        return Err(Stop::Fault(fault));
    }
    add_const(alloc, known, mark, sort)?;
    Ok(())
}

// ---- relations, counters and tokens

/// How many things of a kind there are and may be, and how many places one may have.
#[derive(Clone, Copy)]
struct Heading {
    which: Which,
    most: usize,
    count: usize,
    places: usize,
}

/// A name that is declared with the sorts of its places.
fn declaration_fault<'t>(
    known: &Known,
    heading: Heading,
    mark: &'t Mark,
    marks: &'t [Mark],
) -> Option<Fault<'t>>
    ensures gives { faulted result
        ≡ (heading_fault_of (known_of known.now) heading.which heading.most heading.count mark.now
        otherwise sorts_fault_of (scope_in_known (known_of known.now)) mark.now.text heading.places
        marks.now) }
    ensures few { IfNone result (heading.count < heading.most) }
{
    if let Some(fault) = heading_fault(known, heading.which, heading.most, heading.count, mark) {
        return Some(fault);
    }
    sorts_fault(&scope_in(known), mark.text.bytes(), heading.places, marks)
}

/// A name, and the sorts of its places.
fn named_places(
    alloc: Global,
    names: &Names,
    mark: &Mark,
    marks: &[Mark],
) -> Result<(Name, Items<u8>), AllocError>
    ensures name { IfOk result (λ made. made.0 ≡ mark.now.text) }
    ensures places { IfOk result (λ made. made.1
        ≡ sort_numbers_of (meaning_in names.now) marks.now) }
{
    let name = Name::new(alloc, mark.text.bytes())?;
    let places = or_drop!(sort_numbers(alloc, names, marks); name);
    Ok((name, places))
}

fn add_relation(
    alloc: Global,
    known: &mut Known,
    mark: &Mark,
    marks: &[Mark],
) -> Result<(), AllocError>
    requires { length known.old.draft.relations < 256 }
    ensures { OnOk result (known_of known.new
        ≡ with_relation (known_of known.old) mark.now marks.now) }
{
    let meaning = Meaning::Relation(known.draft.relations.len() as u8);
    let (name, places) = named_places(alloc, &known.names, mark, marks)?;
    let made = Relation {
        name,
        places,
        initial: false,
    };
    let text = mark.text.bytes();
    declare(
        &mut known.draft.relations,
        made,
        &mut known.names,
        text,
        meaning,
    )
}

/// Adds a relation with the sorts of its places, or answers the first fault of its declaration.
pub fn type_relation<'t>(
    alloc: Global,
    known: &mut Known,
    word: u32,
    mark: &'t Mark,
    marks: &'t [Mark],
) -> Result<(), Stop<'t>>
    ensures { Makes (typed_item (known_of known.old) (relation_form word mark.now marks.now))
        (known_of known.new) result }
{
    let heading = Heading {
        which: Which::Relations,
        most: MOST_RELATIONS,
        count: known.draft.relations.len(),
        places: MOST_PLACES,
    };
    if let Some(fault) = declaration_fault(known, heading, mark, marks) {
        return Err(Stop::Fault(fault));
    }
    add_relation(alloc, known, mark, marks)?;
    Ok(())
}

fn add_counter(
    alloc: Global,
    known: &mut Known,
    mark: &Mark,
    marks: &[Mark],
) -> Result<(), AllocError>
    requires { length known.old.draft.counters < 256 }
    ensures { OnOk result (known_of known.new
        ≡ with_counter (known_of known.old) mark.now marks.now) }
{
    let meaning = Meaning::Counter(known.draft.counters.len() as u8);
    let (name, keys) = named_places(alloc, &known.names, mark, marks)?;
    let made = Counter {
        name,
        keys,
        initial: 0,
    };
    let text = mark.text.bytes();
    declare(
        &mut known.draft.counters,
        made,
        &mut known.names,
        text,
        meaning,
    )
}

/// Adds a counter with the sorts of its keys, or answers the first fault of its declaration.
pub fn type_counter<'t>(
    alloc: Global,
    known: &mut Known,
    word: u32,
    mark: &'t Mark,
    marks: &'t [Mark],
) -> Result<(), Stop<'t>>
    ensures { Makes (typed_item (known_of known.old) (counter_form word mark.now marks.now))
        (known_of known.new) result }
{
    let heading = Heading {
        which: Which::Counters,
        most: MOST_COUNTERS,
        count: known.draft.counters.len(),
        places: MOST_KEYS,
    };
    if let Some(fault) = declaration_fault(known, heading, mark, marks) {
        return Err(Stop::Fault(fault));
    }
    add_counter(alloc, known, mark, marks)?;
    Ok(())
}

fn add_token(
    alloc: Global,
    known: &mut Known,
    mark: &Mark,
    marks: &[Mark],
) -> Result<(), AllocError>
    requires { length known.old.draft.tokens < 256 }
    ensures { OnOk result (known_of known.new
        ≡ with_token (known_of known.old) mark.now marks.now) }
{
    let meaning = Meaning::Token(known.draft.tokens.len() as u8);
    let (name, places) = named_places(alloc, &known.names, mark, marks)?;
    let made = Token { name, places };
    let text = mark.text.bytes();
    declare(
        &mut known.draft.tokens,
        made,
        &mut known.names,
        text,
        meaning,
    )
}

/// Adds a token with the sorts of its places, or answers the first fault of its declaration.
pub fn type_token<'t>(
    alloc: Global,
    known: &mut Known,
    word: u32,
    mark: &'t Mark,
    marks: &'t [Mark],
) -> Result<(), Stop<'t>>
    ensures { Makes (typed_item (known_of known.old) (token_form word mark.now marks.now))
        (known_of known.new) result }
{
    let heading = Heading {
        which: Which::Tokens,
        most: MOST_TOKENS,
        count: known.draft.tokens.len(),
        places: MOST_PLACES,
    };
    if let Some(fault) = declaration_fault(known, heading, mark, marks) {
        return Err(Stop::Fault(fault));
    }
    add_token(alloc, known, mark, marks)?;
    Ok(())
}
