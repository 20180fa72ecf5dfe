// What is known behind some items.

ghost use Rattle.std.specs.Prelude.{◌≡◌, ◌<◌, IfOk, IfNone};
ghost use Rattle.typing_rules.specs.Items.{scope_in as scope_in_known};
ghost use Rattle.typing_rules.specs.Items.{heading_fault as heading_fault_of};
ghost use Rattle.typing_rules.specs.Items.{place_fault as place_fault_of};
ghost use Rattle.typing_rules.specs.Items.{sorts_fault as sorts_fault_of};
ghost use Rattle.typing_rules.specs.Items.{sort_numbers as sort_numbers_of};
ghost use Rattle.typing_rules.specs.Items.{nothing_known as nothing_known_of};
ghost use Rattle.spec_types.specs.{faults.Names.{meaning_in}, faults.Views.{faulted, scope_of}};
ghost use Rattle.spec_types.specs.Views.{known_of};

use crate::faults::{
    Draft, Fault, Names, Scope, declared_fault, limit_at, sort_fault, sort_number,
};
use items::Items;
use spec_trees::{Mark, Version};
use std::alloc::{AllocError, Global};
use typing_rules::Which;

/// The specification that some items are, what their names mean, and the names whose initial value was stated.
#[derive(Drop)]
pub struct Known {
    pub draft: Draft,
    pub names: Names,
    pub stated: Names,
}

/// What is in scope behind the items.
pub fn scope_in<'d, 't>(known: &'d Known) -> Scope<'d, 't>
    ensures { scope_of result ≡ scope_in_known (known_of known.now) }
{
    Scope {
        draft: &known.draft,
        names: &known.names,
        params: &[],
        vars: &[],
    }
}

/// A name that is declared, of a kind of which there may be so many.
pub fn heading_fault<'t>(
    known: &Known,
    which: Which,
    most: usize,
    count: usize,
    mark: &'t Mark,
) -> Option<Fault<'t>>
    ensures gives { faulted result ≡ heading_fault_of
        (known_of known.now) which most count mark.now }
    ensures few { IfNone result (count < most) }
{
    if let Some(fault) = declared_fault(&scope_in(known), mark) {
        return Some(fault);
    }
    limit_at(which, most, count, mark.word)
}

fn place_fault<'t>(
    scope: &Scope<'_, '_>,
    own: &[u8],
    most: usize,
    place: usize,
    mark: &'t Mark,
) -> Option<Fault<'t>>
    ensures { faulted result ≡ place_fault_of (scope_of scope.now) own.now most place mark.now }
{
    if let Some(fault) = sort_fault(scope, own, mark) {
        return Some(fault);
    }
    limit_at(Which::Places, most, place, mark.word)
}

/// The sorts of places or keys.
pub fn sorts_fault<'t>(
    scope: &Scope<'_, '_>,
    own: &[u8],
    most: usize,
    marks: &'t [Mark],
) -> Option<Fault<'t>>
    ensures { faulted result ≡ sorts_fault_of (scope_of scope.now) own.now most marks.now }
{
    for (place, mark) in marks.iter().enumerate() {
        if let Some(fault) = place_fault(scope, own, most, place, mark) {
            return Some(fault);
        }
    }
    None
}

/// The places of sorts.
pub fn sort_numbers(alloc: Global, names: &Names, marks: &[Mark]) -> Result<Items<u8>, AllocError>
    ensures { IfOk result (λ sorts. sorts ≡ sort_numbers_of (meaning_in names.now) marks.now) }
{
    let mut sorts = Items::new(alloc);
    for mark in marks {
        sorts.push(sort_number(names, mark))?;
    }
    Ok(sorts)
}

/// Nothing is declared.
pub fn nothing_known(alloc: Global, version: Version) -> Known
    ensures { known_of result ≡ nothing_known_of version }
{
    let draft = Draft {
        version: match version {
            Version::First => 1,
            Version::Second => 2,
        },
        sorts: Items::new(alloc),
        consts: Items::new(alloc),
        relations: Items::new(alloc),
        counters: Items::new(alloc),
        tokens: Items::new(alloc),
        rules: Items::new(alloc),
        invariants: Items::new(alloc),
        operations: Items::new(alloc),
    };
    Known {
        draft,
        names: Names::new(alloc),
        stated: Names::new(alloc),
    }
}
