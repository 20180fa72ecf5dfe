// Which elements names stand for, and what is wrong with those that stand for none.

ghost use Rattle.std.specs.{Prelude.{◌≡◌, ◌==◌, length, position}, Str.{bytes_eq}};
ghost use Rattle.spec_core.specs.Typed.{sort_of as sort_of_elem, sort_of_kind, is_sort};
ghost use Rattle.typing_rules.specs.Scope.{kind_of, params_of, var_sorts};
ghost use Rattle.typing_rules.specs.Terms.{small as small_of, elem_named as elem_named_of};
ghost use Rattle.typing_rules.specs.Terms.{sort_named as sort_named_of, elem_of as elem_of_mark};
ghost use Rattle.typing_rules.specs.Terms.{elem_fault as elem_fault_of};
ghost use Rattle.typing_rules.specs.Terms.{elems_fault as elems_fault_of};
ghost use Rattle.typing_rules.specs.Terms.{places_fault as places_fault_of};
ghost use Rattle.typing_rules.specs.Terms.{args_fault as args_fault_of};
ghost use Rattle.spec_types.specs.{faults.Names.{meaning_in}, faults.Views.{faulted, scope_of}};

use crate::faults::fault::Fault;
use crate::faults::scope::{Scope, sort_number, stranger_fault};
use spec_core::Elem;
use spec_trees::{Mark, Param, ParamKind, Reading, Variable};

/// A place that a byte can number.
pub fn small(place: Option<usize>) -> Option<u8>
    ensures { result ≡ small_of place }
{
    match place {
        Some(place) => { if place < 256 { Some(place as u8) } else { None } }
        None => None,
    }
}

fn var_place(name: &[u8], vars: &[Variable]) -> Option<usize>
    ensures { result ≡ position (λ v. bytes_eq v.name.text name.now) vars.now }
{
    vars.iter().position(|var| var.name.text.bytes() == name)
}

fn param_place(name: &[u8], params: &[Param]) -> Option<usize>
    ensures { result ≡ position (λ p. bytes_eq p.name.text name.now) params.now }
{
    params
        .iter()
        .position(|param| param.name.text.bytes() == name)
}

/// The element that a name stands for: a variable, a parameter or a constant.
pub fn elem_named(scope: &Scope<'_, '_>, name: &[u8]) -> Option<Elem>
    ensures { result ≡ elem_named_of (scope_of scope.now) name.now }
{
    if let Some(place) = small(var_place(name, scope.vars)) {
        return Some(Elem::Var(place));
    }
    if let Some(place) = small(param_place(name, scope.params)) {
        return Some(Elem::Param(place));
    }
    match scope.names.constant(name) {
        Some(place) => Some(Elem::Const(place)),
        None => None,
    }
}

fn sort_of_param(scope: &Scope<'_, '_>, kind: &ParamKind) -> Option<u8>
    ensures { result ≡ sort_of_kind (kind_of (meaning_in scope.now.names.now) kind.now) }
{
    match kind {
        ParamKind::Sort(mark) => Some(sort_number(scope.names, mark)),
        ParamKind::Int => None,
    }
}

/// The sort of an element.
#[tactic(auto, using(crate::proofs::FaultLists::get_map))]
fn sort_of(scope: &Scope<'_, '_>, elem: Elem) -> Option<u8>
    ensures { result
        ≡ sort_of_elem scope.now.draft.now
        (params_of (meaning_in scope.now.names.now) scope.now.params.now)
        (var_sorts (meaning_in scope.now.names.now) scope.now.vars.now) elem }
{
    let draft = scope.draft;
    match elem {
        Elem::Const(place) => match draft.consts.as_slice().get(place as usize) {
            Some(found) => Some(found.sort),
            None => None,
        },
        Elem::Param(place) => match scope.params.get(place as usize) {
            Some(found) => sort_of_param(scope, &found.kind),
            None => None,
        },
        Elem::Var(place) => match scope.vars.get(place as usize) {
            Some(found) => Some(sort_number(scope.names, &found.sort)),
            None => None,
        },
    }
}

/// The sort of the element that a name stands for.
pub fn sort_named(scope: &Scope<'_, '_>, name: &[u8]) -> Option<u8>
    ensures { result ≡ sort_named_of (scope_of scope.now) name.now }
{
    match elem_named(scope, name) {
        Some(elem) => sort_of(scope, elem),
        None => None,
    }
}

/// The element that a name stands for; what is none stands for the first constant, and is refused.
pub fn elem_of(scope: &Scope<'_, '_>, mark: &Mark) -> Elem
    ensures { result ≡ elem_of_mark (scope_of scope.now) mark.now }
{
    elem_named(scope, mark.text.bytes()).unwrap_or(Elem::Const(0))
}

/// Whether the sort that was found is this one; false where none was found.
pub fn is_of_sort(found: Option<u8>, sort: u8) -> bool
    ensures { result ≡ is_sort found sort }
{
    match found {
        Some(other) => other == sort,
        None => false,
    }
}

/// A name that needs to be an element of a sort.
pub fn elem_fault<'t>(scope: &Scope<'_, '_>, sort: u8, mark: &'t Mark) -> Option<Fault<'t>>
    ensures { faulted result ≡ elem_fault_of (scope_of scope.now) sort mark.now }
{
    if is_of_sort(sort_named(scope, mark.text.bytes()), sort) {
        None
    } else {
        stranger_fault(scope, mark)
    }
}

/// Names that stand at places of these sorts.
fn elems_fault<'t>(scope: &Scope<'_, '_>, sorts: &[u8], marks: &'t [Mark]) -> Option<Fault<'t>>
    ensures { faulted result ≡ elems_fault_of (scope_of scope.now) sorts.now marks.now }
{
    match sorts {
        [] => None,
        [sort, sorts @ ..] => match marks {
            [] => None,
            [mark, marks @ ..] => {
                if let Some(fault) = elem_fault(scope, *sort, mark) {
                    return Some(fault);
                }
                elems_fault(scope, sorts, marks)
            }
        },
    }
}

/// A name needs as many arguments as it has places.
pub fn places_fault<'t>(mark: &'t Mark, places: &[u8], count: usize) -> Option<Fault<'t>>
    ensures { faulted result ≡ places_fault_of mark.now places.now count }
{
    if places.len() == count {
        None
    } else {
        Some(Fault::Count(mark))
    }
}

/// A name with arguments at its places.
pub fn args_fault<'t>(
    scope: &Scope<'_, '_>,
    reading: &'t Reading,
    places: &[u8],
) -> Option<Fault<'t>>
    ensures { faulted result ≡ args_fault_of (scope_of scope.now) reading.now places.now }
{
    if let Some(fault) = places_fault(&reading.name, places, reading.args.len()) {
        return Some(fault);
    }
    elems_fault(scope, places, reading.args.as_slice())
}
