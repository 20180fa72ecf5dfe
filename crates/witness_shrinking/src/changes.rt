// Drafts with a change: facts left out, two elements made one, other numbers.

use crate::draft::{Draft, Fact, Number, Place, changed, copies, draft_of, is_number, push_fact};
use items::{Items, or_drop};
use obligation_list::Obligation;
use spec_core::{Call, Kind, Param, Spec, Thing};
use std::alloc::{AllocError, Global};

/// An element of a sort.
#[derive(Clone, Copy)]
pub struct Element {
    pub sort: u8,
    pub number: u32,
}

// The sort at a place; 0 where there is none.
fn sort_at(sorts: &[u8], place: usize) -> u8 {
    sorts.get(place).copied().unwrap_or(0)
}

// ---- facts left out

/// Which facts are left out.
#[derive(Clone, Copy)]
pub enum Left {
    /// None of them.
    None,
    /// All of them.
    All,
    /// Those of a relation or a counter.
    Of(Thing),
    /// Those that name an element.
    Naming(Element),
    /// Those at two places of the list, which may be the same.
    At(usize, usize),
}

/// Whether a fact names an element.
pub fn names(spec: &Spec, fact: &Fact, element: Element) -> bool {
    let sorts = spec.places_of(fact.thing);
    for (place, number) in fact.elements.as_slice().iter().enumerate() {
        if sort_at(sorts, place) == element.sort && *number == element.number {
            return true;
        }
    }
    false
}

impl Left {
    /// Whether a fact at a place of the list is left out.
    pub fn leaves_out(self, spec: &Spec, place: usize, fact: &Fact) -> bool {
        match self {
            Left::None => false,
            Left::All => true,
            Left::Of(thing) => fact.thing == thing,
            Left::Naming(element) => names(spec, fact, element),
            Left::At(one, other) => place == one || place == other,
        }
    }
}

// A draft with other facts and calls.
fn draft_with(
    alloc: Global,
    draft: &Draft,
    facts: Items<Fact>,
    calls: Items<Call>,
) -> Result<Draft, AllocError> {
    draft_of(
        alloc,
        draft.sizes.as_slice(),
        draft.consts.as_slice(),
        draft.elements.as_slice(),
        facts,
        calls,
    )
}

fn facts_moved(
    alloc: Global,
    facts: &[Fact],
    at: usize,
    thing: Thing,
) -> Result<Items<Fact>, AllocError> {
    let mut out = Items::new(alloc);
    for (place, fact) in facts.iter().enumerate() {
        let moved = if place == at { thing } else { fact.thing };
        let elements = fact.elements.as_slice();
        or_drop!(push_fact(alloc, moved, elements, fact.value, &mut out); out);
    }
    Ok(out)
}

/// A draft with a fact of another relation or counter.
pub fn with_thing(
    alloc: Global,
    draft: &Draft,
    at: usize,
    thing: Thing,
) -> Result<Draft, AllocError> {
    let facts = facts_moved(alloc, draft.facts.as_slice(), at, thing)?;
    let calls = or_drop!(copies(alloc, draft.calls.as_slice()); facts);
    draft_with(alloc, draft, facts, calls)
}

// ---- two elements made one

/// Two elements of a sort, of which the second becomes the first. Those above it move down by one, so that no number is left out.
#[derive(Clone, Copy)]
pub struct Joined {
    pub sort: u8,
    pub kept: u32,
    pub gone: u32,
}

impl Joined {
    // The number of an element when the two are one.
    fn number(self, sort: u8, number: u32) -> u32 {
        if sort != self.sort {
            return number;
        }
        let number = if number == self.gone {
            self.kept
        } else {
            number
        };
        if number > self.gone {
            number - 1
        } else {
            number
        }
    }

    fn argument(self, param: Option<&Param>, arg: i64) -> i64 {
        let Some(param) = param else {
            return arg;
        };
        match param.kind {
            Kind::Int => arg,
            Kind::Sort(sort) => match u32::try_from(arg) {
                Ok(number) => self.number(sort, number) as i64,
                Err(_) => arg,
            },
        }
    }
}

fn sizes_joined(alloc: Global, sizes: &[u32], joined: Joined) -> Result<Items<u32>, AllocError> {
    let mut out = Items::new(alloc);
    for (sort, size) in sizes.iter().enumerate() {
        out.push(if sort == joined.sort as usize {
            size.saturating_sub(1)
        } else {
            *size
        })?;
    }
    Ok(out)
}

fn consts_joined(
    alloc: Global,
    spec: &Spec,
    consts: &[u32],
    joined: Joined,
) -> Result<Items<u32>, AllocError> {
    let mut out = Items::new(alloc);
    for (place, number) in consts.iter().enumerate() {
        out.push(match spec.consts.as_slice().get(place) {
            Some(constant) => joined.number(constant.sort, *number),
            None => *number,
        })?;
    }
    Ok(out)
}

fn elements_joined(
    alloc: Global,
    sorts: &[u8],
    elements: &[u32],
    joined: Joined,
) -> Result<Items<u32>, AllocError> {
    let mut out = Items::new(alloc);
    for (place, number) in elements.iter().enumerate() {
        out.push(joined.number(sort_at(sorts, place), *number))?;
    }
    Ok(out)
}

fn args_joined(
    alloc: Global,
    params: &[Param],
    args: &[i64],
    joined: Joined,
) -> Result<Items<i64>, AllocError> {
    let mut out = Items::new(alloc);
    for (place, arg) in args.iter().enumerate() {
        out.push(joined.argument(params.get(place), *arg))?;
    }
    Ok(out)
}

fn push_call_joined(
    alloc: Global,
    spec: &Spec,
    call: &Call,
    joined: Joined,
    calls: &mut Items<Call>,
) -> Result<(), AllocError> {
    let params = match spec.operations.as_slice().get(call.op as usize) {
        Some(operation) => operation.params.as_slice(),
        None => &[],
    };
    let args = args_joined(alloc, params, call.args.as_slice(), joined)?;
    calls.push(Call { op: call.op, args })
}

fn calls_joined(
    alloc: Global,
    spec: &Spec,
    calls: &[Call],
    joined: Joined,
) -> Result<Items<Call>, AllocError> {
    let mut out = Items::new(alloc);
    for call in calls {
        or_drop!(push_call_joined(alloc, spec, call, joined, &mut out); out);
    }
    Ok(out)
}

/// Whether a list has a fact of a relation or a counter at these elements.
pub fn has(facts: &[Fact], thing: Thing, elements: &[u32]) -> bool {
    for fact in facts {
        if fact.thing == thing && fact.elements.as_slice() == elements {
            return true;
        }
    }
    false
}

// Of two facts that become one, the first stays: a tuple is true then, and a counter has the first value.
fn push_fact_joined(
    alloc: Global,
    spec: &Spec,
    fact: &Fact,
    joined: Joined,
    facts: &mut Items<Fact>,
) -> Result<(), AllocError> {
    let sorts = spec.places_of(fact.thing);
    let elements = elements_joined(alloc, sorts, fact.elements.as_slice(), joined)?;
    if has(facts.as_slice(), fact.thing, elements.as_slice()) {
        drop(elements);
        return Ok(());
    }
    facts.push(Fact {
        thing: fact.thing,
        elements,
        value: fact.value,
    })
}

fn facts_joined(
    alloc: Global,
    spec: &Spec,
    facts: &[Fact],
    joined: Joined,
    left: Left,
) -> Result<Items<Fact>, AllocError> {
    let mut out = Items::new(alloc);
    for (place, fact) in facts.iter().enumerate() {
        if !left.leaves_out(spec, place, fact) {
            or_drop!(push_fact_joined(alloc, spec, fact, joined, &mut out); out);
        }
    }
    Ok(out)
}

// The sorts of the variables of an invariant; none where there is none at this place.
fn sorts_of_invariant(spec: &Spec, inv: u8) -> &[u8] {
    match spec.invariants.as_slice().get(inv as usize) {
        Some(invariant) => invariant.line.vars.as_slice(),
        None => &[],
    }
}

// The sorts of the variables of a precondition; none where there is none at this place.
fn sorts_of_requires(spec: &Spec, op: u8, line: u8) -> &[u8] {
    let Some(operation) = spec.operations.as_slice().get(op as usize) else {
        return &[];
    };
    match operation.requires_.as_slice().get(line as usize) {
        Some(line) => line.vars.as_slice(),
        None => &[],
    }
}

/// The sorts of the elements at which a conclusion may fail.
pub fn sorts_of_elements<'a>(spec: &'a Spec, ob: &Obligation) -> &'a [u8] {
    match ob {
        Obligation::Init { inv } | Obligation::Safety { op: _, inv } => {
            sorts_of_invariant(spec, *inv)
        }
        Obligation::Commute {
            first: _,
            second: _,
            thing,
        } => spec.places_of(*thing),
        Obligation::Stable { op, line, other: _ } => sorts_of_requires(spec, *op, *line),
    }
}

/// A draft in which two elements are one, with facts left out.
pub fn made_one(
    alloc: Global,
    spec: &Spec,
    ob: &Obligation,
    draft: &Draft,
    two: Joined,
    left: Left,
) -> Result<Draft, AllocError> {
    let sorts = sorts_of_elements(spec, ob);
    let sizes = sizes_joined(alloc, draft.sizes.as_slice(), two)?;
    let consts = or_drop!(consts_joined(alloc, spec, draft.consts.as_slice(), two); sizes);
    let elements =
        or_drop!(elements_joined(alloc, sorts, draft.elements.as_slice(), two); sizes, consts);
    let calls =
        or_drop!(calls_joined(alloc, spec, draft.calls.as_slice(), two); sizes, consts, elements);
    let facts = or_drop!(
        facts_joined(alloc, spec, draft.facts.as_slice(), two, left);
        sizes, consts, elements, calls
    );
    Ok(Draft {
        sizes,
        consts,
        facts,
        calls,
        elements,
    })
}

// ---- other numbers

/// The number at a place; none where no whole number stands there, or it is 0.
pub fn number_at(spec: &Spec, draft: &Draft, place: Place) -> Option<Number> {
    let value = match place {
        Place::Argument(call, at) => {
            let call = draft.calls.as_slice().get(call)?;
            if !is_number(spec, call, at) {
                return None;
            }
            call.args.as_slice().get(at).copied()?
        }
        Place::Value(at) => {
            let fact = draft.facts.as_slice().get(at)?;
            match fact.thing {
                Thing::Relation(_) => return None,
                Thing::Counter(_) => fact.value,
            }
        }
    };
    if value == 0 {
        return None;
    }
    Some(Number { place, value })
}

/// A change of facts and numbers: which facts are left out, and which numbers are others.
#[derive(Clone, Copy)]
pub struct Change<'a> {
    pub left: Left,
    pub numbers: &'a [Number],
}

impl Change<'_> {
    /// The value of a fact at a place of the list; 0 where it is left out.
    pub fn value(self, spec: &Spec, place: usize, fact: &Fact) -> i64 {
        if self.left.leaves_out(spec, place, fact) {
            0
        } else {
            changed(self.numbers, Place::Value(place), fact.value)
        }
    }
}

fn facts_changed(
    alloc: Global,
    spec: &Spec,
    facts: &[Fact],
    change: Change<'_>,
) -> Result<Items<Fact>, AllocError> {
    let mut out = Items::new(alloc);
    for (place, fact) in facts.iter().enumerate() {
        let value = change.value(spec, place, fact);
        if value != 0 {
            let elements = fact.elements.as_slice();
            or_drop!(push_fact(alloc, fact.thing, elements, value, &mut out); out);
        }
    }
    Ok(out)
}

fn args_changed(
    alloc: Global,
    args: &[i64],
    call: usize,
    changes: &[Number],
) -> Result<Items<i64>, AllocError> {
    let mut out = Items::new(alloc);
    for (place, arg) in args.iter().enumerate() {
        out.push(changed(changes, Place::Argument(call, place), *arg))?;
    }
    Ok(out)
}

fn push_call_changed(
    alloc: Global,
    call: &Call,
    place: usize,
    changes: &[Number],
    calls: &mut Items<Call>,
) -> Result<(), AllocError> {
    let args = args_changed(alloc, call.args.as_slice(), place, changes)?;
    calls.push(Call { op: call.op, args })
}

/// Calls with other arguments.
pub fn calls_changed(
    alloc: Global,
    calls: &[Call],
    changes: &[Number],
) -> Result<Items<Call>, AllocError> {
    let mut out = Items::new(alloc);
    for (place, call) in calls.iter().enumerate() {
        or_drop!(push_call_changed(alloc, call, place, changes, &mut out); out);
    }
    Ok(out)
}

/// A draft with a change. A fact whose value is 0 is left out.
pub fn with_change(
    alloc: Global,
    spec: &Spec,
    draft: &Draft,
    change: Change<'_>,
) -> Result<Draft, AllocError> {
    let facts = facts_changed(alloc, spec, draft.facts.as_slice(), change)?;
    let calls = or_drop!(calls_changed(alloc, draft.calls.as_slice(), change.numbers); facts);
    draft_with(alloc, draft, facts, calls)
}
